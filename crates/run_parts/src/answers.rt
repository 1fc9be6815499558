//! Answers that several programs give.

ghost use Rattle.std.specs.Prelude.{◌≡◌, IfOk};
ghost use Rattle.rail_specs.specs.Rules.{NoDrive};
ghost use Rattle.phase_composer.specs.Best.{IsLate};
ghost use Rattle.run_parts.specs.Runs.{IsNoDriveAnswer, IsSomeLateAnswer, regeneration_of};
ghost use Rattle.run_parts.specs.Reports.{IsRefusedIn};

use command_files::{Answer, refusal, status};
use drive_report::{late_text, no_drive_text};
use drive_rules::Rules;
use std::alloc::{AllocError, Global};
use train_file::Train;

/// The answer that there is no drive.
pub fn no_drive_answer(alloc: Global, rules: &Rules) -> Result<Answer, AllocError>
    requires { NoDrive rules.now }
    ensures { IfOk result (λ a. IsNoDriveAnswer rules.now a.status a.text.items) }
{
    let _ = rules;
    let text = no_drive_text(alloc)?;
    Ok(Answer {
        status: status::NO_DRIVE,
        text,
    })
}

/// The answer that every drive is late, the greatest drive first at this timing point, which it reaches then.
pub fn late_answer(
    alloc: Global,
    rules: &Rules,
    timing: u32,
    arrival: u64,
) -> Result<Answer, AllocError>
    requires { IsLate rules.now timing arrival }
    ensures { IfOk result (λ a. IsSomeLateAnswer rules.now a.status a.text.items) }
{
    let text = late_text(alloc, rules, timing as usize, arrival)?;
    Ok(Answer {
        status: status::LATE,
        text,
    })
}

/// The answer that the certificate is refused in these words.
pub fn refused_in(alloc: Global, words: &[u8]) -> Result<Answer, AllocError>
    ensures { IfOk result (λ a. IsRefusedIn words.now a.status a.text.items) }
{
    let refused = refusal(alloc, b"certificate", words)?;
    Ok(Answer {
        status: status::CERTIFICATE_REFUSED,
        text: refused.text,
    })
}

/// What a train's file says of the share that its brakes give back, in per mille: version 2 says one.
pub fn regeneration_of(train: &Train) -> Option<u16>
    ensures { result ≡ regeneration_of train.now }
{
    if train.version == 2 {
        Some(train.regeneration)
    } else {
        None
    }
}
