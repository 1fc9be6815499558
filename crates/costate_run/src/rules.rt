//! The answer to the rules of a run.

ghost use Rattle.std.specs.Prelude.{◌≡◌, ◌≤◌, IfOk};
ghost use Rattle.costate_bound.specs.Costs.{CoversWork};
ghost use Rattle.drive_choice.specs.Choices.{IsChosen};
ghost use Rattle.costate_run.specs.Plan.{IsCertificateFor, IsPlanAnswer, IsReported};

use crate::certificates::certificate;
use command_files::{Answer, status};
use costate_text::{CostateCertificate, put_costate_certificate};
use drive_choice::{Choice, choose_drive};
use drive_report::{Figures, put_advice};
use drive_rules::Rules;
use proposers::{Proposer, drop_silent};
use rail_base::{StepCost, is_gap_met};
use run_parts::{late_answer, no_drive_answer};
use std::alloc::{AllocError, Global};

/// The answer to the rules of a run at a cost of work, where this share of braking work comes back, in per mille, and at this tolerance. The
/// boxes propose drives; once there is a plan, those of which nothing was taken are dropped. `regeneration` is the share that the brakes give
/// back, where the train's file says one, in per mille: the report has it then.
pub fn rules_answer<C: StepCost>(
    alloc: Global,
    rules: &Rules,
    cost: &C,
    share: u16,
    tolerance: u32,
    regeneration: Option<u16>,
    boxes: &mut Vec<Box<dyn Proposer>>,
) -> Result<Answer, AllocError>
    requires tolerance { tolerance ≤ 1000 }
    requires covers { CoversWork share (C.cost cost.now) }
    ensures { IfOk result (λ a. IsPlanAnswer (C.cost cost.now) share rules.now tolerance regeneration a.status a.text.items) }
{
    match choose_drive(alloc, rules, cost, boxes)? {
        Choice::NoDrive => no_drive_answer(alloc, rules),
        Choice::Late { timing, arrival } => late_answer(alloc, rules, timing, arrival),
        Choice::Drive(chosen) => {
            drop_silent(boxes);
            let certificate = certificate(alloc, rules, cost, share, &chosen)?;
            report_answer(
                alloc,
                rules,
                cost,
                share,
                tolerance,
                regeneration,
                &certificate,
            )
        }
    }
}

/// The answer that a certificate gives: its report.
fn report_answer<C: StepCost>(
    alloc: Global,
    rules: &Rules,
    cost: &C,
    share: u16,
    tolerance: u32,
    regeneration: Option<u16>,
    certificate: &CostateCertificate,
) -> Result<Answer, AllocError>
    requires tolerance { tolerance ≤ 1000 }
    requires certificate { IsCertificateFor (C.cost cost.now) share rules.now certificate.now }
    ensures { IfOk result (λ a. IsReported (C.cost cost.now) share rules.now tolerance regeneration a.status a.text.items) }
{
    // Only the contract speaks of these two.
    let _ = cost;
    let _ = share;
    let figures = Figures {
        energy: certificate.energy,
        bound: certificate.bound,
        met: is_gap_met(certificate.energy, certificate.bound, tolerance),
        counts: None,
        regeneration,
    };
    let mut text = Vec::new(alloc);
    put_advice(
        alloc,
        &mut text,
        rules,
        certificate.speeds.items(),
        &figures,
    )?;
    put_costate_certificate(alloc, &mut text, certificate)?;
    let status = if figures.met {
        status::GAP_MET
    } else {
        status::GAP_OPEN
    };
    Ok(Answer { status, text })
}
