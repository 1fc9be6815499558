//! The text about usage.

ghost use Rattle.std.specs.Prelude.{◌≡◌, IfOk};
ghost use Rattle.sheet_run.specs.Outcome.{usage_text};

use command_files::{Answer, status};
use std::alloc::{AllocError, Global};

/// What the program is asked with.
const USAGE: &[u8] =
    b"usage: sheet LINE TRAIN SERVICE REPORT [--step N] [--form timetable|points|svg]\n";

/// The text about usage.
pub fn usage(alloc: Global) -> Result<Answer, AllocError>
    ensures status { IfOk result (λ a. a.status ≡ 2) }
    ensures text { IfOk result (λ a. a.text.items ≡ usage_text) }
{
    let text = Vec::from_slice(alloc, USAGE)?;
    Ok(Answer {
        status: status::USAGE,
        text,
    })
}
