//! The text about usage.

ghost use Rattle.std.specs.Prelude.{◌≡◌, IfOk};
ghost use Rattle.costate_run.specs.Outcome.{usage_text};

use command_files::{Answer, status};
use std::alloc::{AllocError, Global};

/// A line for each command.
const USAGE: &[u8] =
    b"usage: costate plan LINE TRAIN SERVICE [--step N] [--tolerance N]\n       costate route FILE [--tolerance N]\n       costate check LINE TRAIN SERVICE REPORT [--step N]\n";

/// The text about usage.
pub fn usage(alloc: Global) -> Result<Answer, AllocError>
    ensures status { IfOk result (λ a. a.status ≡ 2) }
    ensures text { IfOk result (λ a. a.text.items ≡ usage_text) }
{
    let text = Vec::from_slice(alloc, USAGE)?;
    Ok(Answer {
        status: status::USAGE,
        text,
    })
}
