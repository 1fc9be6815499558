//! The first line of each answer.

ghost use Rattle.std.specs.Prelude.{◌≡◌, ℕ, ◌++◌, OnOk};
ghost use Rattle.drive_report.specs.Report.{head_line};

use rail_base::put_line;
use std::alloc::AllocError;

/// Appends the first line of each answer.
#[tactic(auto, unfolding(crate::specs::Report::head_line))]
pub(crate) fn put_head(out: &mut Vec<u8>) -> Result<(), AllocError>
    ensures { OnOk result (out.new.items ≡ out.old.items ++ head_line) }
{
    put_line(out, b"advice 1")
}
