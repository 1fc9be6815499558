//! The texts where no drive is on time.

ghost use Rattle.std.specs.Prelude.{◌≡◌, ℕ, ◌<◌, ◌++◌, length, IfOk, OnOk};
ghost use Rattle.drive_report.specs.Report.{no_drive_text, late_line, late_text};

use crate::lines::put_head;
use drive_rules::Rules;
use rail_base::{put_line, put_spaced};
use std::alloc::{AllocError, Global};

/// The text where there is no drive.
pub fn no_drive_text(alloc: Global) -> Result<Vec<u8>, AllocError>
    ensures { IfOk result (λ text. text.items ≡ no_drive_text) }
{
    let mut out = Vec::new(alloc);
    put_head(&mut out)?;
    put_line(&mut out, b"no drive")?;
    Ok(out)
}

/// Appends the line of a timing point where a drive is late.
fn put_late(
    alloc: Global,
    out: &mut Vec<u8>,
    rules: &Rules,
    timing: usize,
    arrival: u64,
) -> Result<(), AllocError>
    requires { timing < length rules.now.timings }
    ensures { OnOk result (out.new.items ≡ out.old.items ++ late_line rules.now timing arrival) }
{
    let at = rules.timings()[timing];
    out.extend_from_slice(b"late")?;
    put_spaced(alloc, out, rules.place(at.point as usize) as i128)?;
    put_spaced(alloc, out, arrival as i128)?;
    put_spaced(alloc, out, at.latest as i128)?;
    out.push(b'\n')?;
    Ok(())
}

/// The text where a drive is first late at a timing point, with its arrival there in ms.
///
/// `timing` is an index of `Rules::timings`. The only error is want of memory.
pub fn late_text(
    alloc: Global,
    rules: &Rules,
    timing: usize,
    arrival: u64,
) -> Result<Vec<u8>, AllocError>
    requires { timing < length rules.now.timings }
    ensures { IfOk result (λ text. text.items ≡ late_text rules.now timing arrival) }
{
    let mut out = Vec::new(alloc);
    put_head(&mut out)?;
    put_late(alloc, &mut out, rules, timing, arrival)?;
    Ok(out)
}
