//! The timetable of a drive.

ghost use Rattle.std.specs.Prelude.{◌≡◌, ℕ, ◌≤◌, ◌^◌, ◌++◌, length, All, IfOk, OnOk};
ghost use Rattle.std.specs.Int.RustNames.{unsigned_abs};
ghost use Rattle.rail_specs.specs.Rules.{IsDrive};
ghost use Rattle.run_sheet.specs.Timetable.{column_names, timetable_text};

use crate::calls::put_calls;
use crate::figures::{put_bound, put_energy, put_phases, put_running, put_saving};
use drive_rules::Rules;
use line_file::NameList;
use rail_base::put_line;
use sheet_parts::{arrivals, saving_of};
use std::alloc::{AllocError, Global};

/// Appends the line above the calls.
#[tactic(auto, unfolding(crate::specs::Timetable::column_names))]
fn put_column_names(out: &mut Vec<u8>) -> Result<(), AllocError>
    ensures { OnOk result (out.new.items ≡ out.old.items ++ column_names) }
{
    put_line(
        out,
        b"       km    arrival  departure     latest      slack  call",
    )
}

/// The timetable of a drive: a line for each call with its place, the time of arrival, that of departure, the latest time, the slack and the
/// name; and the figures of the whole drive.
///
/// `speeds` are in cm/s, one for each point. `calls` are points, and `names` their names in the same order: a call that has none is shown
/// without one. `energy` is what the drive costs, and `bound` what every drive on time costs at least, both in 0.5 microjoule. The only
/// error is want of memory.
#[tactic(auto, unfolding(crate::specs::Timetable::timetable_text))]
pub fn timetable(
    alloc: Global,
    rules: &Rules,
    speeds: &[u16],
    calls: &[u32],
    names: &NameList,
    energy: i128,
    bound: i128,
) -> Result<Vec<u8>, AllocError>
    requires drive { IsDrive rules.now speeds.now }
    requires calls { All (λ k. k ≤ length rules.now.steps) calls.now }
    requires energy { unsigned_abs energy ≤ 2 ^ 100 }
    requires bound { unsigned_abs bound ≤ 2 ^ 100 }
    ensures { IfOk result (λ text. text.items ≡ timetable_text rules.now speeds.now calls.now names.now energy bound) }
{
    let times = arrivals(alloc, rules, speeds)?;
    let mut out = Vec::new(alloc);
    put_column_names(&mut out)?;
    put_calls(
        alloc,
        &mut out,
        rules,
        speeds,
        times.as_slice(),
        calls,
        names,
    )?;
    out.push(b'\n')?;
    put_running(alloc, &mut out, times[rules.steps()])?;
    put_energy(alloc, &mut out, energy)?;
    put_bound(alloc, &mut out, bound)?;
    put_saving(alloc, &mut out, saving_of(energy, bound))?;
    put_phases(alloc, &mut out, rules, speeds)?;
    Ok(out)
}
