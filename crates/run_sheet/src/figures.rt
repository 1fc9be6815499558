//! The figures of a whole drive.

ghost use Rattle.std.specs.Prelude.{◌≡◌, ℕ, ◌≤◌, ◌<◌, ◌^◌, ◌++◌, IfOk, OnOk};
ghost use Rattle.std.specs.Int.RustNames.{unsigned_abs};
ghost use Rattle.rail_specs.specs.Rules.{IsDrive};
ghost use Rattle.run_sheet.specs.Timetable.{figure_line, kilojoules_text, running_line, energy_line, bound_line, share_line, saving_line, phase_line, phases_text};

use crate::phases::phase_metres;
use drive_report::Phase;
use drive_rules::Rules;
use rail_base::{put_line, put_number};
use sheet_parts::{
    kilojoules_down, kilojoules_up, kilowatt_hours_down, kilowatt_hours_up, put_clock,
    put_decimals, put_right, seconds_up,
};
use std::alloc::{AllocError, Global};

/// Appends the line of a figure: a label, the figure at the right end of its column, and its unit.
fn put_figure(out: &mut Vec<u8>, label: &[u8], figure: &[u8], unit: &[u8]) -> Result<(), AllocError>
    ensures { OnOk result (out.new.items ≡ out.old.items ++ figure_line label.now figure.now unit.now) }
{
    out.extend_from_slice(label)?;
    put_right(out, 10, figure)?;
    put_line(out, unit)
}

/// Appends the line of the time of the whole drive, ms.
#[tactic(auto, unfolding(crate::specs::Timetable::running_line))]
pub(crate) fn put_running(alloc: Global, out: &mut Vec<u8>, arrival: u64) -> Result<(), AllocError>
    ensures { OnOk result (out.new.items ≡ out.old.items ++ running_line arrival) }
{
    let mut time = Vec::new(alloc);
    put_clock(&mut time, seconds_up(arrival as i128))?;
    put_figure(out, b"running time  ", time.as_slice(), b"")
}

/// A number of kilojoules at the right end of its column, behind an energy in kWh.
fn kilojoules_text(alloc: Global, kilojoules: i128) -> Result<Vec<u8>, AllocError>
    ensures { IfOk result (λ text. text.items ≡ kilojoules_text kilojoules) }
{
    let mut digits = Vec::new(alloc);
    put_number(alloc, &mut digits, kilojoules)?;
    let mut text = Vec::from_slice(alloc, b" kWh")?;
    put_right(&mut text, 12, digits.as_slice())?;
    text.extend_from_slice(b" kJ")?;
    Ok(text)
}

/// Appends the line of what the drive costs, in 0.5 microjoule.
#[tactic(auto, unfolding(crate::specs::Timetable::energy_line))]
pub(crate) fn put_energy(alloc: Global, out: &mut Vec<u8>, energy: i128) -> Result<(), AllocError>
    requires { unsigned_abs energy ≤ 2 ^ 100 }
    ensures { OnOk result (out.new.items ≡ out.old.items ++ energy_line energy) }
{
    let mut figure = Vec::new(alloc);
    put_decimals(&mut figure, 2, kilowatt_hours_up(energy))?;
    let unit = kilojoules_text(alloc, kilojoules_up(energy))?;
    put_figure(out, b"energy        ", figure.as_slice(), unit.as_slice())
}

/// Appends the line of what every drive on time costs at least, in 0.5 microjoule.
#[tactic(auto, unfolding(crate::specs::Timetable::bound_line))]
pub(crate) fn put_bound(alloc: Global, out: &mut Vec<u8>, bound: i128) -> Result<(), AllocError>
    requires { unsigned_abs bound ≤ 2 ^ 100 }
    ensures { OnOk result (out.new.items ≡ out.old.items ++ bound_line bound) }
{
    let mut figure = Vec::new(alloc);
    put_decimals(&mut figure, 2, kilowatt_hours_down(bound))?;
    let unit = kilojoules_text(alloc, kilojoules_down(bound))?;
    put_figure(out, b"bound         ", figure.as_slice(), unit.as_slice())
}

/// Appends the line of what could be saved, in hundredths of a per cent.
#[tactic(auto, unfolding(crate::specs::Timetable::share_line))]
fn put_share(alloc: Global, out: &mut Vec<u8>, share: i128) -> Result<(), AllocError>
    ensures { OnOk result (out.new.items ≡ out.old.items ++ share_line share) }
{
    let mut figure = Vec::new(alloc);
    put_decimals(&mut figure, 2, share)?;
    put_figure(
        out,
        b"could be saved",
        figure.as_slice(),
        b" per cent at most",
    )
}

/// Appends the same, where the drive costs something.
#[tactic(auto, unfolding(crate::specs::Timetable::saving_line))]
pub(crate) fn put_saving(
    alloc: Global,
    out: &mut Vec<u8>,
    saving: Option<i128>,
) -> Result<(), AllocError>
    ensures { OnOk result (out.new.items ≡ out.old.items ++ saving_line saving) }
{
    match saving {
        None => Ok(()),
        Some(share) => put_share(alloc, out, share),
    }
}

/// Appends the line of how far the train goes in a phase.
#[tactic(auto, unfolding(crate::specs::Timetable::phase_line))]
fn put_phase(
    alloc: Global,
    out: &mut Vec<u8>,
    rules: &Rules,
    speeds: &[u16],
    label: &[u8],
    phase: Phase,
) -> Result<(), AllocError>
    requires { IsDrive rules.now speeds.now }
    ensures { OnOk result (out.new.items ≡ out.old.items ++ phase_line rules.now speeds.now label.now phase) }
{
    let mut figure = Vec::new(alloc);
    put_decimals(&mut figure, 3, phase_metres(rules, speeds, phase) as i128)?;
    put_figure(out, label, figure.as_slice(), b" km")
}

/// Appends the lines of how far the train goes in each phase.
#[tactic(auto, unfolding(crate::specs::Timetable::phases_text))]
pub(crate) fn put_phases(
    alloc: Global,
    out: &mut Vec<u8>,
    rules: &Rules,
    speeds: &[u16],
) -> Result<(), AllocError>
    requires { IsDrive rules.now speeds.now }
    ensures { OnOk result (out.new.items ≡ out.old.items ++ phases_text rules.now speeds.now) }
{
    put_phase(alloc, out, rules, speeds, b"hold          ", Phase::Hold)?;
    put_phase(alloc, out, rules, speeds, b"power         ", Phase::Power)?;
    put_phase(alloc, out, rules, speeds, b"coast         ", Phase::Coast)?;
    put_phase(alloc, out, rules, speeds, b"brake         ", Phase::Brake)?;
    put_phase(alloc, out, rules, speeds, b"part          ", Phase::Part)
}
