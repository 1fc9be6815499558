//! The picture of a drive.

ghost use Rattle.std.specs.Prelude.{◌≡◌, ◌++◌, ℕ, ◌<◌, ◌≤◌, ◌^◌, OnOk, IfOk, length};
ghost use Rattle.std.specs.Int.RustNames.{unsigned_abs};
ghost use Rattle.rail_specs.specs.Rules.{IsDrive};
ghost use Rattle.run_picture.specs.Calls.{AreCalls};
ghost use Rattle.run_picture.specs.Picture.{ends_text, length_text, time_text, energy_text, heading, head_text, back_text, curves, drawn, picture_text};

use crate::axes::Axes;
use crate::calls::{put_call_lines, put_time_marks};
use crate::curve::put_phase_curve;
use crate::fixed::{put_begin, put_frame, put_ground, put_legend};
use crate::labels::{put_call_name, put_labels};
use crate::scaling::axes_of;
use crate::stairs::{put_gradient_area, put_limit_line};
use crate::ticks::{put_gradient_ticks, put_place_ticks, put_speed_ticks};
use drive_report::Phase;
use drive_rules::Rules;
use line_file::NameList;
use sheet_parts::{kilowatt_hours_up, put_clock, put_decimals, seconds_up};
use std::alloc::{AllocError, Global};

/// Appends the names of the first and the last call.
#[tactic(auto, unfolding(crate::specs::Picture::ends_text))]
fn put_ends(
    alloc: Global,
    out: &mut Vec<u8>,
    names: &NameList,
    calls: &[u32],
) -> Result<(), AllocError>
    ensures { OnOk result (out.new.items ≡ out.old.items ++ ends_text names.now calls.now) }
{
    put_call_name(alloc, out, names, 0)?;
    out.extend_from_slice(b" - ")?;
    put_call_name(alloc, out, names, calls.len().saturating_sub(1))
}

/// Appends the length of a run in km.
#[tactic(auto, unfolding(crate::specs::Picture::length_text))]
fn put_length(out: &mut Vec<u8>, axes: &Axes) -> Result<(), AllocError>
    ensures { OnOk result (out.new.items ≡ out.old.items ++ length_text axes.now) }
{
    out.extend_from_slice(b", ")?;
    put_decimals(out, 3, i128::from(axes.span()))?;
    out.extend_from_slice(b" km")
}

/// Appends the time of a run, rounded up to seconds.
#[tactic(auto, unfolding(crate::specs::Picture::time_text))]
fn put_time(out: &mut Vec<u8>, rules: &Rules, speeds: &[u16]) -> Result<(), AllocError>
    requires { IsDrive rules.now speeds.now }
    ensures { OnOk result (out.new.items ≡ out.old.items ++ time_text rules.now speeds.now) }
{
    let arrival = rules.arrival(speeds, rules.steps());
    out.extend_from_slice(b", ")?;
    put_clock(out, seconds_up(i128::from(arrival)))
}

/// Appends an energy in kWh, rounded up to a hundredth.
#[tactic(auto, unfolding(crate::specs::Picture::energy_text))]
fn put_energy(out: &mut Vec<u8>, energy: i128) -> Result<(), AllocError>
    requires { unsigned_abs energy < 2 ^ 127 }
    ensures { OnOk result (out.new.items ≡ out.old.items ++ energy_text energy) }
{
    out.extend_from_slice(b", ")?;
    put_decimals(out, 2, kilowatt_hours_up(energy))?;
    out.extend_from_slice(b" kWh")
}

/// The heading: the ends of the run, and what it takes.
#[tactic(auto, unfolding(crate::specs::Picture::heading))]
fn heading(
    alloc: Global,
    axes: &Axes,
    rules: &Rules,
    speeds: &[u16],
    calls: &[u32],
    names: &NameList,
    energy: i128,
) -> Result<Vec<u8>, AllocError>
    requires drive { IsDrive rules.now speeds.now }
    requires energy { unsigned_abs energy < 2 ^ 127 }
    ensures { IfOk result (λ text. text.items ≡ heading axes.now rules.now speeds.now calls.now names.now energy) }
{
    let mut text = Vec::new(alloc);
    put_ends(alloc, &mut text, names, calls)?;
    put_length(&mut text, axes)?;
    put_time(&mut text, rules, speeds)?;
    put_energy(&mut text, energy)?;
    Ok(text)
}

/// Appends the heading, for those who hear it and for those who see it.
#[tactic(auto, unfolding(crate::specs::Picture::head_text))]
fn put_head(out: &mut Vec<u8>, text: &[u8]) -> Result<(), AllocError>
    ensures { OnOk result (out.new.items ≡ out.old.items ++ head_text text.now) }
{
    out.extend_from_slice(b"<title>")?;
    out.extend_from_slice(text)?;
    out.extend_from_slice(b"</title>\n")?;
    put_ground(out)?;
    out.extend_from_slice(b"<text class='h' x='300' y='370'>")?;
    out.extend_from_slice(text)?;
    out.extend_from_slice(b"</text>\n")
}

/// Appends the axes, and what lies under the curve.
#[tactic(auto, unfolding(crate::specs::Picture::back_text))]
fn put_back(
    alloc: Global,
    out: &mut Vec<u8>,
    axes: &Axes,
    rules: &Rules,
    calls: &[u32],
) -> Result<(), AllocError>
    requires { AreCalls rules.now calls.now }
    ensures { OnOk result (out.new.items ≡ out.old.items ++ back_text axes.now rules.now calls.now) }
{
    put_legend(out)?;
    put_place_ticks(alloc, out, axes)?;
    put_speed_ticks(alloc, out, axes)?;
    put_gradient_ticks(alloc, out, axes)?;
    put_gradient_area(out, axes, rules)?;
    put_frame(out)?;
    put_call_lines(out, axes, rules, calls)?;
    put_limit_line(out, axes, rules)
}

/// Appends the curve, each phase in its colour.
#[tactic(auto, unfolding(crate::specs::Picture::curves))]
fn put_curves(
    out: &mut Vec<u8>,
    axes: &Axes,
    rules: &Rules,
    speeds: &[u16],
) -> Result<(), AllocError>
    requires { IsDrive rules.now speeds.now }
    ensures { OnOk result (out.new.items ≡ out.old.items ++ curves axes.now rules.now speeds.now) }
{
    put_phase_curve(out, axes, rules, speeds, Phase::Hold)?;
    put_phase_curve(out, axes, rules, speeds, Phase::Power)?;
    put_phase_curve(out, axes, rules, speeds, Phase::Coast)?;
    put_phase_curve(out, axes, rules, speeds, Phase::Brake)?;
    put_phase_curve(out, axes, rules, speeds, Phase::Part)
}

/// A picture by its axes and heading.
#[tactic(auto, unfolding(crate::specs::Picture::drawn))]
fn drawn(
    alloc: Global,
    axes: &Axes,
    text: &[u8],
    rules: &Rules,
    speeds: &[u16],
    calls: &[u32],
    names: &NameList,
) -> Result<Vec<u8>, AllocError>
    requires drive { IsDrive rules.now speeds.now }
    requires calls { AreCalls rules.now calls.now }
    ensures { IfOk result (λ picture. picture.items ≡ drawn axes.now text.now rules.now speeds.now calls.now names.now) }
{
    let mut out = Vec::new(alloc);
    put_begin(&mut out)?;
    put_head(&mut out, text)?;
    put_back(alloc, &mut out, axes, rules, calls)?;
    put_curves(&mut out, axes, rules, speeds)?;
    put_time_marks(&mut out, axes, rules, calls)?;
    put_labels(alloc, &mut out, axes, rules, speeds, calls, names)?;
    out.extend_from_slice(b"</svg>\n")?;
    Ok(out)
}

/// The picture of a drive, as a text of scalable vector graphics: speed and limit over distance, the phases in colours, the gradient
/// below, and the calls with names and times of arrival.
///
/// The speeds are in cm/s, one for each point; `calls` has the point of each call of the service, in order, and `names` their names, of
/// which one that is missing is shown as empty; the energy is in 0.5 microjoule. The only error is want of memory.
pub fn picture(
    alloc: Global,
    rules: &Rules,
    speeds: &[u16],
    calls: &[u32],
    names: &NameList,
    energy: i128,
) -> Result<Vec<u8>, AllocError>
    requires drive { IsDrive rules.now speeds.now }
    requires calls { AreCalls rules.now calls.now }
    requires energy { unsigned_abs energy < 2 ^ 127 }
    ensures { IfOk result (λ text. text.items ≡ picture_text rules.now speeds.now calls.now names.now energy) }
{
    let axes = axes_of(rules, speeds);
    let text = heading(alloc, &axes, rules, speeds, calls, names, energy)?;
    drawn(alloc, &axes, text.as_slice(), rules, speeds, calls, names)
}
