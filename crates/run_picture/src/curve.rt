//! The curve of a drive's speed over its places.

ghost use Rattle.std.specs.Prelude.{◌≡◌, ◌++◌, ℕ, ◌+◌, ◌-◌, ◌*◌, ◌/◌, ◌<◌, ◌≤◌, ◌^◌, OnOk, length};
ghost use Rattle.rail_specs.specs.Rules.{IsDrive};
ghost use Rattle.sheet_parts.specs.Fill.{joined_below};
ghost use Rattle.drive_report.specs.Phase.{phase_at, phase_name};
ghost use Rattle.run_picture.specs.Curve.{arc, step_arc, phase_arc, phase_curve};

use crate::axes::Axes;
use crate::pen::put_point;
use crate::positions::{place_x, speed_y};
use drive_report::{Phase, phase_name, step_phase};
use drive_rules::Rules;
use std::alloc::AllocError;

/// An end of a step: where it lies in the picture, and the speed there, cm/s.
#[derive(Clone, Copy)]
struct End {
    x: u64,
    y: u64,
    v: u16,
}

/// Where the control point of a step lies, units from the left.
fn control_x(from: End, to: End) -> u64
    requires moves { 1 ≤ from.v + to.v }
    requires left { from.x < 2 ^ 47 }
    requires right { to.x < 2 ^ 47 }
    ensures { result ≡ from.x + (to.x - from.x) * from.v / (from.v + to.v) }
{
    let speed = u64::from(from.v);
    from.x + to.x.saturating_sub(from.x) * speed / (speed + u64::from(to.v))
}

/// Appends the parabola from one end of a step to the other.
#[tactic(auto, unfolding(crate::specs::Curve::arc))]
fn put_arc(out: &mut Vec<u8>, from: End, to: End) -> Result<(), AllocError>
    requires moves { 1 ≤ from.v + to.v }
    requires left { from.x < 2 ^ 47 }
    requires right { to.x < 2 ^ 47 }
    requires from_low { from.y ≤ 4250 }
    requires to_low { to.y ≤ 4250 }
    ensures { OnOk result (out.new.items ≡ out.old.items ++ arc from.x from.y to.x to.y from.v to.v) }
{
    out.push(b'M')?;
    put_point(out, from.x, from.y)?;
    out.push(b'Q')?;
    put_point(out, control_x(from, to), (from.y + to.y) / 2)?;
    out.push(b' ')?;
    put_point(out, to.x, to.y)
}

/// Appends the curve of step i.
#[tactic(auto, unfolding(crate::specs::Curve::step_arc))]
fn put_step_arc(
    out: &mut Vec<u8>,
    axes: &Axes,
    rules: &Rules,
    speeds: &[u16],
    i: usize,
) -> Result<(), AllocError>
    requires drive { IsDrive rules.now speeds.now }
    requires step { i < length rules.now.steps }
    ensures { OnOk result (out.new.items ≡ out.old.items ++ step_arc axes.now rules.now speeds.now i) }
{
    rules.known_drive(speeds);
    let from = End {
        x: place_x(axes, rules.place(i)),
        y: speed_y(axes, speeds[i]),
        v: speeds[i],
    };
    let to = End {
        x: place_x(axes, rules.place(i + 1)),
        y: speed_y(axes, speeds[i + 1]),
        v: speeds[i + 1],
    };
    put_arc(out, from, to)
}

/// Appends the curve of step i, if that is its phase.
#[tactic(auto, unfolding(crate::specs::Curve::phase_arc))]
fn put_phase_arc(
    out: &mut Vec<u8>,
    axes: &Axes,
    rules: &Rules,
    speeds: &[u16],
    phase: Phase,
    i: usize,
) -> Result<(), AllocError>
    requires drive { IsDrive rules.now speeds.now }
    requires step { i < length rules.now.steps }
    ensures { OnOk result (out.new.items ≡ out.old.items ++ phase_arc axes.now rules.now speeds.now phase i) }
{
    if step_phase(rules, speeds, i) == phase {
        put_step_arc(out, axes, rules, speeds, i)?;
    }
    Ok(())
}

/// Appends the curves of the steps of a phase.
#[tactic(auto, using(sheet_parts::proofs::FillLemmas::joins))]
fn put_phase_arcs(
    out: &mut Vec<u8>,
    axes: &Axes,
    rules: &Rules,
    speeds: &[u16],
    phase: Phase,
) -> Result<(), AllocError>
    requires { IsDrive rules.now speeds.now }
    ensures { OnOk result (out.new.items ≡ out.old.items ++ joined_below (phase_arc axes.now rules.now speeds.now phase) (length rules.now.steps)) }
{
    for i in 0..rules.steps() {
        put_phase_arc(out, axes, rules, speeds, phase, i)?;
    }
    Ok(())
}

/// Appends the curve of all steps of a phase, which has the phase's colour.
#[tactic(auto, unfolding(crate::specs::Curve::phase_curve))]
pub fn put_phase_curve(
    out: &mut Vec<u8>,
    axes: &Axes,
    rules: &Rules,
    speeds: &[u16],
    phase: Phase,
) -> Result<(), AllocError>
    requires { IsDrive rules.now speeds.now }
    ensures { OnOk result (out.new.items ≡ out.old.items ++ phase_curve axes.now rules.now speeds.now phase) }
{
    out.extend_from_slice(b"<path class='c ")?;
    out.extend_from_slice(phase_name(phase))?;
    out.extend_from_slice(b"' d='")?;
    put_phase_arcs(out, axes, rules, speeds, phase)?;
    out.extend_from_slice(b"'/>\n")
}
