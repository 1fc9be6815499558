//! The calls of a service in its picture.

ghost use Rattle.std.specs.Prelude.{◌≡◌, ◌++◌, ℕ, ◌<◌, ◌≤◌, ◌^◌, OnOk, length, slice_index};
ghost use Rattle.sheet_parts.specs.Fill.{joined_below};
ghost use Rattle.run_picture.specs.Calls.{AreCalls, point_x, is_timed, call_line, stop_line, pass_line, call_lines, time_mark, time_marks};

use crate::axes::Axes;
use crate::pen::put_natural;
use crate::positions::place_x;
use drive_rules::Rules;
use std::alloc::AllocError;

/// Where a point lies, units from the left.
#[tactic(auto, unfolding(crate::specs::Calls::point_x))]
pub fn point_x(axes: &Axes, rules: &Rules, point: u32) -> u64
    requires { point ≤ length rules.now.steps }
    ensures value { result ≡ point_x axes.now rules.now point }
    ensures small { result < 2 ^ 47 }
{
    place_x(axes, rules.place(point as usize))
}

/// Whether there is a latest time at a point.
#[tactic(auto, unfolding(crate::specs::Calls::is_timed))]
pub fn is_timed(rules: &Rules, point: u32) -> bool
    ensures { result ≡ is_timed rules.now point }
{
    rules.timings().iter().any(|t| t.point == point)
}

/// Appends the upright line of a call at a point.
#[tactic(auto, unfolding(crate::specs::Calls::call_line))]
fn put_call_line(
    out: &mut Vec<u8>,
    axes: &Axes,
    rules: &Rules,
    point: u32,
) -> Result<(), AllocError>
    requires { point ≤ length rules.now.steps }
    ensures { OnOk result (out.new.items ≡ out.old.items ++ call_line axes.now rules.now point) }
{
    out.push(b'M')?;
    put_natural(out, point_x(axes, rules, point))?;
    out.extend_from_slice(b" 1050V5340")
}

/// Appends the line of a call at a point, if the train stops there.
#[tactic(auto, unfolding(crate::specs::Calls::stop_line))]
fn put_stop_line(
    out: &mut Vec<u8>,
    axes: &Axes,
    rules: &Rules,
    calls: &[u32],
    j: usize,
) -> Result<(), AllocError>
    requires call { j < length calls.now }
    requires point { slice_index calls.now j ≤ length rules.now.steps }
    ensures { OnOk result (out.new.items ≡ out.old.items ++ stop_line axes.now rules.now calls.now j) }
{
    if rules.stop(calls[j] as usize) {
        put_call_line(out, axes, rules, calls[j])?;
    }
    Ok(())
}

/// Appends the line of a call at a point, if the train passes there.
#[tactic(auto, unfolding(crate::specs::Calls::pass_line))]
fn put_pass_line(
    out: &mut Vec<u8>,
    axes: &Axes,
    rules: &Rules,
    calls: &[u32],
    j: usize,
) -> Result<(), AllocError>
    requires call { j < length calls.now }
    requires point { slice_index calls.now j ≤ length rules.now.steps }
    ensures { OnOk result (out.new.items ≡ out.old.items ++ pass_line axes.now rules.now calls.now j) }
{
    if !rules.stop(calls[j] as usize) {
        put_call_line(out, axes, rules, calls[j])?;
    }
    Ok(())
}

/// Appends the lines of the calls where the train stops.
#[tactic(auto, using(sheet_parts::proofs::FillLemmas::joins))]
fn put_stop_lines(
    out: &mut Vec<u8>,
    axes: &Axes,
    rules: &Rules,
    calls: &[u32],
) -> Result<(), AllocError>
    requires { AreCalls rules.now calls.now }
    ensures { OnOk result (out.new.items ≡ out.old.items ++ joined_below (stop_line axes.now rules.now calls.now) (length calls.now)) }
{
    for j in 0..calls.len() {
        put_stop_line(out, axes, rules, calls, j)?;
    }
    Ok(())
}

/// Appends the lines of the calls where the train passes.
#[tactic(auto, using(sheet_parts::proofs::FillLemmas::joins))]
fn put_pass_lines(
    out: &mut Vec<u8>,
    axes: &Axes,
    rules: &Rules,
    calls: &[u32],
) -> Result<(), AllocError>
    requires { AreCalls rules.now calls.now }
    ensures { OnOk result (out.new.items ≡ out.old.items ++ joined_below (pass_line axes.now rules.now calls.now) (length calls.now)) }
{
    for j in 0..calls.len() {
        put_pass_line(out, axes, rules, calls, j)?;
    }
    Ok(())
}

/// Appends the lines of all calls: drawn through at stops, broken at passes.
#[tactic(auto, unfolding(crate::specs::Calls::call_lines))]
pub fn put_call_lines(
    out: &mut Vec<u8>,
    axes: &Axes,
    rules: &Rules,
    calls: &[u32],
) -> Result<(), AllocError>
    requires { AreCalls rules.now calls.now }
    ensures { OnOk result (out.new.items ≡ out.old.items ++ call_lines axes.now rules.now calls.now) }
{
    out.extend_from_slice(b"<path class='s' d='")?;
    put_stop_lines(out, axes, rules, calls)?;
    out.extend_from_slice(b"'/>\n<path class='q' d='")?;
    put_pass_lines(out, axes, rules, calls)?;
    out.extend_from_slice(b"'/>\n")
}

/// Appends the mark above a call, if it has a latest time.
#[tactic(auto, unfolding(crate::specs::Calls::time_mark))]
fn put_time_mark(
    out: &mut Vec<u8>,
    axes: &Axes,
    rules: &Rules,
    calls: &[u32],
    j: usize,
) -> Result<(), AllocError>
    requires call { j < length calls.now }
    requires point { slice_index calls.now j ≤ length rules.now.steps }
    ensures { OnOk result (out.new.items ≡ out.old.items ++ time_mark axes.now rules.now calls.now j) }
{
    if is_timed(rules, calls[j]) {
        out.extend_from_slice(b"M")?;
        put_natural(out, point_x(axes, rules, calls[j]))?;
        out.extend_from_slice(b" 1050l-80-120h160z")?;
    }
    Ok(())
}

/// Appends the marks above calls, one after the other.
#[tactic(auto, using(sheet_parts::proofs::FillLemmas::joins))]
fn put_marks(out: &mut Vec<u8>, axes: &Axes, rules: &Rules, calls: &[u32]) -> Result<(), AllocError>
    requires { AreCalls rules.now calls.now }
    ensures { OnOk result (out.new.items ≡ out.old.items ++ joined_below (time_mark axes.now rules.now calls.now) (length calls.now)) }
{
    for j in 0..calls.len() {
        put_time_mark(out, axes, rules, calls, j)?;
    }
    Ok(())
}

/// Appends the marks of all calls with latest times.
#[tactic(auto, unfolding(crate::specs::Calls::time_marks))]
pub fn put_time_marks(
    out: &mut Vec<u8>,
    axes: &Axes,
    rules: &Rules,
    calls: &[u32],
) -> Result<(), AllocError>
    requires { AreCalls rules.now calls.now }
    ensures { OnOk result (out.new.items ≡ out.old.items ++ time_marks axes.now rules.now calls.now) }
{
    out.extend_from_slice(b"<path class='t' d='")?;
    put_marks(out, axes, rules, calls)?;
    out.extend_from_slice(b"'/>\n")
}
