//! The labels of calls: names and times.

ghost use Rattle.std.specs.Prelude.{◌≡◌, ◌++◌, ℕ, ◌+◌, ◌<◌, ◌≤◌, ◌^◌, OnOk, IfOk, length, slice_index};
ghost use Rattle.rail_specs.specs.Rules.{IsDrive};
ghost use Rattle.sheet_parts.specs.Fill.{joined_below};
ghost use Rattle.run_picture.specs.Calls.{AreCalls, point_x, call_name, weight, label_class, label_place, label_time, label, has_label, free_from, label_if, labels};

use crate::axes::Axes;
use crate::calls::{is_timed, point_x};
use crate::pen::put_natural;
use drive_rules::Rules;
use line_file::NameList;
use sheet_parts::{clipped, put_clock, put_escaped, seconds_up, shown_name};
use std::alloc::{AllocError, Global};

/// How many characters of a name are shown.
const MOST_CHARACTERS: usize = 20;

/// Appends the name of call j as the picture shows it.
#[tactic(auto, unfolding(crate::specs::Calls::call_name))]
pub fn put_call_name(
    alloc: Global,
    out: &mut Vec<u8>,
    names: &NameList,
    j: usize,
) -> Result<(), AllocError>
    ensures { OnOk result (out.new.items ≡ out.old.items ++ call_name names.now j) }
{
    let shown = shown_name(alloc, names.get(j))?;
    let short = clipped(alloc, shown.as_slice(), MOST_CHARACTERS)?;
    put_escaped(out, short.as_slice())
}

/// The class of heavy labels, if there is a latest time at a point.
#[tactic(auto, unfolding(crate::specs::Calls::weight))]
fn weight(rules: &Rules, point: u32) -> &'static [u8]
    ensures { result.now ≡ weight rules.now point }
{
    if is_timed(rules, point) { b" b" } else { b"" }
}

/// Appends the class of the label of a call at a point.
#[tactic(auto, unfolding(crate::specs::Calls::label_class))]
fn put_label_class(out: &mut Vec<u8>, rules: &Rules, point: u32) -> Result<(), AllocError>
    ensures { OnOk result (out.new.items ≡ out.old.items ++ label_class rules.now point) }
{
    let weight = weight(rules, point);
    out.extend_from_slice(b"<text class='k")?;
    out.extend_from_slice(weight)?;
    out.extend_from_slice(b"' transform='translate(")?;
    Ok(())
}

/// Appends where the label of a call at a point begins.
#[tactic(auto, unfolding(crate::specs::Calls::label_place))]
fn put_label_place(
    out: &mut Vec<u8>,
    axes: &Axes,
    rules: &Rules,
    point: u32,
) -> Result<(), AllocError>
    requires { point ≤ length rules.now.steps }
    ensures { OnOk result (out.new.items ≡ out.old.items ++ label_place axes.now rules.now point) }
{
    put_natural(out, point_x(axes, rules, point) + 50)?;
    out.extend_from_slice(b" 5640)rotate(-90)'>")
}

/// Appends how the label of a call at a point ends: with the arrival.
#[tactic(auto, unfolding(crate::specs::Calls::label_time))]
fn put_label_time(
    out: &mut Vec<u8>,
    rules: &Rules,
    speeds: &[u16],
    point: u32,
) -> Result<(), AllocError>
    requires drive { IsDrive rules.now speeds.now }
    requires point { point ≤ length rules.now.steps }
    ensures { OnOk result (out.new.items ≡ out.old.items ++ label_time rules.now speeds.now point) }
{
    let arrival = rules.arrival(speeds, point as usize);
    out.push(b' ')?;
    put_clock(out, seconds_up(i128::from(arrival)))?;
    out.extend_from_slice(b"</text>\n")
}

/// Appends the label of call j: its name and the arrival.
#[tactic(auto, unfolding(crate::specs::Calls::label))]
fn put_label(
    alloc: Global,
    out: &mut Vec<u8>,
    axes: &Axes,
    rules: &Rules,
    speeds: &[u16],
    calls: &[u32],
    names: &NameList,
    j: usize,
) -> Result<(), AllocError>
    requires drive { IsDrive rules.now speeds.now }
    requires call { j < length calls.now }
    requires point { slice_index calls.now j ≤ length rules.now.steps }
    ensures { OnOk result (out.new.items ≡ out.old.items ++ label axes.now rules.now speeds.now calls.now names.now j) }
{
    put_label_class(out, rules, calls[j])?;
    put_label_place(out, axes, rules, calls[j])?;
    put_call_name(alloc, out, names, j)?;
    put_label_time(out, rules, speeds, calls[j])
}

/// Whether call j has a label, where there is room from `free` on.
#[tactic(auto, unfolding(crate::specs::Calls::has_label))]
fn has_label(axes: &Axes, rules: &Rules, calls: &[u32], j: usize, free: u64) -> bool
    requires calls { AreCalls rules.now calls.now }
    requires call { j < length calls.now }
    ensures { result ≡ has_label axes.now rules.now calls.now j free }
{
    let x = point_x(axes, rules, calls[j]);
    let last = point_x(axes, rules, calls[calls.len() - 1]);
    j == 0 || j + 1 == calls.len() || (free <= x && x + 200 <= last)
}

/// Appends the label of call j, if it has one where there is room from `free` on, and says from where on there is room behind it.
#[tactic(auto, unfolding(crate::specs::Calls::label_if))]
fn put_label_if(
    alloc: Global,
    out: &mut Vec<u8>,
    axes: &Axes,
    rules: &Rules,
    speeds: &[u16],
    calls: &[u32],
    names: &NameList,
    j: usize,
    free: u64,
) -> Result<u64, AllocError>
    requires drive { IsDrive rules.now speeds.now }
    requires calls { AreCalls rules.now calls.now }
    requires call { j < length calls.now }
    requires room { free ≡ free_from axes.now rules.now calls.now j }
    ensures text { OnOk result (out.new.items ≡ out.old.items ++ label_if axes.now rules.now speeds.now calls.now names.now j) }
    ensures next { IfOk result (λ next. next ≡ free_from axes.now rules.now calls.now (j + 1)) }
{
    if !has_label(axes, rules, calls, j, free) {
        return Ok(free);
    }
    put_label(alloc, out, axes, rules, speeds, calls, names, j)?;
    Ok(point_x(axes, rules, calls[j]) + 200)
}

/// Appends the labels of all calls that have one.
#[tactic(auto, unfolding(crate::specs::Calls::labels), using(sheet_parts::proofs::FillLemmas::joins))]
pub fn put_labels(
    alloc: Global,
    out: &mut Vec<u8>,
    axes: &Axes,
    rules: &Rules,
    speeds: &[u16],
    calls: &[u32],
    names: &NameList,
) -> Result<(), AllocError>
    requires drive { IsDrive rules.now speeds.now }
    requires calls { AreCalls rules.now calls.now }
    ensures { OnOk result (out.new.items ≡ out.old.items ++ labels axes.now rules.now speeds.now calls.now names.now) }
{
    let mut free = 0;
    for j in 0..calls.len() {
        free = put_label_if(alloc, out, axes, rules, speeds, calls, names, j, free)?;
    }
    Ok(())
}
