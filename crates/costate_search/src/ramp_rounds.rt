//! A round of ramps: over runs of many steps, the best corrections of all costates together, where a correction changes evenly from one end of
//! its run to the other and is a stride down, none, or a stride up at each end. Rounds of ramps carry costates as far as they have to go, which
//! takes rounds of steps long where there are many steps. They look at a few points of each run, so that rounds of steps have to follow.
ghost use Rattle.std.specs.Prelude.{◌≡◌, ◌-◌, ◌<◌, length, IfOk};

use crate::course::{Course, SPEEDS, least_sum};
use crate::picks::{Reached, best_of, moved, shift};
use std::alloc::{AllocError, Global};

/// The most points of a run that are looked at.
const LOOKS: usize = 8;

/// The corrections of a run: at its first step, at its last one, and evenly between.
#[derive(Clone, Copy)]
struct Ramp {
    from: usize,
    to: usize,
    left: i32,
    right: i32,
}

impl Ramp {
    /// How many steps the last one is behind the first.
    fn reach(self) -> usize {
        self.to.saturating_sub(self.from)
    }

    /// What a costate of step i is with the correction there.
    fn corrected(self, costate: i32, i: usize) -> i32 {
        let rise = self.right.saturating_sub(self.left);
        let behind = i.saturating_sub(self.from).min(4_000) as i32;
        let reach = self.reach().min(4_000).max(1) as i32;
        let risen = rise.saturating_mul(behind) / reach;
        moved(costate.saturating_add(self.left).saturating_add(risen))
    }

    /// What the point before step i is charged with the corrections there.
    fn charge(self, course: &Course<'_>, costates: &[i32], i: usize) -> i128
        requires costates { length costates.now ≡ length course.now.rules.steps }
        requires behind { 0 < i }
        requires step { i < length course.now.rules.steps }
    {
        let exits = course.exits(i - 1, self.corrected(costates[i - 1], i - 1));
        let entries = course.entries(i, self.corrected(costates[i], i));
        least_sum(&exits, &entries)
    }

    /// What the points between the run's first step and its last are charged with the corrections, reckoned from a few of them.
    fn charges(self, course: &Course<'_>, costates: &[i32]) -> i128
        requires { length costates.now ≡ length course.now.rules.steps }
    {
        let looks = self.reach().min(LOOKS).max(1);
        let mut sum = 0i128;
        for g in 0..looks {
            let i = self
                .from
                .saturating_add(1 + g.saturating_mul(self.reach()) / looks);
            if i < costates.len() {
                sum = sum.wrapping_add(self.charge(course, costates, i));
            }
        }
        sum.wrapping_mul((self.reach() / looks) as i128)
    }

    /// Corrects the costates of the run, but for its last step's, where the next run begins.
    fn correct(self, costates: &mut [i32]) {
        for i in self.from..self.to {
            if i < costates.len() {
                costates[i] = self.corrected(costates[i], i);
            }
        }
    }
}

/// The first and the last steps of the runs, in order: a run has at most so many steps, and ends where costates may jump.
pub(crate) fn run_ends(
    alloc: Global,
    course: &Course<'_>,
    most: usize,
) -> Result<Vec<usize>, AllocError> {
    let mut ends = Vec::new(alloc);
    ends.push(0)?;
    let mut last = 0usize;
    for i in 1..course.steps() {
        let jumps = course.may_jump(i);
        if jumps && i - 1 > last {
            ends.push(i - 1)?;
        }
        if jumps || i.saturating_sub(last) >= most {
            ends.push(i)?;
            last = i;
        }
    }
    if last.saturating_add(1) < course.steps() {
        ends.push(course.steps() - 1)?;
    }
    Ok(ends)
}

/// What the points up to the last step of a run are charged at best, for one correction there, and from which one at its first step.
fn reach(
    course: &Course<'_>,
    costates: &[i32],
    ramp: Ramp,
    stride: i32,
    before: &Reached,
) -> (i128, u8)
    requires { length costates.now ≡ length course.now.rules.steps }
{
    let mut values = before.value;
    for pick in 0..3u8 {
        let left = shift(pick, stride);
        let charges = Ramp { left, ..ramp }.charges(course, costates);
        values[pick as usize] = values[pick as usize].wrapping_add(charges);
    }
    best_of(values)
}

/// The same for each of the three corrections at the last step.
fn reached_at(
    course: &Course<'_>,
    costates: &[i32],
    from: usize,
    to: usize,
    stride: i32,
    before: &Reached,
) -> Reached
    requires { length costates.now ≡ length course.now.rules.steps }
{
    let mut reached = *before;
    for pick in 0..3u8 {
        let right = shift(pick, stride);
        let ramp = Ramp {
            from,
            to,
            left: 0,
            right,
        };
        let (value, left) = reach(course, costates, ramp, stride, before);
        reached.value[pick as usize] = value;
        reached.from[pick as usize] = left;
    }
    reached
}

/// What the first point is charged, for each of the three corrections at the first step.
fn first_point(course: &Course<'_>, costate: i32, stride: i32) -> Reached
    requires { 0 < length course.now.rules.steps }
{
    let mut reached = Reached {
        value: [0; 3],
        from: [1; 3],
    };
    for pick in 0..3u8 {
        let entries = course.entries(0, moved(costate.saturating_add(shift(pick, stride))));
        reached.value[pick as usize] = least_sum(&[0i128; SPEEDS], &entries);
    }
    reached
}

/// What all points are charged at best, and with which correction at the last step i.
fn last_point(
    course: &Course<'_>,
    i: usize,
    costate: i32,
    stride: i32,
    before: &Reached,
) -> (i128, u8)
    requires { i < length course.now.rules.steps }
{
    let mut values = before.value;
    for pick in 0..3u8 {
        let exits = course.exits(i, moved(costate.saturating_add(shift(pick, stride))));
        values[pick as usize] = values[pick as usize].wrapping_add(least_sum(
            &exits,
            &[0i128; SPEEDS],
        ));
    }
    best_of(values)
}

/// What the points up to the last step of each run are charged at best, for each of three corrections there, and the best of the last three,
/// with what all points are charged then.
fn forward(
    alloc: Global,
    course: &Course<'_>,
    ends: &[usize],
    stride: i32,
    costates: &[i32],
) -> Result<(Vec<Reached>, u8, i128), AllocError>
    requires costates { length costates.now ≡ length course.now.rules.steps }
    requires some { 0 < length course.now.rules.steps }
    ensures { IfOk result (λ found. length found.0.items ≡ length ends.now - 1) }
{
    let runs = ends.len().saturating_sub(1);
    let mut all = Vec::new(alloc);
    let mut reached = first_point(course, costates[0], stride);
    for j in 0..runs {
        reached = reached_at(course, costates, ends[j], ends[j + 1], stride, &reached);
        all.push(reached)?;
    }
    let i = costates.len() - 1;
    let (value, pick) = last_point(course, i, costates[i], stride, &reached);
    Ok((all, pick, value))
}

/// Takes the best corrections, from the last run back.
fn backward(costates: &mut [i32], ends: &[usize], stride: i32, all: &[Reached], pick: u8)
    requires { length all.now ≡ length ends.now - 1 }
{
    let runs = all.len();
    let mut pick = pick;
    if let Some(last) = costates.last_mut() {
        *last = moved(last.saturating_add(shift(pick, stride)));
    }
    for back in 0..runs {
        let j = runs - 1 - back;
        let left = all[j].before(pick);
        let ramp = Ramp {
            from: ends[j],
            to: ends[j + 1],
            left: shift(left, stride),
            right: shift(pick, stride),
        };
        ramp.correct(costates);
        pick = left;
    }
}

/// One round over runs with these ends: the best of three corrections at each end. What all points are charged then, as far as it is looked at.
pub(crate) fn ramp_round(
    alloc: Global,
    course: &Course<'_>,
    ends: &[usize],
    stride: i32,
    costates: &mut [i32],
) -> Result<i128, AllocError>
    requires costates { length costates.old ≡ length course.now.rules.steps }
    requires some { 0 < length course.now.rules.steps }
{
    let (all, pick, value) = forward(alloc, course, ends, stride, costates)?;
    backward(costates, ends, stride, all.as_slice(), pick);
    Ok(value)
}
