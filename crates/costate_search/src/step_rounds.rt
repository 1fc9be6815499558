//! A round of steps: the best costates of all steps together, where each stays or moves by a stride.
ghost use Rattle.std.specs.Prelude.{◌≡◌, ◌<◌, length, IfOk};

use crate::course::{Charges, Course, SPEEDS, least_sum};
use crate::picks::{Reached, best_of, moved, shift};
use std::alloc::{AllocError, Global};

/// The three costates around one.
fn around(costate: i32, stride: i32) -> [i32; 3] {
    [
        moved(costate.saturating_add(shift(0, stride))),
        costate,
        moved(costate.saturating_add(shift(2, stride))),
    ]
}

/// What the points up to that before step i are charged at best, for one of its costates, and from which costate of the step before.
fn reach(before: &Reached, exits: &[Charges; 3], entries: &Charges) -> (i128, u8) {
    best_of([
        before.value[0].wrapping_add(least_sum(&exits[0], entries)),
        before.value[1].wrapping_add(least_sum(&exits[1], entries)),
        before.value[2].wrapping_add(least_sum(&exits[2], entries)),
    ])
}

/// One of three costates.
fn chosen(costates: [i32; 3], pick: u8) -> i32 {
    match pick {
        0 => costates[0],
        2 => costates[2],
        _ => costates[1],
    }
}

/// What a step charges its exit speeds at three costates.
fn exits_of(course: &Course<'_>, i: usize, near: [i32; 3]) -> [Charges; 3]
    requires { i < length course.now.rules.steps }
{
    [
        course.exits(i, near[0]),
        course.exits(i, near[1]),
        course.exits(i, near[2]),
    ]
}

/// What the points up to that before step i are charged at best, for each of its three costates.
fn reached_at(
    course: &Course<'_>,
    i: usize,
    last: &Reached,
    exits: &[Charges; 3],
    near: [i32; 3],
) -> Reached
    requires { i < length course.now.rules.steps }
{
    let (low, from_low) = reach(last, exits, &course.entries(i, near[0]));
    let (mid, from_mid) = reach(last, exits, &course.entries(i, near[1]));
    let (high, from_high) = reach(last, exits, &course.entries(i, near[2]));
    Reached {
        value: [low, mid, high],
        from: [from_low, from_mid, from_high],
    }
}

/// What the points before each step are charged at best, for each of its three costates, and the best of the last step's three, with what all
/// points are charged then.
fn forward(
    alloc: Global,
    course: &Course<'_>,
    stride: i32,
    costates: &[i32],
) -> Result<(Vec<Reached>, u8, i128), AllocError>
    requires { length costates.now ≡ length course.now.rules.steps }
    ensures { IfOk result (λ found. length found.0.items ≡ length costates.now) }
{
    let mut all = Vec::new(alloc);
    let mut exits = [[0i128; SPEEDS]; 3];
    let mut last = Reached {
        value: [0; 3],
        from: [1; 3],
    };
    for i in 0..costates.len() {
        let near = around(costates[i], stride);
        last = reached_at(course, i, &last, &exits, near);
        exits = exits_of(course, i, near);
        all.push(last)?;
    }
    let (value, pick) = reach(&last, &exits, &[0i128; SPEEDS]);
    Ok((all, pick, value))
}

/// Takes the best costates, from the last step back.
fn backward(costates: &mut [i32], stride: i32, all: &[Reached], pick: u8)
    requires { length all.now ≡ length costates.old }
{
    let steps = costates.len();
    let mut pick = pick;
    for j in 0..steps {
        let i = steps - 1 - j;
        costates[i] = chosen(around(costates[i], stride), pick);
        pick = all[i].before(pick);
    }
}

/// One round: the best of three costates for each step. What all points are charged then.
pub(crate) fn step_round(
    alloc: Global,
    course: &Course<'_>,
    stride: i32,
    costates: &mut [i32],
) -> Result<i128, AllocError>
    requires { length costates.old ≡ length course.now.rules.steps }
{
    let (all, pick, value) = forward(alloc, course, stride, costates)?;
    backward(costates, stride, all.as_slice(), pick);
    Ok(value)
}
