//! How a drive is improved by what boxes offer.
ghost use Rattle.std.specs.Prelude.{◌≡◌, ◌≤◌, ◌+◌, ◌++◌, ◌≤ℤ◌, [], IfOk, OnOk, OnErr, length, map, filter, not, EachIndex};
ghost use Rattle.std.specs.List.{AllByRecursion, slice_index_or};
ghost use Rattle.rail_specs.specs.Rules.{IsDrive};
ghost use Rattle.rail_specs.specs.Cost.{cost_of};
ghost use Rattle.proposers.specs.States.{AtMost, Improves, IsOnTimeDrive, Takes, is_silent, no_state, state};

use crate::proposer::Proposer;
use drive_rules::{Drive, Judged, Rules};
use rail_base::StepCost;
use std::alloc::{AllocError, Global};

/// Whether nothing was taken of a box since it last began.
fn is_silent_box(one: &Box<dyn Proposer>) -> bool
    ensures { result ≡ is_silent (state (offers one.now) (takes one.now) (begins one.now)) }
{
    one.taken() == 0
}

/// Drops the boxes of which nothing was taken since they last began. It takes no memory.
pub fn drop_silent(boxes: &mut Vec<Box<dyn Proposer>>)
    ensures { map (λ b. state (offers b) (takes b) (begins b)) boxes.new.items ≡ filter (λ s. not (is_silent s)) (map (λ b. state (offers b) (takes b) (begins b)) boxes.old.items) }
{
    boxes.retain(
        |one: &Box<dyn Proposer>| -> bool
            ensures { result ≡ not (is_silent (state (offers one.entry.now) (takes one.entry.now) (begins one.entry.now))) }
        { !is_silent_box(one) },
    );
}

/// What a drive on time costs.
fn cost_of_kept<C: StepCost>(rules: &Rules, cost: &C, drive: &Drive) -> i128
    requires { IsOnTimeDrive rules.now drive.now }
    ensures { result ≡ cost_of (C.cost cost.now) rules.now drive.now }
{
    match rules.judge(drive.speeds(), cost) {
        Judged::Kept { cost } => cost,
        Judged::Broken(..) => unreachable!(),
    }
}

/// Takes an offer for the best drive, where it is a drive on time that costs less than `least`, which the best drive costs: what the best
/// drive costs from now on.
fn keep_cheaper<C: StepCost>(
    rules: &Rules,
    cost: &C,
    offer: Drive,
    best: &mut Drive,
    least: i128,
) -> i128
    requires kept { IsOnTimeDrive rules.now best.old }
    requires least { least ≡ cost_of (C.cost cost.now) rules.now best.old }
    ensures kept { IsOnTimeDrive rules.now best.new }
    ensures least { result ≡ cost_of (C.cost cost.now) rules.now best.new }
    ensures no_worse { cost_of (C.cost cost.now) rules.now best.new ≤ℤ cost_of (C.cost cost.now) rules.now best.old }
    ensures beats { AtMost (C.cost cost.now) rules.now best.new offer }
{
    match rules.judge(offer.speeds(), cost) {
        Judged::Kept { cost } if cost < least => {
            *best = offer;
            cost
        }
        _ => least,
    }
}

/// The next offer of a box.
fn next_offer(alloc: Global, proposer: &mut dyn Proposer) -> Result<Option<Drive>, AllocError>
    requires { length (offers proposer.old) + length (takes proposer.old) ≤ 4096 }
    ensures taken { IfOk result (λ d. Takes d (state (offers proposer.old) (takes proposer.old) (begins proposer.old)) (state (offers proposer.new) (takes proposer.new) (begins proposer.new))) }
    ensures refused { OnErr result (state (offers proposer.new) (takes proposer.new) (begins proposer.new) ≡ state (offers proposer.old) (takes proposer.old) (begins proposer.old)) }
{
    proposer.next(alloc)
}

/// Asks a box for all that it still offers, and gives how many that were. The best drive, which must be on time, becomes the cheapest of
/// itself and of the offers that are drives on time.
///
/// `AllocError` is want of memory: the best drive is then on time too, and no dearer than before.
pub fn ask_all<C: StepCost>(
    alloc: Global,
    proposer: &mut dyn Proposer,
    rules: &Rules,
    cost: &C,
    best: &mut Drive,
) -> Result<u32, AllocError>
    requires kept { IsOnTimeDrive rules.now best.old }
    requires room { length (offers proposer.old) + length (takes proposer.old) ≤ 4096 }
    ensures counted { IfOk result (λ n. n ≡ length (offers proposer.old)) }
    ensures asked { OnOk result (state (offers proposer.new) (takes proposer.new) (begins proposer.new) ≡ state [] (takes proposer.old ++ offers proposer.old) (begins proposer.old)) }
    ensures kept { IsOnTimeDrive rules.now best.new }
    ensures no_worse { cost_of (C.cost cost.now) rules.now best.new ≤ℤ cost_of (C.cost cost.now) rules.now best.old }
    ensures beats { OnOk result (AllByRecursion (AtMost (C.cost cost.now) rules.now best.new) (offers proposer.old)) }
    ensures begins { begins proposer.new ≡ begins proposer.old }
{
    let mut least = cost_of_kept(rules, cost, best);
    let mut count = 0;
    while let Some(offer) = next_offer(alloc, proposer)? {
        count += 1;
        least = keep_cheaper(rules, cost, offer, best, least);
    }
    Ok(count)
}

/// Begins a box with the best drive, and asks it for all that it offers.
fn begin_and_ask<C: StepCost>(
    alloc: Global,
    one: &mut Box<dyn Proposer>,
    rules: &Rules,
    cost: &C,
    best: &mut Drive,
) -> Result<(), AllocError>
    requires { IsOnTimeDrive rules.now best.old }
    ensures improves { OnOk result (Improves (C.cost cost.now) rules.now best.new (state (offers one.old) (takes one.old) (begins one.old)) (state (offers one.new) (takes one.new) (begins one.new))) }
    ensures kept { IsOnTimeDrive rules.now best.new }
    ensures no_worse { cost_of (C.cost cost.now) rules.now best.new ≤ℤ cost_of (C.cost cost.now) rules.now best.old }
{
    one.begin(alloc, rules, best)?;
    ask_all(alloc, &mut **one, rules, cost, best)?;
    Ok(())
}

/// Begins each box in order with the best drive so far, which must be on time, and asks it for all that it offers. The best drive then
/// costs at most each offer that was taken and is a drive on time.
///
/// `AllocError` is want of memory: some boxes may then have been begun and asked, and the best drive is on time and no dearer than
/// before.
pub fn improve<C: StepCost>(
    alloc: Global,
    boxes: &mut Vec<Box<dyn Proposer>>,
    rules: &Rules,
    cost: &C,
    best: &mut Drive,
) -> Result<(), AllocError>
    requires { IsOnTimeDrive rules.now best.old }
    ensures improves { OnOk result (EachIndex boxes.new.items (λ k. Improves (C.cost cost.now) rules.now best.new
        (slice_index_or (map (λ b. state (offers b) (takes b) (begins b)) boxes.old.items) k no_state)
        (slice_index_or (map (λ b. state (offers b) (takes b) (begins b)) boxes.new.items) k no_state))) }
    ensures len { length boxes.new.items ≡ length boxes.old.items }
    ensures kept { IsOnTimeDrive rules.now best.new }
    ensures no_worse { cost_of (C.cost cost.now) rules.now best.new ≤ℤ cost_of (C.cost cost.now) rules.now best.old }
{
    for i in 0..boxes.len() {
        begin_and_ask(alloc, &mut boxes[i], rules, cost, best)?;
    }
    Ok(())
}
