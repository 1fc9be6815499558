//! The search for the greatest levels that keep every step.
//!
//! It walks forward over the steps and lowers what a step does not allow: first the exit level, by what the entry gives,
//! then the entry level, by what the exit gives. Where it lowered an entry it goes back to the step before. So every step
//! behind it is kept, and nothing was lowered below what other levels that keep every step have there.
ghost use Rattle.std.specs.Prelude.{◌≡◌, ℕ, ◌+◌, ◌-◌, ◌<◌, ◌≤◌, ◌≤ℤ◌, List, length, slice_index, IfSome, IfNone};
ghost use Rattle.std.specs.Bool.{OnTrue, OnFalse};
ghost use Rattle.speed_envelopes.specs.Bounds.{asks, gives, floor};
ghost use Rattle.speed_envelopes.specs.Levels.{IsGreatest, AreFloored, AreLevels, IsBelow, Covers, NoneBelow, Lowers, NoLevel, Tightens};

use crate::bounds::{Bounds, End};

/// The next level to try between `low` and `high`, in a search that began at `most`: twice as far below `most` as the
/// one before while that is above `low`, and else in the middle.
fn probe(low: u16, high: u16, most: u16) -> u16
    requires order { low < high }
    requires begun { high ≤ most }
    ensures above { low < result }
    ensures within { result ≤ high }
{
    let stride = most - high;
    if stride < high - low {
        high - stride
    } else {
        high - (high - low) / 2
    }
}

/// The greatest level from `least` to `most` that asks for no more than is given, or none where there is no such level.
fn greatest_level(
    bounds: &Bounds,
    end: End,
    i: usize,
    given: i64,
    least: u16,
    most: u16,
) -> Option<u16>
    requires step { i < length bounds.now.rules.steps }
    requires order { least ≤ most }
    requires top { most ≤ bounds.now.rules.top }
    ensures { IsGreatest result (λ level. least ≤ level × level ≤ most × asks bounds.now end i level ≤ℤ given) }
{
    bounds.known();
    let mut low = least;
    let mut high = most;
    while low < high {
        let level = probe(low, high, most);
        if bounds.asks(end, i, level) <= given {
            low = level;
        } else {
            high = level - 1;
        }
    }
    if low > least || bounds.asks(end, i, low) <= given {
        Some(low)
    } else {
        None
    }
}

/// Lowers the level at one end of step i to the greatest that the other end allows: whether it had to be lowered, or none
/// where no level down to the floor will do.
fn lower(bounds: &Bounds, end: End, i: usize, levels: &mut [u16]) -> Option<bool>
    requires step { i < length bounds.now.rules.steps }
    requires floored { AreFloored bounds.now levels.old }
    ensures some { IfSome result (Lowers bounds.now end i levels.old levels.new) }
    ensures none { IfNone result (NoLevel bounds.now end i levels.old) }
{
    let _ = bounds.steps();
    let point = end.point(i);
    let given = bounds.gives(end, i, levels[end.opposite(i)]);
    let now = levels[point];
    if bounds.asks(end, i, now) <= given {
        return Some(false);
    }
    let least = bounds.floor(point);
    if now == least {
        return None;
    }
    let Some(level) = greatest_level(bounds, end, i, given, least, now - 1) else {
        return None;
    };
    levels[point] = level;
    Some(true)
}

/// Lowers the levels at both ends of step i: whether the entry had to be lowered, or none where a level would have to be
/// below its floor. Where the entry stays, the step is kept afterwards.
fn tighten(bounds: &Bounds, i: usize, levels: &mut [u16]) -> Option<bool>
    requires step { i < length bounds.now.rules.steps }
    requires floored { AreFloored bounds.now levels.old }
    ensures some { IfSome result (Tightens bounds.now i levels.old levels.new) }
    ensures none { IfNone result ((from : List ℕ) → Covers bounds.now from levels.old → NoneBelow bounds.now from) }
{
    bounds.known();
    let _ = bounds.steps();
    if bounds.keeps(i, levels[i], levels[i + 1]) {
        return Some(false);
    }
    let Some(_) = lower(bounds, End::Exit, i, levels) else {
        return None;
    };
    lower(bounds, End::Entry, i, levels)
}

/// Lowers the levels until each step is kept: whether that can be.
pub(crate) fn settle(bounds: &Bounds, levels: &mut [u16]) -> bool
    requires { AreFloored bounds.now levels.old }
    ensures kept { OnTrue result (AreLevels bounds.now levels.new) }
    ensures below { OnTrue result (IsBelow levels.new levels.old) }
    ensures greatest { OnTrue result (Covers bounds.now levels.old levels.new) }
    ensures none { OnFalse result (NoneBelow bounds.now levels.old) }
{
    let steps = bounds.steps();
    let mut i = 0;
    while i < steps {
        let Some(moved) = tighten(bounds, i, levels) else {
            return false;
        };
        // a lower entry gives less to the entry of the step before
        i = if moved { i.saturating_sub(1) } else { i + 1 };
    }
    true
}

/// Whether no level is below its floor.
pub(crate) fn reaches_floors(bounds: &Bounds, levels: &[u16]) -> bool
    requires count { length levels.now ≡ length bounds.now.rules.steps + 1 }
    requires top { (k : ℕ) → slice_index levels.now k ≤ bounds.now.rules.top }
    ensures floored { OnTrue result (AreFloored bounds.now levels.now) }
    ensures none { OnFalse result (NoneBelow bounds.now levels.now) }
{
    for k in 0..levels.len() {
        if levels[k] < bounds.floor(k) {
            return false;
        }
    }
    true
}
