//! The rules of a train that has come further: the place, the rows, the points and the latest times.

ghost use Rattle.std.specs.Prelude.{◌≡◌, ℕ, ◌+◌, ◌-◌, ◌<◌, ◌≤◌, pos, ◌≤ℤ◌, ◌∷◌, drop, map, length, slice_index, slice_index_or};
ghost use Rattle.std.specs.Int.RustNames.{unsigned_abs};
ghost use Rattle.rail_specs.specs.Rules.{no_timing};
ghost use Rattle.line_file.specs.Shape.{IsLine};
ghost use Rattle.rule_parts.specs.Shaped.{rules_of, IsShaped, Rises};
ghost use Rattle.rule_changes.specs.Advance.{IsAdvanced, IsLastAt, IsNoStopNext, ArePassed, AreTimingsFrom, CountsFirst, StayInRange, shortened, timing_from, GoesOnJoined};
ghost use Rattle.rule_changes.specs.Limits.{AreStretches, HasLeastLimits, IsOnLine};

use crate::limits::set_limits;
use joined_rules::Stretch;
use line_file::Line;
use rail_specs::{StepNumbers, Timing};
use rule_parts::Parts;
use std::sync::ledger::Ledger;
use step_energy::{StepRow, Steps};

/// The last point whose place is at most this one.
fn last_at(places: &[u32], place: u32) -> usize
    requires some { 0 < length places.now }
    requires begun { slice_index places.now 0 ≤ place }
    requires ends { place < slice_index places.now (length places.now - 1) }
    ensures { IsLastAt places.now place result }
{
    let mut k = 0;
    while places[k + 1] <= place {
        k += 1;
    }
    k
}

/// The row of what is left of a step, so many metres; where that is the whole step, its row as it is, and else a row that is made anew.
fn row_left<L: Ledger>(row: &StepRow, metres: u16, steps: &mut Steps<L>) -> StepRow
    requires some { 1 ≤ metres }
    requires within { metres ≤ row.now.metres }
    ensures value { result ≡ shortened row.now metres }
    ensures kept { metres ≡ row.now.metres → steps.new ≡ steps.old }
    ensures made { metres < row.now.metres → steps.new ≡ steps.old + 1 }
{
    row.laws();
    if metres == row.metres() {
        return *row;
    }
    let left = StepNumbers {
        metres,
        ..row.numbers()
    };
    StepRow::make(left, steps).unwrap()
}

/// Takes out the first items, so many.
fn drop_front<T: Copy>(items: &mut Vec<T>, count: usize)
    requires { count ≤ length items.old.items }
    ensures { items.new.items ≡ drop count items.old.items }
{
    items.drain(..count);
}

/// Takes out the items before one, and puts another in its place.
fn begin_at<T: Copy>(items: &mut Vec<T>, index: usize, first: T)
    requires { index < length items.old.items }
    ensures { items.new.items ≡ first ∷ drop (index + 1) items.old.items }
{
    drop_front(items, index);
    items[0] = first;
}

/// How many timing points aren't behind point k.
fn passed_at(timings: &[Timing], k: u32) -> usize
    requires { Rises timings.now }
    ensures { ArePassed timings.now k result }
{
    let mut count = 0;
    while count < timings.len() && timings[count].point <= k {
        count += 1;
    }
    count
}

/// Counts the timing points from point k on, and their latest times from so many ms later on.
fn count_from(timings: &mut Vec<Timing>, k: u32, later: i64)
    requires ahead { (h : ℕ) → h < length timings.old.items → k ≤ (slice_index_or timings.old.items h no_timing).point }
    requires small { (h : ℕ) → h < length timings.old.items → unsigned_abs (slice_index_or timings.old.items h no_timing).latest ≤ 172800000 }
    requires later { unsigned_abs later ≤ 172800000 }
    ensures { timings.new.items ≡ map (timing_from k later) timings.old.items }
{
    for timing in timings.iter_mut() {
        timing.point -= k;
        timing.latest -= later;
    }
}

/// Takes out the timing points that aren't behind point k, and counts the others from there on, so many ms later.
fn leave_behind(timings: &mut Vec<Timing>, k: u32, later: i64)
    requires rising { Rises timings.old.items }
    requires small { (h : ℕ) → h < length timings.old.items → unsigned_abs (slice_index_or timings.old.items h no_timing).latest ≤ 172800000 }
    requires later { unsigned_abs later ≤ 172800000 }
    ensures { AreTimingsFrom timings.old.items k later timings.new.items }
{
    let passed = passed_at(timings, k);
    drop_front(timings, passed);
    count_from(timings, k, later);
}

/// Makes a place the start, and a speed the start speed, so many ms later, and leaves all else but the limits, of which it keeps those of
/// the steps that are left. It takes no memory.
///
/// Where the place isn't one of the grid's, the row of the step in which it lies is made anew, with the length that is left, and counted;
/// its drag is small since its length falls.
fn advance_places<L: Ledger>(
    parts: &mut Parts,
    place: u32,
    speed: u16,
    later: i64,
    steps: &mut Steps<L>,
)
    requires shaped { IsShaped (rules_of parts.old) }
    requires begun { slice_index parts.old.places.items 0 ≤ place }
    requires ends { place < slice_index parts.old.places.items (length parts.old.rows.items) }
    requires speed { speed ≤ 12000 }
    requires moves { IsNoStopNext (rules_of parts.old) place speed }
    requires later { (pos 0 ≤ℤ later) × (later ≤ℤ pos 172800000) }
    requires in_range { StayInRange parts.old.timings.items later }
    ensures advanced { IsAdvanced (rules_of parts.old) place speed later (rules_of parts.new) }
    ensures shaped { IsShaped (rules_of parts.new) }
    ensures counted { CountsFirst parts.old.places.items place steps.old steps.new }
{
    let last = last_at(&parts.places, place);
    let metres = (parts.places[last + 1] - place) as u16;
    let first = row_left(&parts.rows[last], metres, steps);
    begin_at(&mut parts.rows, last, first);
    drop_front(&mut parts.limits, last);
    begin_at(&mut parts.places, last, place);
    begin_at(&mut parts.stops, last, false);
    begin_at(&mut parts.dwells, last, 0);
    leave_behind(&mut parts.timings, last as u32, later);
    parts.start = speed;
}

/// Makes a place the start, and a speed the start speed, so many ms later. The grid is the place and the old places above it. At the start
/// there is neither a stop nor a dwell nor a latest time; all latest times fall by so many ms, and what lies behind the place stays. Each
/// step's limit is the least of the line's sections and of the stretches that meet the train there. It takes no memory.
///
/// Where the place isn't one of the grid's, the row of the step in which it lies is made anew, with the length that is left, and counted;
/// its drag is small since its length falls.
pub fn advance_to<L: Ledger>(
    parts: &mut Parts,
    line: &Line,
    stretches: &[Stretch],
    place: u32,
    speed: u16,
    later: i64,
    steps: &mut Steps<L>,
)
    requires shaped { IsShaped (rules_of parts.old) }
    requires line { IsLine line.now }
    requires stretches { AreStretches stretches.now }
    requires on_line { IsOnLine line.now (rules_of parts.old) }
    requires begun { slice_index parts.old.places.items 0 ≤ place }
    requires ends { place < slice_index parts.old.places.items (length parts.old.rows.items) }
    requires speed { speed ≤ 12000 }
    requires moves { IsNoStopNext (rules_of parts.old) place speed }
    requires later { (pos 0 ≤ℤ later) × (later ≤ℤ pos 172800000) }
    requires in_range { StayInRange parts.old.timings.items later }
    ensures advanced { IsAdvanced (rules_of parts.old) place speed later (rules_of parts.new) }
    ensures limited { HasLeastLimits line.now stretches.now (rules_of parts.new) }
    ensures joined { GoesOnJoined line.now stretches.now place speed later (rules_of parts.old) (rules_of parts.new) }
    ensures shaped { IsShaped (rules_of parts.new) }
    ensures counted { CountsFirst parts.old.places.items place steps.old steps.new }
{
    advance_places(parts, place, speed, later, steps);
    set_limits(parts, line, stretches);
}
