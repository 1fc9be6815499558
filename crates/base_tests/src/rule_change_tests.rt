//! Rules that are changed in place.
ghost use Rattle.std.specs.Prelude.{◌≡◌, ◌<◌, ◌≤◌, pos, ◌≤ℤ◌, true, length};
ghost use Rattle.std.specs.Int.RustNames.{unsigned_abs};
ghost use Rattle.line_file.specs.Shape.{IsLine};
ghost use Rattle.rule_changes.specs.Advance.{StayInRange};
ghost use Rattle.rule_changes.specs.Limits.{IsOnLine};

use crate::small_rules::{LINE, joined_rules};
use drive_rules::{Rules, Stretch};
use line_file::{Line, read_line};
use rail_specs::Timing;
use std::marker::Brand;
use std::sync::ledger::{Blank, Ledger};
use step_energy::Steps;

/// Whether each point of the rules is on a line.
fn is_on_line(rules: &Rules, line: &Line) -> bool
    requires { 0 < length line.now.limits }
    ensures { result ≡ true → IsOnLine line.now rules.now }
{
    rules.known();
    let sections = line.limits.items();
    let (from, to) = (sections[0].from, sections[sections.len() - 1].to);
    for k in 0..rules.points() {
        if rules.place(k) < from || to < rules.place(k) {
            return false;
        }
    }
    true
}

/// The limits of the first three of four steps, once they are set with one stretch.
fn limits_with(rules: &mut Rules, line: &Line, stretch: Stretch) -> Option<(u16, u16, u16)>
    requires line { IsLine line.now }
    requires four { length rules.old.steps ≡ 4 }
    ensures four { length rules.new.steps ≡ 4 }
{
    let is_stretch = stretch.from < stretch.to && 1 <= stretch.limit && stretch.limit <= 12_000;
    if !is_stretch || !is_on_line(rules, line) {
        return None;
    }
    rules.set_limits(line, &[stretch]);
    Some((rules.limit(0), rules.limit(1), rules.limit(2)))
}

#[test]
fn limits_are_those_of_the_last_stretch(rt: HostRuntime) {
    let Some(mut rules) = joined_rules(rt.alloc()) else {
        panic!(rt; "the rules cannot be made");
    };
    let Ok(line) = read_line(rt.alloc(), LINE) else {
        panic!(rt; "the line cannot be read");
    };
    assert!(rt; rules.steps() == 4);
    // The train is 50 m long: on the second step its tail has yet to leave a stretch that ends at 51, and has left one that ends at 50.
    for (from, to, wanted) in [
        (30, 51, (300, 300, 1000)),
        (30, 50, (300, 1000, 1000)),
        (100, 200, (1000, 300, 300)),
    ] {
        let stretch = Stretch {
            from,
            to,
            limit: 300,
        };
        let limits = limits_with(&mut rules, &line, stretch);
        assert!(rt; limits == Some(wanted), "from {from} to {to}");
    }
}

/// Whether the latest time of a point could be set, where few points have one.
fn can_set(rules: &mut Rules, point: u32, latest: i64) -> bool
    requires after { 1 ≤ point }
    requires there { point ≤ length rules.old.steps }
    requires small { unsigned_abs latest ≤ 172800000 }
    ensures { length rules.new.steps ≡ length rules.old.steps }
{
    let count = rules.timings().len();
    if count > 31 {
        return false;
    }
    rules.set_latest(point, latest).is_ok()
}

#[test]
fn a_latest_time_is_added_and_set(rt: HostRuntime) {
    let Some(mut rules) = joined_rules(rt.alloc()) else {
        panic!(rt; "the rules cannot be made");
    };
    assert!(rt; rules.steps() == 4);
    let is_added = can_set(&mut rules, 1, 40_000);
    let is_set = can_set(&mut rules, 1, -30_000);
    assert!(rt; is_added && is_set);
    let timings = rules.timings();
    let (Some(first), Some(last)) = (timings.first(), timings.last()) else {
        panic!(rt; "there is no timing point");
    };
    assert!(rt; timings.len() == 2);
    assert!(rt; (first.point, first.latest) == (1, -30_000));
    assert!(rt; (last.point, last.latest) == (4, 130_000));
}

/// Whether no latest time falls too low where all fall by so many ms.
fn stay_in_range(timings: &[Timing], later: i64) -> bool
    requires { (pos 0 ≤ℤ later) × (later ≤ℤ pos 172800000) }
    ensures { result ≡ true → StayInRange timings.now later }
{
    for timing in timings {
        if timing.latest < later - 172_800_000 {
            return false;
        }
    }
    true
}

/// Whether the train can go on at 900 cm/s from a place of the rules and of the line, so many ms later. Then it does.
fn can_advance_with<L: Ledger>(
    rules: &mut Rules,
    line: &Line,
    place: u32,
    later: i64,
    blank: Blank,
) -> bool
    requires line { IsLine line.now }
    requires later { (pos 0 ≤ℤ later) × (later ≤ℤ pos 172800000) }
    requires name { blank.name ≡ L.name }
    requires parts { blank.parts ≡ L.parts }
    requires some { 0 < L.parts }
{
    let is_within = rules.place(0) <= place && place < rules.place(rules.steps());
    if !is_within || !is_on_line(rules, line) || !stay_in_range(rules.timings(), later) {
        return false;
    }
    let mut steps = Steps::<L>::new(blank);
    rules.advance(line, &[], place, 900, later, &mut steps);
    true
}

fn can_advance(rules: &mut Rules, line: &Line, place: u32, later: i64) -> bool
    requires line { IsLine line.now }
    requires later { (pos 0 ≤ℤ later) × (later ≤ℤ pos 172800000) }
{
    can_advance_with::<Brand>(rules, line, place, later, Blank::new(1))
}

#[test]
fn a_train_goes_on_from_later_places(rt: HostRuntime) {
    let Some(mut rules) = joined_rules(rt.alloc()) else {
        panic!(rt; "the rules cannot be made");
    };
    let Ok(line) = read_line(rt.alloc(), LINE) else {
        panic!(rt; "the line cannot be read");
    };
    // Between two points, at a point with a dwell, behind it, and between the last two: the steps that are left, the length of the first of
    // them, and the latest time at the end.
    for (place, steps, metres, latest) in [
        (50, 4, 50, 120_000),
        (200, 2, 100, 110_000),
        (230, 2, 70, 100_000),
        (330, 1, 70, 90_000),
    ] {
        assert!(rt; can_advance(&mut rules, &line, place, 10_000));
        assert!(rt; (rules.place(0), rules.start(), rules.steps()) == (place, 900, steps));
        assert!(rt; (rules.row(0).metres(), rules.limit(0)) == (metres, 1000));
        assert!(rt; (rules.stop(0), rules.dwell(0)) == (false, 0));
        let Some(last) = rules.timings().last() else {
            panic!(rt; "there is no timing point");
        };
        assert!(rt; (last.point as usize, last.latest) == (steps, latest));
    }
}
