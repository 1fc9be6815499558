//! What the speed at one end of a step allows at the other.
//!
//! The work of a step is `up - down`, where `up` rises with the exit speed and `down` with the entry speed. So the
//! traction takes the train over the step where `up - traction` at the exit is at most `down` at the entry, and the
//! brakes hold it where `down - brake` at the entry is at most `up` at the exit. All four rise with the speed, since no
//! force does. That makes the search for the greatest drive and that for the least drive one and the same, over levels
//! that are only lowered: the speed itself for the greatest drive, and what it lacks of the top for the least one.
ghost use Rattle.std.specs.Prelude.{◌≡◌, ℕ, ◌+◌, ◌-◌, ◌*◌, ◌<◌, ◌≤◌, ◌↔◌, ◌^◌, ℤ, pos, neg_ℤ, ◌-ℤ◌, ◌≤ℤ◌, length, IsTrue, true};
ghost use Rattle.std.specs.Int.RustNames.{unsigned_abs};
ghost use Rattle.rail_specs.specs.Rules.{step_at, traction_work, brake_work};
ghost use Rattle.rail_specs.specs.Step.{work_up, work_down};
ghost use Rattle.rule_parts.specs.Shaped.{IsShaped};
ghost use Rattle.speed_envelopes.specs.Bounds.{least_speed as floor_speed};

use drive_rules::Rules;
use force_table::SpeedTable;
use rail_specs::Narrow;
use std::marker::Model;

/// Which drive is sought.
#[derive(Clone, Copy)]
pub(crate) enum Side {
    Greatest,
    Least,
}

/// The end of a step whose level the other end bounds.
#[derive(Clone, Copy)]
pub(crate) enum End {
    Exit,
    Entry,
}

impl End {
    ghost use Rattle.speed_envelopes.specs.Levels.{point_at, point_opposite};

    /// The point at this end of step i.
    pub(crate) fn point(self, i: usize) -> usize
        requires { i < 2 ^ 63 }
        ensures { result ≡ point_at self i }
    {
        match self {
            End::Exit => i + 1,
            End::Entry => i,
        }
    }

    /// The point at the other end of step i.
    pub(crate) fn opposite(self, i: usize) -> usize
        requires { i < 2 ^ 63 }
        ensures { result ≡ point_opposite self i }
    {
        match self {
            End::Exit => i,
            End::Entry => i + 1,
        }
    }
}

/// The steps of a run under a narrowing, as bounds of levels.
#[derive(Drop)]
pub(crate) struct Bounds<'a> {
    rules: &'a Rules,
    narrow: &'a Narrow,
    side: Side,
}

impl<'a> Model for Bounds<'a> {
    ghost use Rattle.speed_envelopes.specs.Bounds.{Setting};
    ghost use Rattle.rule_parts.specs.Shaped.{IsShaped};

    ghost Value = { Setting };

    ghost view = { λ b. record { rules = b.rules.now; narrow = b.narrow.now; side = b.side } };

    ghost invariant = { λ b. IsShaped b.rules.now };
}

impl<'a> Bounds<'a> {
    ghost use Rattle.speed_envelopes.specs.Bounds.{Setting, asks, gives, floor, traction_asks, brakes_ask, is_idle, most_work, IsStepDriven, IsLevelPair};

    /// The steps of the rules under the narrowing, for the search of this drive.
    pub(crate) fn new(rules: &'a Rules, narrow: &'a Narrow, side: Side) -> Self
        ensures { result ≡ record { rules = rules.now; narrow = narrow.now; side = side } }
    {
        rules.known();
        Bounds {
            rules,
            narrow,
            side,
        }
    }

    /// What always holds of the rules.
    pub(crate) fn known(&self)
        ensures { IsShaped self.now.rules }
    {
        let _ = &self.side;
    }

    /// The number of steps.
    pub(crate) fn steps(&self) -> usize
        ensures value { result ≡ length self.now.rules.steps }
        ensures few { result ≤ 4000 }
    {
        self.rules.steps()
    }

    /// The part of the work of step i that the exit speed decides.
    fn up(&self, i: usize, speed: u16) -> i64
        requires step { i < length self.now.rules.steps }
        requires speed { speed ≤ self.now.rules.top }
        ensures value { result ≡ work_up (step_at self.now.rules i) speed }
        ensures small { unsigned_abs result ≤ 2 ^ 60 }
    {
        let _ = self.rules.top();
        self.rules.row(i).up(speed) as i64
    }

    /// The part of the work of step i that the entry speed pays.
    fn down(&self, i: usize, speed: u16) -> i64
        requires step { i < length self.now.rules.steps }
        requires speed { speed ≤ self.now.rules.top }
        ensures value { result ≡ pos (work_down (step_at self.now.rules i) speed) }
        ensures small { unsigned_abs result ≤ 2 ^ 60 }
    {
        let _ = self.rules.top();
        self.rules.row(i).down(speed) as i64
    }

    /// Whether step i is without traction.
    fn is_idle(&self, i: usize) -> bool
        ensures { result ≡ is_idle self.now.narrow i }
    {
        self.narrow.idle_from as usize <= i && i < self.narrow.idle_to as usize
    }

    /// The most work that may be done over step i to this exit speed.
    fn most_work(&self, i: usize, speed: u16) -> i64
        requires step { i < length self.now.rules.steps }
        requires speed { speed ≤ self.now.rules.top }
        ensures value { result ≡ pos (most_work self.now.rules self.now.narrow i speed) }
        ensures small { unsigned_abs result ≤ 2 ^ 60 }
    {
        if self.is_idle(i) {
            0
        } else {
            self.rules
                .row(i)
                .force_work(self.rules.traction().at(speed))
        }
    }

    /// The most work that the brakes take over step i from this entry speed.
    fn most_braking(&self, i: usize, speed: u16) -> i64
        requires step { i < length self.now.rules.steps }
        requires speed { speed ≤ self.now.rules.top }
        ensures value { result ≡ pos (brake_work self.now.rules i speed) }
        ensures small { unsigned_abs result ≤ 2 ^ 60 }
    {
        self.rules.row(i).force_work(self.rules.brake().at(speed))
    }

    /// What the exit speed asks of the entry, so that the traction takes the train over step i.
    fn traction_asks(&self, i: usize, speed: u16) -> i64
        requires step { i < length self.now.rules.steps }
        requires speed { speed ≤ self.now.rules.top }
        ensures value { result ≡ traction_asks self.now.rules self.now.narrow i speed }
        ensures small { unsigned_abs result ≤ 2 ^ 61 }
    {
        self.up(i, speed) - self.most_work(i, speed)
    }

    /// What the entry speed asks of the exit, so that the brakes hold the train over step i.
    fn brakes_ask(&self, i: usize, speed: u16) -> i64
        requires step { i < length self.now.rules.steps }
        requires speed { speed ≤ self.now.rules.top }
        ensures value { result ≡ brakes_ask self.now.rules i speed }
        ensures small { unsigned_abs result ≤ 2 ^ 61 }
    {
        self.down(i, speed) - self.most_braking(i, speed)
    }

    /// Whether the levels at the two ends of step i keep its rules.
    pub(crate) fn keeps(&self, i: usize, entry: u16, exit: u16) -> bool
        requires step { i < length self.now.rules.steps }
        requires entry { entry ≤ self.now.rules.top }
        requires exit { exit ≤ self.now.rules.top }
        ensures { IsTrue result ↔ IsLevelPair self.now i entry exit }
    {
        let top = self.rules.top();
        match self.side {
            Side::Greatest => self.keeps_speeds(i, entry, exit),
            Side::Least => self.keeps_speeds(i, top - entry, top - exit),
        }
    }

    /// Whether the traction takes the train over step i from v0 to v1, and the brakes hold it.
    fn keeps_speeds(&self, i: usize, v0: u16, v1: u16) -> bool
        requires step { i < length self.now.rules.steps }
        requires entry { v0 ≤ self.now.rules.top }
        requires exit { v1 ≤ self.now.rules.top }
        ensures { IsTrue result ↔ IsStepDriven self.now.rules self.now.narrow i v0 v1 }
    {
        let up = self.up(i, v1);
        let down = self.down(i, v0);
        is_given(up, self.most_work(i, v1), down) && is_given(down, self.most_braking(i, v0), up)
    }

    /// What a level at this end of step i asks of the other end.
    pub(crate) fn asks(&self, end: End, i: usize, level: u16) -> i64
        requires step { i < length self.now.rules.steps }
        requires level { level ≤ self.now.rules.top }
        ensures { result ≡ asks self.now end i level }
    {
        let top = self.rules.top();
        match self.side {
            Side::Greatest => match end {
                End::Exit => self.traction_asks(i, level),
                End::Entry => self.brakes_ask(i, level),
            },
            Side::Least => match end {
                End::Exit => -self.up(i, top - level),
                End::Entry => -self.down(i, top - level),
            },
        }
    }

    /// What a level at the other end of step i gives to this end.
    pub(crate) fn gives(&self, end: End, i: usize, level: u16) -> i64
        requires step { i < length self.now.rules.steps }
        requires level { level ≤ self.now.rules.top }
        ensures { result ≡ gives self.now end i level }
    {
        let top = self.rules.top();
        match self.side {
            Side::Greatest => match end {
                End::Exit => self.down(i, level),
                End::Entry => self.up(i, level),
            },
            Side::Least => match end {
                End::Exit => -self.brakes_ask(i, top - level),
                End::Entry => -self.traction_asks(i, top - level),
            },
        }
    }

    /// Below which no level at point k is a drive's.
    pub(crate) fn floor(&self, k: usize) -> u16
        requires { k ≤ length self.now.rules.steps }
        ensures { result ≡ floor self.now k }
    {
        match self.side {
            Side::Greatest => least_speed(self.rules, k),
            Side::Least => 0,
        }
    }
}

/// Whether what is asked, less the work that is done, is given.
fn is_given(asked: i64, done: i64, given: i64) -> bool
    requires asked { unsigned_abs asked ≤ 2 ^ 60 }
    requires done { unsigned_abs done ≤ 2 ^ 60 }
    ensures { IsTrue result ↔ ((asked -ℤ done) ≤ℤ given) }
{
    asked - done <= given
}

/// The least speed at point k: the start speed, 0 at a stop, and 1 elsewhere.
pub(crate) fn least_speed(rules: &Rules, k: usize) -> u16
    requires { k ≤ length rules.now.steps }
    ensures { result ≡ floor_speed rules.now k }
{
    if k == 0 {
        rules.start()
    } else if rules.stop(k) {
        0
    } else {
        1
    }
}
