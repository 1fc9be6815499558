//! Changes of rules that are in use, made in place.

ghost use Rattle.std.specs.Prelude.{◌≡◌, ℕ, ℤ, ◌<◌, ◌≤◌, pos, ◌≤ℤ◌, length, slice_index, OnOk, OnErr};
ghost use Rattle.std.specs.Int.RustNames.{unsigned_abs};
ghost use Rattle.line_file.specs.Shape.{IsLine};
ghost use Rattle.rule_changes.specs.Advance.{CountsFirst, GoesOnJoined, IsAdvanced, IsNoStopNext, StayInRange};
ghost use Rattle.rule_changes.specs.Limits.{AreStretches, HasLeastLimits, IsLimited, IsOnLine};
ghost use Rattle.rule_changes.specs.Latest.{HasRoom, IsLatestSet, StaysJoined, with_latest, with_latest_at};

use crate::rules::Rules;
use joined_rules::Stretch;
use line_file::Line;
use std::alloc::AllocError;
use std::sync::ledger::Ledger;
use step_energy::Steps;

impl Rules {
    /// Sets each step's limit to the least of the line's sections and of the stretches that meet the train there, whatever the limits
    /// were before, and leaves all else. A stretch meets the train from where its head comes to it until its tail has left it.
    ///
    /// It takes no memory. Its cost is that of the steps, of the sections, and for each stretch of the steps on which it meets the train.
    pub fn set_limits(&mut self, line: &Line, stretches: &[Stretch])
        requires line { IsLine line.now }
        requires stretches { AreStretches stretches.now }
        requires on_line { IsOnLine line.now self.old }
        ensures { IsLimited line.now stretches.now self.old self.new }
    {
        rule_changes::set_limits(&mut self.parts, line, stretches);
    }

    /// Sets the latest time of a point, in ms from the start, or adds it where the point has none, and leaves all else. Want of memory
    /// changes nothing.
    ///
    /// The point is from 1 to the number of steps, and at most 64 points have a latest time afterwards.
    pub fn set_latest(&mut self, point: u32, latest: i64) -> Result<(), AllocError>
        requires after { 1 ≤ point }
        requires there { point ≤ length self.old.steps }
        requires room { length (with_latest self.old.timings point latest) ≤ 64 }
        requires small { unsigned_abs latest ≤ 172800000 }
        ensures set { OnOk result (self.new ≡ with_latest_at self.old point latest) }
        ensures others { OnOk result (IsLatestSet self.old.timings point latest self.new.timings) }
        ensures joined { OnOk result (StaysJoined point latest self.old self.new) }
        ensures refused { OnErr result (self.new ≡ self.old) }
    {
        rule_changes::set_latest(&mut self.parts, point, latest)
    }

    /// What holds of joined rules: they have room for the latest time of a call wherever at most 64 calls after the first have one then.
    pub fn known_room(&self)
        ensures { (point : ℕ) (latest : ℤ) → HasRoom self.now point latest }
    {
        rule_changes::room_for_latest();
    }

    /// Makes a place the start, and a speed, in cm/s, the start speed, so many ms later than the start before. The grid is the place and the
    /// old places above it. The start is neither a stop nor a timing point, and its dwell is 0. All latest times fall by so many ms, and each
    /// step's limit is the least of the line's sections and of the stretches that meet the train there. All else stays: the rows, stops,
    /// dwells and timing points behind the place, the train's top speed and its tables.
    ///
    /// Where the place isn't one of the grid's, the row of the step in which it lies is made anew, with the length that is left, and one step
    /// is counted. That row is never refused: its length falls, and so does its drag. It takes no memory, and its cost is that of the steps
    /// and of `set_limits`.
    ///
    /// The place is from that of point 0 to below that of the last point. Where the speed is 0, the next point isn't a stop.
    ///
    /// Where the rules were those of a train and a service from a setup on, they are those from the new place, speed and clock on.
    pub fn advance<L: Ledger>(
        &mut self,
        line: &Line,
        stretches: &[Stretch],
        place: u32,
        speed: u16,
        later: i64,
        steps: &mut Steps<L>,
    )
        requires line { IsLine line.now }
        requires stretches { AreStretches stretches.now }
        requires on_line { IsOnLine line.now self.old }
        requires begun { slice_index self.old.places 0 ≤ place }
        requires ends { place < slice_index self.old.places (length self.old.steps) }
        requires speed { speed ≤ 12000 }
        requires moves { IsNoStopNext self.old place speed }
        requires later { (pos 0 ≤ℤ later) × (later ≤ℤ pos 172800000) }
        requires in_range { StayInRange self.old.timings later }
        ensures advanced { IsAdvanced self.old place speed later self.new }
        ensures limited { HasLeastLimits line.now stretches.now self.new }
        ensures joined { GoesOnJoined line.now stretches.now place speed later self.old self.new }
        ensures counted { CountsFirst self.old.places place steps.old steps.new }
    {
        rule_changes::advance_to(&mut self.parts, line, stretches, place, speed, later, steps);
    }
}
