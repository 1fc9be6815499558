//! The train comes to another place.

ghost use Rattle.std.specs.Prelude.{◌≡◌, OnOk, OnErr};
ghost use Rattle.rule_changes.specs.Advance.{CountsFirst};
ghost use Rattle.advice_session.specs.Data.{moved};
ghost use Rattle.advice_session.specs.Faults.{at_fault, exactly};

use crate::fault::SessionFault;
use crate::points::is_stop_next;
use crate::session::Session;
use std::sync::ledger::Ledger;
use step_energy::Steps;

/// A speed of an event, cm/s, at most.
const MOST_SPEED: u32 = 12_000;

/// A clock or a latest time of an event, s, at most.
pub(crate) const MOST_SECONDS: u32 = 172_800;

impl Session {
    /// Why the train can't be there.
    fn at_fault(&self, place: u32, speed: u32, clock: u32) -> Option<SessionFault>
        ensures { result ≡ at_fault self.now place speed clock }
    {
        let calls = self.service.calls.items();
        if speed > MOST_SPEED || clock > MOST_SECONDS {
            Some(SessionFault::OutOfRange)
        } else if calls[calls.len() - 1].place <= place {
            Some(SessionFault::Outside)
        } else if place < self.place {
            Some(SessionFault::Behind)
        } else if clock < self.clock {
            Some(SessionFault::ClockBack)
        } else if speed == 0 && is_stop_next(&self.rules, place) {
            Some(SessionFault::StopsTooClose)
        } else {
            None
        }
    }

    /// The train is at `place` (m) with `speed` (cm/s) at `clock` (s); at a stop that is the moment of leaving.
    ///
    /// In this order: `OutOfRange` exactly where the speed is above 12,000 or the clock above 172,800; `Outside` exactly where the place isn't
    /// below the last call's; `Behind` exactly where it is below the present place; `ClockBack` exactly where the clock is below the present
    /// clock; `StopsTooClose` exactly where the speed is 0 and the next grid point is a stop. A refusal changes nothing. It takes no memory.
    /// It counts one step where it isn't refused and the present grid doesn't have the place, and none otherwise.
    pub fn at<L: Ledger>(
        &mut self,
        place: u32,
        speed: u32,
        clock: u32,
        steps: &mut Steps<L>,
    ) -> Result<(), SessionFault>
        ensures answer { result ≡ exactly (at_fault self.old place speed clock) }
        ensures moved { OnOk result (self.new.data_is ≡ moved self.old.data_is place speed clock) }
        ensures counted { OnOk result (CountsFirst self.old.rules_are.places place steps.old steps.new) }
        ensures kept { OnErr result (self.new ≡ self.old) }
        ensures uncounted { OnErr result (steps.new ≡ steps.old) }
    {
        if let Some(fault) = self.at_fault(place, speed, clock) {
            return Err(fault);
        }
        let speed = speed as u16;
        let later = 1000 * i64::from(clock - self.clock);
        self.rules
            .advance(&self.line, &self.stretches, place, speed, later, steps);
        self.place = place;
        self.speed = speed;
        self.clock = clock;
        Ok(())
    }
}
