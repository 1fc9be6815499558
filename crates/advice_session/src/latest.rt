//! The latest time of a call is another one.

ghost use Rattle.std.specs.Prelude.{◌≡◌, ◌<◌, ◌≤◌, false, length, OnOk, OnErr};
ghost use Rattle.line_file.specs.ServiceText.{latest_count};
ghost use Rattle.line_file.specs.Shape.{call_at};
ghost use Rattle.advice_session.specs.Data.{timed, timed_at};
ghost use Rattle.advice_session.specs.Faults.{call_at_place, call_behind, is_too_many, latest_fault, Answers};

use crate::at::MOST_SECONDS;
use crate::fault::SessionFault;
use crate::points::point_behind;
use crate::session::Session;
use line_file::Call;
use std::alloc::AllocError;
use std::sync::ledger::Ledger;
use step_energy::Steps;

/// The latest times after the first call, at most.
const MOST_LATEST: usize = 64;

/// Which of the calls stands at a place.
fn call_at_place(calls: &[Call], place: u32) -> Option<usize>
    ensures { result ≡ call_at_place calls.now place }
{
    calls.iter().position(|c| c.place == place)
}

/// How many calls after the first have a latest time.
fn latest_count(calls: &[Call]) -> usize
    ensures { result ≡ latest_count calls.now }
{
    calls.iter().skip(1).filter(|c| c.latest.is_some()).count()
}

/// Whether a latest time of this call would be one too many.
fn is_too_many(calls: &[Call], j: usize) -> bool
    requires { j < length calls.now }
    ensures { result ≡ is_too_many calls.now j }
{
    calls[j].latest.is_none() && latest_count(calls) >= MOST_LATEST
}

impl Session {
    /// Which call stands at a place behind the train.
    fn call_behind(&self, place: u32) -> Option<usize>
        ensures { result ≡ call_behind self.now.data_is place }
    {
        if self.place < place {
            call_at_place(self.service.calls.items(), place)
        } else {
            None
        }
    }

    /// Sets the latest time of a call behind the train, with its timing point. Want of memory changes nothing.
    fn set_latest(&mut self, j: usize, seconds: u32) -> Result<(), AllocError>
        requires there { j < length self.old.data_is.service.calls }
        requires behind { self.old.data_is.setup.place < (call_at self.old.data_is.service.calls j).place }
        requires free { is_too_many self.old.data_is.service.calls j ≡ false }
        requires small { seconds ≤ 172800 }
        ensures timed { OnOk result (self.new.data_is ≡ timed self.old.data_is j seconds) }
        ensures kept { OnErr result (self.new ≡ self.old) }
    {
        let call = self.service.calls.items()[j];
        self.rules.known();
        let point = point_behind(&self.rules, call.place) - 1;
        let latest = 1000 * (i64::from(seconds) - i64::from(self.clock));
        self.rules.set_latest(point as u32, latest)?;
        let timed = Call {
            place: call.place,
            dwell: call.dwell,
            latest: Some(seconds),
        };
        self.service.calls.set(j, timed);
        Ok(())
    }

    /// The latest time of the call at `place` (m) is `seconds` (s) from now on.
    ///
    /// In this order: `OutOfRange` exactly where the seconds are above 172,800; `Outside` exactly where the place isn't that of a call behind
    /// the train; `TooMany` exactly where that call has no latest time and 64 calls after the first have one. A refusal changes nothing;
    /// `NoMemory` may come where nothing else does. It counts no step.
    pub fn latest<L: Ledger>(
        &mut self,
        place: u32,
        seconds: u32,
        steps: &mut Steps<L>,
    ) -> Result<(), SessionFault>
        ensures answer { Answers result (latest_fault self.old.data_is place seconds) }
        ensures timed { OnOk result (self.new.data_is ≡ timed_at self.old.data_is (call_behind self.old.data_is place) seconds) }
        ensures kept { OnErr result (self.new ≡ self.old) }
        ensures counted { steps.new ≡ steps.old }
    {
        if seconds > MOST_SECONDS {
            return Err(SessionFault::OutOfRange);
        }
        let Some(j) = self.call_behind(place) else {
            return Err(SessionFault::Outside);
        };
        if is_too_many(self.service.calls.items(), j) {
            return Err(SessionFault::TooMany);
        }
        self.set_latest(j, seconds)?;
        Ok(())
    }
}
