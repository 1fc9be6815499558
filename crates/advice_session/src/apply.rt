//! Events, one after another.

ghost use Rattle.std.specs.Prelude.{◌≡◌, OnOk, OnErr};
ghost use Rattle.advice_session.specs.Faults.{Answers};
ghost use Rattle.advice_session.specs.Folds.{data_after, event_fault, CountsEvent};

use crate::fault::SessionFault;
use crate::session::Session;
use event_file::Event;
use std::sync::ledger::Ledger;
use step_energy::Steps;

impl Session {
    /// Takes an event: it changes the data and the rules with them, or is refused and changes nothing. An event that asks for advice changes
    /// nothing; the advice is that of `rules`. `NoMemory` may come where nothing else does.
    pub fn apply<L: Ledger>(
        &mut self,
        event: &Event,
        steps: &mut Steps<L>,
    ) -> Result<(), SessionFault>
        ensures answer { Answers result (event_fault self.old event.now) }
        ensures changed { OnOk result (self.new.data_is ≡ data_after self.old.data_is event.now) }
        ensures kept { OnErr result (self.new ≡ self.old) }
        ensures counted { CountsEvent result self.old event.now steps.old steps.new }
    {
        match event {
            Event::At {
                place,
                speed,
                clock,
            } => self.at(*place, *speed, *clock, steps),
            Event::Restrict {
                name,
                from,
                to,
                limit,
            } => self.restrict(name.text(), *from, *to, *limit, steps),
            Event::Lift { name } => self.lift(name.text(), steps),
            Event::Latest { place, seconds } => self.latest(*place, *seconds, steps),
            Event::Advise => Ok(()),
        }
    }
}
