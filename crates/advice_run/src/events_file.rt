//! The file of a session's events.

ghost use Rattle.std.specs.Prelude.{◌≡◌, ◌≢◌, ◌++◌, ℕ, List, [], pos, IfOk};
ghost use Rattle.rail_base.specs.Texts.{spaced};
ghost use Rattle.advice_run.specs.Session.{event_fault_words};

use command_files::FileRole;
use event_file::{Event, EventFault, read_events};
use rail_base::put_spaced;
use std::alloc::{AllocError, Global};
use std::marker::Model;
use std::sync::ledger::Ledger;
use step_energy::Steps;

/// The bytes of a file of events, at most.
const MOST_BYTES: usize = 1_048_576;

/// The events of a session, which contracts see as their list.
#[derive(Drop)]
pub struct EventList {
    events: Vec<Event>,
}

impl Model for EventList {
    ghost use Rattle.std.specs.Prelude.{List};
    ghost use Rattle.event_file.specs.declared.event.Event.{Event as EventData};

    ghost Value = { List EventData };

    ghost view = { λ e. e.events.items };
}

impl EventList {
    /// The events, in order.
    pub fn items(&self) -> &[Event]
        ensures { result.now ≡ self.now }
    {
        self.events.as_slice()
    }
}

/// A word and a number.
fn numbered(alloc: Global, word: &[u8], number: u32) -> Result<Vec<u8>, AllocError>
    ensures { IfOk result (λ text. text.items ≡ word.now ++ spaced (pos number)) }
{
    let mut text = Vec::from_slice(alloc, word)?;
    put_spaced(alloc, &mut text, number as i128)?;
    Ok(text)
}

/// The words of a fault of the events. The only error is want of memory, which the fault may itself be.
fn fault_words(alloc: Global, fault: EventFault) -> Result<Vec<u8>, AllocError>
    ensures words { IfOk result (λ text. text.items ≡ event_fault_words fault) }
    ensures sound { IfOk result (λ _. fault ≢ EventFault.NoMemory) }
{
    match fault {
        EventFault::Form(line) => numbered(alloc, b"form", line),
        EventFault::TooManyEvents(line) => numbered(alloc, b"too-many-events", line),
        EventFault::TooManyAdvises(line) => numbered(alloc, b"too-many-advises", line),
        EventFault::NoMemory => Err(AllocError),
    }
}

/// A file of events.
#[derive(Clone, Copy)]
pub struct EventsFile;

impl FileRole for EventsFile {
    ghost use Rattle.std.specs.Prelude.{⊤};
    ghost use Rattle.event_file.specs.declared.fault.EventFault.TheVariants.{NoMemory};
    ghost use Rattle.advice_run.specs.Session.{events_kind};

    type Said = EventList;

    type Fault = EventFault;

    ghost kind = { events_kind };

    ghost no_memory = { NoMemory };

    ghost shape = { λ _. ⊤ };

    ghost steps_of = { λ _. 0 };

    fn role() -> &'static [u8] {
        b"events"
    }

    fn most() -> usize {
        MOST_BYTES
    }

    fn read<L: Ledger>(
        alloc: Global,
        text: &[u8],
        _steps: &mut Steps<L>,
    ) -> Result<EventList, EventFault> {
        let events = read_events(alloc, text)?;
        Ok(EventList { events })
    }

    fn words(alloc: Global, fault: EventFault) -> Result<Vec<u8>, AllocError> {
        fault_words(alloc, fault)
    }
}
