//! Events, from the text to their list.

ghost use Rattle.std.specs.Prelude.{◌≡◌, ◌≢◌, ◌++◌, ◌∷◌, [], Ok, Err, IfOk, IfErr, OnOk};
ghost use Rattle.event_file.specs.Events.{events_of, AnswersLine};

use crate::event::{Event, read_event};
use crate::fault::EventFault;
use rail_base::text_lines;
use std::alloc::{AllocError, Global};

/// The events of a text, at most.
const MOST_EVENTS: u32 = 1000;

/// The lines of a text that ask for advice, at most.
const MOST_ADVISES: u32 = 64;

/// Reads line n, which stands before the end and behind so many lines that ask for advice.
fn read_line(alloc: Global, n: u32, advises: u32, line: &[u8]) -> Result<Event, EventFault>
    ensures { AnswersLine result n advises line.now }
{
    let Some(event) = read_event(alloc, line)? else {
        return Err(EventFault::Form(n));
    };
    if n > MOST_EVENTS {
        return Err(EventFault::TooManyEvents(n));
    }
    if matches!(&event, Event::Advise) && advises >= MOST_ADVISES {
        return Err(EventFault::TooManyAdvises(n));
    }
    Ok(event)
}

/// One event more.
fn append(events: &mut Vec<Event>, event: Event) -> Result<(), AllocError>
    ensures { OnOk result (events.new.items ≡ events.old.items ++ event ∷ []) }
{
    events.push(event)?;
    Ok(())
}

/// The events of a text, in order.
///
/// The first line that is not as it should be is the refusal, lines counted from 1: `Form` where it is missing, is not of the form of
/// an event, or stands behind the end; `TooManyEvents` where it is the 1,001st event; `TooManyAdvises` where it asks for advice and is
/// the 65th that does. `NoMemory` may come at any place.
pub fn read_events(alloc: Global, text: &[u8]) -> Result<Vec<Event>, EventFault>
    ensures events { IfOk result (λ events. Ok events.items ≡ events_of text.now) }
    ensures refused { IfErr result (λ e. e ≢ EventFault.NoMemory → Err e ≡ events_of text.now) }
{
    let mut events = Vec::new(alloc);
    let mut advises = 0;
    let mut n = 1;
    let mut lines = text_lines(text);
    while let Some(line) = lines.next() {
        if line == b"end".as_slice() {
            return if lines.next().is_some() {
                Err(EventFault::Form(n + 1))
            } else {
                Ok(events)
            };
        }
        let event = read_line(alloc, n, advises, line)?;
        if matches!(&event, Event::Advise) {
            advises += 1;
        }
        append(&mut events, event)?;
        n += 1;
    }
    Err(EventFault::Form(n))
}
