//! What a line of events says.

ghost use Rattle.std.specs.Prelude.{◌≡◌, Some, None, drop, IfOk, MatchOption};
ghost use Rattle.event_file.specs.Events.{at_in, event_on, latest_in, lift_in, name_in, restrict_in};

use crate::counts::read_counts;
use crate::name::{Name, is_name};
use rail_base::Fields;
use std::alloc::{AllocError, Global};

/// What happens in a session, or is asked of it.
#[derive(Drop)]
pub enum Event {
    /// The train is at `place` (m) with `speed` (cm/s) at `clock` (s); at a stop that is the moment of leaving.
    At {
        place: u32,
        speed: u32,
        clock: u32,
    },
    /// A limit (cm/s) stands from `from` to `to` (m), under this name.
    Restrict {
        name: Name,
        from: u32,
        to: u32,
        limit: u32,
    },
    /// The restriction of this name is lifted.
    Lift {
        name: Name,
    },
    /// The latest time of the call at `place` (m) is `seconds` from now on.
    Latest {
        place: u32,
        seconds: u32,
    },
    /// Advice is asked for.
    Advise,
}

/// The event `at` of these fields.
fn read_at(fields: Fields<'_>) -> Option<Event>
    ensures { result ≡ at_in fields.entry }
{
    let mut counts = [0u32; 3];
    if !read_counts(fields, &mut counts) {
        return None;
    }
    let [place, speed, clock] = counts;
    Some(Event::At {
        place,
        speed,
        clock,
    })
}

/// The event `latest` of these fields.
fn read_latest(fields: Fields<'_>) -> Option<Event>
    ensures { result ≡ latest_in fields.entry }
{
    let mut counts = [0u32; 2];
    if !read_counts(fields, &mut counts) {
        return None;
    }
    let [place, seconds] = counts;
    Some(Event::Latest { place, seconds })
}

/// The text of the next field, where it is a name.
fn next_name<'a>(fields: &mut Fields<'a>) -> Option<&'a str>
    ensures name { MatchOption result (name_in fields.old ≡ None) (λ text. name_in fields.old ≡ Some text.now) }
    ensures rest { fields.new ≡ drop 1 fields.old }
{
    let field = fields.next()?;
    if !is_name(field) {
        return None;
    }
    match std::str::from_utf8(field) {
        Ok(text) => Some(text),
        Err(_) => None,
    }
}

/// The event `lift` of these fields.
fn read_lift(alloc: Global, mut fields: Fields<'_>) -> Result<Option<Event>, AllocError>
    ensures { IfOk result (λ event. event ≡ lift_in fields.entry) }
{
    let Some(text) = next_name(&mut fields) else {
        return Ok(None);
    };
    if fields.next().is_some() {
        return Ok(None);
    }
    let name = Name::make(alloc, text)?;
    Ok(Some(Event::Lift { name }))
}

/// The event `restrict` of these fields.
fn read_restrict(alloc: Global, mut fields: Fields<'_>) -> Result<Option<Event>, AllocError>
    ensures { IfOk result (λ event. event ≡ restrict_in fields.entry) }
{
    let Some(text) = next_name(&mut fields) else {
        return Ok(None);
    };
    let mut counts = [0u32; 3];
    if !read_counts(fields, &mut counts) {
        return Ok(None);
    }
    let [from, to, limit] = counts;
    let name = Name::make(alloc, text)?;
    Ok(Some(Event::Restrict {
        name,
        from,
        to,
        limit,
    }))
}

/// The event that a line says, where it is of the form of one.
pub(crate) fn read_event(alloc: Global, line: &[u8]) -> Result<Option<Event>, AllocError>
    ensures { IfOk result (λ event. event ≡ event_on line.now) }
{
    let mut fields = Fields::new(line);
    let Some(word) = fields.next() else {
        return Ok(None);
    };
    if word == b"at".as_slice() {
        Ok(read_at(fields))
    } else if word == b"restrict".as_slice() {
        read_restrict(alloc, fields)
    } else if word == b"lift".as_slice() {
        read_lift(alloc, fields)
    } else if word == b"latest".as_slice() {
        Ok(read_latest(fields))
    } else if word == b"advise".as_slice() && fields.next().is_none() {
        Ok(Some(Event::Advise))
    } else {
        Ok(None)
    }
}
