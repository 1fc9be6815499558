//! Restrictions that come to stand, and that are lifted.

ghost use Rattle.std.specs.Prelude.{◌≡◌, ◌++◌, ◌∷◌, [], length, OnOk, OnErr, ◌<◌};
ghost use Rattle.std.specs.List.{remove};
ghost use Rattle.advice_session.specs.Data.{lifted_at, restricted};
ghost use Rattle.advice_session.specs.Faults.{exactly, index_of, is_on_line, is_restriction, lift_fault, restrict_fault, Answers};

use crate::fault::SessionFault;
use crate::session::Session;
use drive_rules::Stretch;
use event_file::{Name, is_name};
use line_file::Line;
use std::alloc::AllocError;
use std::sync::ledger::Ledger;
use step_energy::Steps;

/// The restrictions that stand, at most.
const MOST_RESTRICTIONS: usize = 64;

/// Which of the names is this one.
fn index_of(names: &[Name], name: &str) -> Option<usize>
    ensures { result ≡ index_of names.now name.now }
{
    names.iter().position(|n| n.text() == name)
}

/// Whether these are a name, a length and a limit.
fn is_restriction(name: &str, from: u32, to: u32, limit: u32) -> bool
    ensures { result ≡ is_restriction name.now from to limit }
{
    is_name(name.as_bytes()) && from < to && 1 <= limit && limit <= 12_000
}

/// Whether a line runs from one place to another.
fn is_on_line(line: &Line, from: u32, to: u32) -> bool
    requires { 0 < length line.now.limits }
    ensures { result ≡ is_on_line line.now from to }
{
    let sections = line.limits.items();
    sections[0].from <= from && to <= sections[sections.len() - 1].to
}

/// Appends a restriction, or changes nothing where there is no memory.
fn append(
    names: &mut Vec<Name>,
    stretches: &mut Vec<Stretch>,
    name: &str,
    stretch: Stretch,
) -> Result<(), AllocError>
    ensures names { OnOk result (names.new.items ≡ names.old.items ++ name.now ∷ []) }
    ensures stretches { OnOk result (stretches.new.items ≡ stretches.old.items ++ stretch ∷ []) }
    ensures names_kept { OnErr result (names.new.items ≡ names.old.items) }
    ensures stretches_kept { OnErr result (stretches.new.items ≡ stretches.old.items) }
{
    let own = Name::make(*names.allocator(), name)?;
    names.push(own)?;
    match stretches.push(stretch) {
        Ok(()) => Ok(()),
        Err(e) => {
            names.pop();
            Err(e.into())
        }
    }
}

impl Session {
    /// Why a restriction can't stand.
    fn restrict_fault(&self, name: &str, from: u32, to: u32, limit: u32) -> Option<SessionFault>
        ensures { result ≡ restrict_fault self.now.data_is name.now from to limit }
    {
        if !is_restriction(name, from, to, limit) {
            Some(SessionFault::OutOfRange)
        } else if !is_on_line(&self.line, from, to) {
            Some(SessionFault::Outside)
        } else if index_of(&self.names, name).is_some() {
            Some(SessionFault::NameTaken)
        } else if self.names.len() >= MOST_RESTRICTIONS {
            Some(SessionFault::TooMany)
        } else {
            None
        }
    }

    /// A limit (cm/s) stands from `from` to `to` (m), under this name.
    ///
    /// In this order: `OutOfRange` exactly where the name isn't 1 to 32 bytes of `a` to `z`, `0` to `9` and `-`, or `from >= to`, or the
    /// limit isn't 1 to 12,000; `Outside` exactly where the stretch isn't on the line; `NameTaken`; `TooMany` exactly where 64 stand. A
    /// refusal changes nothing; `NoMemory` may come where nothing else does. It counts no step.
    pub fn restrict<L: Ledger>(
        &mut self,
        name: &str,
        from: u32,
        to: u32,
        limit: u32,
        steps: &mut Steps<L>,
    ) -> Result<(), SessionFault>
        ensures answer { Answers result (restrict_fault self.old.data_is name.now from to limit) }
        ensures restricted { OnOk result (self.new.data_is ≡ restricted self.old.data_is name.now (record { from = from; to = to; limit = limit })) }
        ensures kept { OnErr result (self.new ≡ self.old) }
        ensures counted { steps.new ≡ steps.old }
    {
        if let Some(fault) = self.restrict_fault(name, from, to, limit) {
            return Err(fault);
        }
        let stretch = Stretch {
            from,
            to,
            limit: limit as u16,
        };
        append(&mut self.names, &mut self.stretches, name, stretch)?;
        self.rules.set_limits(&self.line, &self.stretches);
        Ok(())
    }

    /// The restriction of this name is lifted; `NoSuchName` exactly where none of that name stands, which changes nothing. It takes no
    /// memory and counts no step.
    pub fn lift<L: Ledger>(&mut self, name: &str, steps: &mut Steps<L>) -> Result<(), SessionFault>
        ensures answer { result ≡ exactly (lift_fault self.old.data_is name.now) }
        ensures lifted { OnOk result (self.new.data_is ≡ lifted_at self.old.data_is (index_of self.old.data_is.names name.now)) }
        ensures kept { OnErr result (self.new ≡ self.old) }
        ensures counted { steps.new ≡ steps.old }
    {
        let Some(i) = index_of(&self.names, name) else {
            return Err(SessionFault::NoSuchName);
        };
        self.names.remove(i);
        self.stretches.remove(i);
        self.rules.set_limits(&self.line, self.stretches.as_slice());
        Ok(())
    }
}
