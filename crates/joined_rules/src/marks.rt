//! The places that a grid includes.

ghost use Rattle.std.specs.Prelude.{◌≡◌, ◌++◌, map, IfOk, OnOk};
ghost use Rattle.joined_rules.specs.Joined.{marks_of};

use line_file::{Call, Line, Section, Service};
use std::alloc::{AllocError, Global};

/// The places of calls.
fn places_of(alloc: Global, calls: &[Call]) -> Result<Vec<u32>, AllocError>
    ensures { IfOk result (λ places. places.items ≡ map (λ c. c.place) calls.now) }
{
    calls.iter().map(|call| call.place).collect(alloc)
}

/// Appends the ends of sections.
fn push_ends(marks: &mut Vec<u32>, sections: &[Section]) -> Result<(), AllocError>
    ensures { OnOk result (marks.new.items ≡ marks.old.items ++ map (λ s. s.to) sections.now) }
{
    for section in sections {
        marks.push(section.to)?;
    }
    Ok(())
}

/// The places of the calls, and the ends of the sections of both kinds.
pub(crate) fn marks(alloc: Global, line: &Line, service: &Service) -> Result<Vec<u32>, AllocError>
    ensures { IfOk result (λ marks. marks.items ≡ marks_of line.now service.now) }
{
    let mut marks = places_of(alloc, service.calls.items())?;
    push_ends(&mut marks, line.limits.items())?;
    push_ends(&mut marks, line.gradients.items())?;
    Ok(marks)
}
