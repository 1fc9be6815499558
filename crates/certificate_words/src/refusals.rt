//! Why a certificate is refused.

ghost use Rattle.std.specs.Prelude.{◌≡◌, ◌≢◌, ◌++◌, pos, IfOk, OnOk};
ghost use Rattle.rail_base.specs.Texts.{spaced};
ghost use Rattle.certificate_words.specs.Words.{field_name, refused_words};

use certificate_checker::{Field, Refused};
use rail_base::put_spaced;
use run_parts::{numbered, rule_words};
use std::alloc::{AllocError, Global};

/// The name of a number of a certificate.
fn field_name(field: Field) -> &'static [u8]
    ensures { result.now ≡ field_name field }
{
    match field {
        Field::Points => b"points",
        Field::Prices => b"prices",
        Field::Energy => b"energy",
        Field::Bound => b"bound",
    }
}

/// The words of a number of a certificate.
fn field_words(alloc: Global, field: Field) -> Result<Vec<u8>, AllocError>
    ensures { IfOk result (λ text. text.items ≡ refused_words (Refused.Number field)) }
{
    let mut text = Vec::from_slice(alloc, b"number ")?;
    text.extend_from_slice(field_name(field))?;
    Ok(text)
}

/// The words of a potential: its point, its cell, and the cell of the next point.
fn potential_words(alloc: Global, point: u32, from: u32, to: u32) -> Result<Vec<u8>, AllocError>
    ensures { IfOk result (λ text. text.items ≡ refused_words (Refused.Potential point from to)) }
{
    let mut text = numbered(alloc, b"potential", point)?;
    put_spaced(alloc, &mut text, from as i128)?;
    put_spaced(alloc, &mut text, to as i128)?;
    Ok(text)
}

/// The words of the condition that a certificate fails. The only error is want of memory, which the refusal may itself be.
pub fn refused_words(alloc: Global, refused: Refused) -> Result<Vec<u8>, AllocError>
    ensures sound { OnOk result (refused ≢ Refused.NoMemory) }
    ensures words { IfOk result (λ text. text.items ≡ refused_words refused) }
{
    match refused {
        Refused::Number(field) => field_words(alloc, field),
        Refused::Drive(rule, place) => rule_words(alloc, rule, place),
        Refused::Cells(point) => numbered(alloc, b"cells", point),
        Refused::Potential(point, from, to) => potential_words(alloc, point, from, to),
        Refused::NoMemory => Err(AllocError),
    }
}
