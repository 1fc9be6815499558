//! Lines of the texts that are written.

ghost use Rattle.std.specs.Prelude.{◌≡◌, ℕ, ◌++◌, ◌∷◌, OnOk};
ghost use Rattle.rail_base.specs.Texts.{line, spaced, number_line};

use crate::number::put_number;
use std::alloc::{AllocError, Global};

/// Appends a line.
pub fn put_line(out: &mut Vec<u8>, text: &[u8]) -> Result<(), AllocError>
    ensures { OnOk result (out.new.items ≡ out.old.items ++ line text.now) }
{
    out.extend_from_slice(text)?;
    out.push(b'\n')?;
    Ok(())
}

/// Appends a space and a word.
pub fn put_word(out: &mut Vec<u8>, word: &[u8]) -> Result<(), AllocError>
    ensures { OnOk result (out.new.items ≡ out.old.items ++ 32 ∷ word.now) }
{
    out.push(b' ')?;
    out.extend_from_slice(word)?;
    Ok(())
}

/// Appends a space and a number.
pub fn put_spaced(alloc: Global, out: &mut Vec<u8>, n: i128) -> Result<(), AllocError>
    ensures { OnOk result (out.new.items ≡ out.old.items ++ spaced n) }
{
    out.push(b' ')?;
    put_number(alloc, out, n)
}

/// Appends a line of a word and a number.
#[tactic(auto, unfolding(crate::specs::Texts::number_line))]
pub fn put_number_line(
    alloc: Global,
    out: &mut Vec<u8>,
    word: &[u8],
    n: i128,
) -> Result<(), AllocError>
    ensures { OnOk result (out.new.items ≡ out.old.items ++ number_line word.now n) }
{
    out.extend_from_slice(word)?;
    put_spaced(alloc, out, n)?;
    out.push(b'\n')?;
    Ok(())
}
