//! Texts at the right end of a column.

ghost use Rattle.std.specs.Prelude.{◌≡◌, ℕ, ◌++◌, OnOk};
ghost use Rattle.sheet_parts.specs.Fill.{filled};

use std::alloc::AllocError;

/// Appends a text behind as many bytes `fill` as it is short of the width, in bytes.
#[tactic(auto, unfolding(crate::specs::Fill::filled))]
pub fn put_filled(out: &mut Vec<u8>, fill: u8, width: usize, text: &[u8]) -> Result<(), AllocError>
    ensures { OnOk result (out.new.items ≡ out.old.items ++ filled fill width text.now) }
{
    for _ in 0..width.saturating_sub(text.len()) {
        out.push(fill)?;
    }
    out.extend_from_slice(text)
}

/// Appends a text at the right end of a column of this width, in bytes: behind spaces.
pub fn put_right(out: &mut Vec<u8>, width: usize, text: &[u8]) -> Result<(), AllocError>
    ensures { OnOk result (out.new.items ≡ out.old.items ++ filled 32 width text.now) }
{
    put_filled(out, b' ', width, text)
}
