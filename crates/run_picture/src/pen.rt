//! Points of a picture's text.

ghost use Rattle.std.specs.Prelude.{◌≡◌, ◌++◌, OnOk, decimal};
ghost use Rattle.run_picture.specs.Pen.{point};

use std::alloc::AllocError;

/// Appends a number.
pub fn put_natural(out: &mut Vec<u8>, n: u64) -> Result<(), AllocError>
    ensures { OnOk result (out.new.items ≡ out.old.items ++ decimal n) }
{
    sheet_parts::put_natural(out, u128::from(n))
}

/// Appends a point, so many units from the left and from above.
pub fn put_point(out: &mut Vec<u8>, x: u64, y: u64) -> Result<(), AllocError>
    ensures { OnOk result (out.new.items ≡ out.old.items ++ point x y) }
{
    put_natural(out, x)?;
    out.push(b' ')?;
    put_natural(out, y)
}
