//! The speed limit and the gradient over the places.

ghost use Rattle.std.specs.Prelude.{◌≡◌, ◌++◌, ℕ, ◌<◌, OnOk, length};
ghost use Rattle.sheet_parts.specs.Fill.{joined_below};
ghost use Rattle.run_picture.specs.Stairs.{stair, limit_stair, first_limit_y, limit_start, limit_line, gradient_stair, gradient_area};

use crate::axes::Axes;
use crate::pen::put_natural;
use crate::positions::{gradient_y, place_x, speed_y};
use drive_rules::Rules;
use std::alloc::AllocError;

/// Appends a line up or down to y, and level to x.
#[tactic(auto, unfolding(crate::specs::Stairs::stair))]
fn put_stair(out: &mut Vec<u8>, y: u64, x: u64) -> Result<(), AllocError>
    ensures { OnOk result (out.new.items ≡ out.old.items ++ stair y x) }
{
    out.push(b'V')?;
    put_natural(out, y)?;
    out.push(b'H')?;
    put_natural(out, x)
}

/// Appends the limit of step i.
#[tactic(auto, unfolding(crate::specs::Stairs::limit_stair))]
fn put_limit_stair(
    out: &mut Vec<u8>,
    axes: &Axes,
    rules: &Rules,
    i: usize,
) -> Result<(), AllocError>
    requires { i < length rules.now.steps }
    ensures { OnOk result (out.new.items ≡ out.old.items ++ limit_stair axes.now rules.now i) }
{
    rules.known();
    put_stair(
        out,
        speed_y(axes, rules.limit(i)),
        place_x(axes, rules.place(i + 1)),
    )
}

/// Appends the limits of all steps.
#[tactic(auto, using(sheet_parts::proofs::FillLemmas::joins))]
fn put_limit_stairs(out: &mut Vec<u8>, axes: &Axes, rules: &Rules) -> Result<(), AllocError>
    ensures { OnOk result (out.new.items ≡ out.old.items ++ joined_below (limit_stair axes.now rules.now) (length rules.now.steps)) }
{
    for i in 0..rules.steps() {
        put_limit_stair(out, axes, rules, i)?;
    }
    Ok(())
}

/// Where the limit of the first step lies, units from above.
#[tactic(auto, unfolding(crate::specs::Stairs::first_limit_y))]
fn first_limit_y(axes: &Axes, rules: &Rules) -> u64
    ensures { result ≡ first_limit_y axes.now rules.now }
{
    rules.known();
    speed_y(axes, rules.limit(0))
}

/// Appends how the line of the limit begins.
#[tactic(auto, unfolding(crate::specs::Stairs::limit_start))]
fn put_limit_start(out: &mut Vec<u8>, axes: &Axes, rules: &Rules) -> Result<(), AllocError>
    ensures { OnOk result (out.new.items ≡ out.old.items ++ limit_start axes.now rules.now) }
{
    let y = first_limit_y(axes, rules);
    out.extend_from_slice(b"<path class='l' d='M900 ")?;
    put_natural(out, y)?;
    Ok(())
}

/// Appends the line of the limit.
#[tactic(auto, unfolding(crate::specs::Stairs::limit_line))]
pub fn put_limit_line(out: &mut Vec<u8>, axes: &Axes, rules: &Rules) -> Result<(), AllocError>
    ensures { OnOk result (out.new.items ≡ out.old.items ++ limit_line axes.now rules.now) }
{
    put_limit_start(out, axes, rules)?;
    put_limit_stairs(out, axes, rules)?;
    out.extend_from_slice(b"'/>\n")
}

/// Appends the gradient of step i.
#[tactic(auto, unfolding(crate::specs::Stairs::gradient_stair))]
fn put_gradient_stair(
    out: &mut Vec<u8>,
    axes: &Axes,
    rules: &Rules,
    i: usize,
) -> Result<(), AllocError>
    requires { i < length rules.now.steps }
    ensures { OnOk result (out.new.items ≡ out.old.items ++ gradient_stair axes.now rules.now i) }
{
    rules.known();
    let gradient = rules.row(i).numbers().gradient;
    put_stair(
        out,
        gradient_y(axes, gradient),
        place_x(axes, rules.place(i + 1)),
    )
}

/// Appends the gradients of all steps.
#[tactic(auto, using(sheet_parts::proofs::FillLemmas::joins))]
fn put_gradient_stairs(out: &mut Vec<u8>, axes: &Axes, rules: &Rules) -> Result<(), AllocError>
    ensures { OnOk result (out.new.items ≡ out.old.items ++ joined_below (gradient_stair axes.now rules.now) (length rules.now.steps)) }
{
    for i in 0..rules.steps() {
        put_gradient_stair(out, axes, rules, i)?;
    }
    Ok(())
}

/// Appends the area between the gradient and level track.
#[tactic(auto, unfolding(crate::specs::Stairs::gradient_area))]
pub fn put_gradient_area(out: &mut Vec<u8>, axes: &Axes, rules: &Rules) -> Result<(), AllocError>
    ensures { OnOk result (out.new.items ≡ out.old.items ++ gradient_area axes.now rules.now) }
{
    out.extend_from_slice(b"<path class='n' d='M900 4900")?;
    put_gradient_stairs(out, axes, rules)?;
    out.extend_from_slice(b"V4900z'/>\n")
}
