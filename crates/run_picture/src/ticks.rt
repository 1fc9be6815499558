//! The axes of a picture.

ghost use Rattle.std.specs.Prelude.{◌≡◌, ◌++◌, ℕ, ◌+◌, ◌*◌, ◌/◌, ◌<◌, ◌≤◌, OnOk, length};
ghost use Rattle.sheet_parts.specs.Fill.{joined_below};
ghost use Rattle.run_picture.specs.Scale.{round_step};
ghost use Rattle.run_picture.specs.Ticks.{kilometres_text, upright_tick, level_tick, place_tick, place_ticks, speed_tick, speed_ticks, gradient_ticks};

use crate::axes::Axes;
use crate::pen::put_natural;
use crate::positions::place_x;
use crate::scaling::round_step;
use sheet_parts::put_decimals;
use std::alloc::{AllocError, Global};

/// Appends a place in metres as a number of km, with as many digits as an axis of this step takes.
#[tactic(auto, unfolding(crate::specs::Ticks::kilometres_text))]
fn put_kilometres(out: &mut Vec<u8>, step: u64, place: u32) -> Result<(), AllocError>
    ensures { OnOk result (out.new.items ≡ out.old.items ++ kilometres_text step place) }
{
    if step >= 1000 {
        put_natural(out, u64::from(place / 1000))
    } else if step >= 100 {
        put_decimals(out, 1, i128::from(place / 100))
    } else {
        put_decimals(out, 3, i128::from(place))
    }
}

/// Appends the tick at so many units from the left, with this number.
#[tactic(auto, unfolding(crate::specs::Ticks::upright_tick))]
fn put_upright_tick(out: &mut Vec<u8>, x: u64, label: &[u8]) -> Result<(), AllocError>
    ensures { OnOk result (out.new.items ≡ out.old.items ++ upright_tick x label.now) }
{
    out.extend_from_slice(b"<path class='g' d='M")?;
    put_natural(out, x)?;
    out.extend_from_slice(b" 1050V5340'/><text class='m' x='")?;
    put_natural(out, x)?;
    out.extend_from_slice(b"' y='5540'>")?;
    out.extend_from_slice(label)?;
    out.extend_from_slice(b"</text>\n")
}

/// Appends the tick at so many units from above, with this number.
#[tactic(auto, unfolding(crate::specs::Ticks::level_tick))]
fn put_level_tick(out: &mut Vec<u8>, y: u64, label: &[u8]) -> Result<(), AllocError>
    requires { y ≤ 8480 }
    ensures { OnOk result (out.new.items ≡ out.old.items ++ level_tick y label.now) }
{
    out.extend_from_slice(b"<path class='g' d='M900 ")?;
    put_natural(out, y)?;
    out.extend_from_slice(b"H11700'/><text class='e' x='820' y='")?;
    put_natural(out, y + 60)?;
    out.extend_from_slice(b"'>")?;
    out.extend_from_slice(label)?;
    out.extend_from_slice(b"</text>\n")
}

/// Appends the tick at k steps of the axis of places, where the picture has that place.
#[tactic(auto, unfolding(crate::specs::Ticks::place_tick))]
fn put_place_tick(
    alloc: Global,
    out: &mut Vec<u8>,
    axes: &Axes,
    step: u64,
    k: u64,
) -> Result<(), AllocError>
    requires { k * step ≤ 8000000 }
    ensures { OnOk result (out.new.items ≡ out.old.items ++ place_tick axes.now step k) }
{
    let place = (k * step) as u32;
    if u64::from(place) < axes.first() {
        return Ok(());
    }
    let mut label = Vec::new(alloc);
    put_kilometres(&mut label, step, place)?;
    put_upright_tick(out, place_x(axes, place), label.as_slice())
}

/// Appends the axis of places, in km.
#[tactic(auto, unfolding(crate::specs::Ticks::place_ticks), using(sheet_parts::proofs::FillLemmas::joins))]
pub fn put_place_ticks(alloc: Global, out: &mut Vec<u8>, axes: &Axes) -> Result<(), AllocError>
    ensures { OnOk result (out.new.items ≡ out.old.items ++ place_ticks axes.now) }
{
    let step = round_step(axes.span(), 12);
    for k in 0..(axes.first() + axes.span()) / step + 1 {
        put_place_tick(alloc, out, axes, step, k)?;
    }
    Ok(())
}

/// Appends the tick at k steps of the axis of speeds.
#[tactic(auto, unfolding(crate::specs::Ticks::speed_tick))]
fn put_speed_tick(alloc: Global, out: &mut Vec<u8>, axes: &Axes, k: u64) -> Result<(), AllocError>
    requires { k * axes.now.speed_step ≤ axes.now.speed_top }
    ensures { OnOk result (out.new.items ≡ out.old.items ++ speed_tick axes.now k) }
{
    let top = axes.speed_top();
    let speed = k * axes.speed_step();
    let mut label = Vec::new(alloc);
    put_natural(&mut label, speed)?;
    put_level_tick(out, 4250 - speed * 3200 / top, label.as_slice())
}

/// Appends the axis of speeds, in km/h.
#[tactic(auto, unfolding(crate::specs::Ticks::speed_ticks), using(sheet_parts::proofs::FillLemmas::joins))]
pub fn put_speed_ticks(alloc: Global, out: &mut Vec<u8>, axes: &Axes) -> Result<(), AllocError>
    ensures { OnOk result (out.new.items ≡ out.old.items ++ speed_ticks axes.now) }
{
    for k in 0..axes.speed_top() / axes.speed_step() + 1 {
        put_speed_tick(alloc, out, axes, k)?;
    }
    Ok(())
}

/// Appends the axis of gradients, in per mille.
#[tactic(auto, unfolding(crate::specs::Ticks::gradient_ticks))]
pub fn put_gradient_ticks(alloc: Global, out: &mut Vec<u8>, axes: &Axes) -> Result<(), AllocError>
    ensures { OnOk result (out.new.items ≡ out.old.items ++ gradient_ticks axes.now) }
{
    let mut up = Vec::new(alloc);
    put_natural(&mut up, 2 * axes.gradient_step())?;
    let mut down = Vec::new(alloc);
    down.push(b'-')?;
    put_natural(&mut down, 2 * axes.gradient_step())?;
    put_level_tick(out, 4460, up.as_slice())?;
    put_level_tick(out, 4900, b"0")?;
    put_level_tick(out, 5340, down.as_slice())
}
