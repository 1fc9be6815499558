//! Where a place, a speed and a gradient lie in a picture.

ghost use Rattle.std.specs.Prelude.{◌≡◌, ◌≤◌, ◌<◌, ◌^◌};
ghost use Rattle.run_picture.specs.Scale.{place_x, speed_y, gradient_y};

use crate::axes::Axes;

/// Where a place in metres lies, units from the left.
pub fn place_x(axes: &Axes, place: u32) -> u64
    ensures value { result ≡ place_x axes.now place }
    ensures small { result < 2 ^ 47 }
{
    900 + u64::from(place).saturating_sub(axes.first()) * 10800 / axes.span()
}

/// Where a speed in cm/s lies, units from above.
pub fn speed_y(axes: &Axes, v: u16) -> u64
    ensures value { result ≡ speed_y axes.now v }
    ensures low { result ≤ 4250 }
{
    4250 - (u64::from(v) * 28800 / (250 * axes.speed_top())).min(3290)
}

/// Where a gradient in 1/10 per mille lies, units from above.
pub fn gradient_y(axes: &Axes, gradient: i16) -> u64
    ensures { result ≡ gradient_y axes.now gradient }
{
    let height = (u64::from(gradient.unsigned_abs()) * 22 / axes.gradient_step()).min(440);
    if gradient >= 0 {
        4900 - height
    } else {
        4900 + height
    }
}
