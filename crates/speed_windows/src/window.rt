//! Windows of speeds round given ones.
use crate::course::Course;

/// How speeds are sought round given ones.
#[derive(Clone, Copy, Debug)]
pub struct Look {
    /// How far neighbouring speeds of a window lie apart, cm/s.
    pub spacing: u16,
    /// How many speeds lie on each side of the middle, at most 16.
    pub radius: u16,
    /// How many speeds in a row may be no better before the search for the best next speed ends.
    pub patience: u16,
    /// Whether times are rounded up to ms before they are priced.
    pub rounded: bool,
    /// How often at most windows are laid anew round what was found.
    pub most: u16,
}

/// Speeds at one point: evenly spaced ones round a middle one.
#[derive(Clone, Copy, Debug)]
pub(crate) struct Window {
    pub(crate) first: u16,
    pub(crate) count: u16,
    /// The index of the speed in the middle.
    pub(crate) middle: u16,
    pub(crate) spacing: u16,
}

impl Window {
    /// The window round a speed at a point.
    pub(crate) fn new(course: &Course, point: usize, speed: u16, look: Look) -> Window {
        let low = course.low(point);
        let high = course.high(point);
        let spacing = look.spacing.max(1);
        let middle = speed.max(low).min(high);
        let under = look.radius.min(middle.saturating_sub(low) / spacing);
        let over = look.radius.min(high.saturating_sub(middle) / spacing);
        Window {
            first: middle.saturating_sub(under.wrapping_mul(spacing)),
            count: under.saturating_add(over).saturating_add(1),
            middle: under,
            spacing,
        }
    }

    /// The speed of an index.
    pub(crate) fn speed(&self, index: u16) -> u16 {
        self.first.wrapping_add(index.wrapping_mul(self.spacing))
    }
}
