//! Stretches of a drive that are lowered where time is left, or raised where the drive is late.
use crate::course::{Course, speed_of};
use rail_base::StepCost;

/// How stretches are changed.
#[derive(Clone, Copy, Debug)]
pub struct Nudge {
    /// By how much speeds are changed, cm/s, and whether upwards.
    pub by: u16,
    /// Whether they are raised.
    pub raises: bool,
    /// How much the priced time counts beside the energy, in quarters.
    pub weight: i64,
}

/// What a change of speeds over a stretch changes.
#[derive(Clone, Copy, Debug)]
struct Change {
    /// The energy, scaled.
    energy: i64,
    /// The time, ms.
    time: i64,
    /// The priced time.
    priced: i64,
}

/// The points of a stretch: from the first up to but not including the last.
#[derive(Clone, Copy, Debug)]
struct Points {
    from: usize,
    to: usize,
}

/// A speed at a point, changed, and cut to what drives have there.
fn shifted(course: &Course, point: usize, speed: u16, way: Nudge) -> u16 {
    let moved = if way.raises {
        speed.saturating_add(way.by)
    } else {
        speed.saturating_sub(way.by)
    };
    moved.max(course.low(point)).min(course.high(point))
}

/// The speed at a point after the stretch was changed.
fn new_speed(course: &Course, speeds: &[u16], point: usize, points: Points, way: Nudge) -> u16 {
    let speed = speed_of(speeds, point);
    if points.from <= point && point < points.to {
        shifted(course, point, speed, way)
    } else {
        speed
    }
}

/// The timing point that a step reaches, if it reaches one.
fn reached(course: &Course, step: usize) -> Option<usize> {
    let here = course.stretch_of(step);
    if here == course.stretch_of(step.saturating_add(1)) {
        None
    } else {
        Some(here)
    }
}

/// How much time is left at the timing points from a point on, ms: less than 0 where the drive is late.
fn room_from(course: &Course, arrivals: &[i64], point: usize) -> i64 {
    let mut room = i64::MAX;
    let first = course.stretch_of(point.saturating_sub(1));
    for k in first..course.goals.len() {
        room = room.min(course.room(arrivals, k));
    }
    room
}

/// How the time of a step changes, ms.
fn time_change(course: &Course, speeds: &[u16], step: usize, points: Points, way: Nudge) -> i64 {
    let next = step.saturating_add(1);
    let shape = course.step(step);
    let old = shape.time(speed_of(speeds, step), speed_of(speeds, next));
    let entry = new_speed(course, speeds, step, points, way);
    let exit = new_speed(course, speeds, next, points, way);
    shape.time(entry, exit).wrapping_sub(old)
}

/// How the scaled energy of a step changes, or none where the forces don't allow the change.
fn energy_change<C: StepCost>(
    course: &Course,
    cost: &C,
    speeds: &[u16],
    step: usize,
    points: Points,
    way: Nudge,
) -> Option<i64> {
    let next = step.saturating_add(1);
    let entry = new_speed(course, speeds, step, points, way);
    let exit = new_speed(course, speeds, next, points, way);
    let new = course.step_cost(cost, step, entry, exit)?;
    let old = course.step_cost(cost, step, speed_of(speeds, step), speed_of(speeds, next))?;
    Some(new.wrapping_sub(old))
}

/// What the change of a stretch changes, or none where the forces don't allow it, or where slower speeds are late at a timing point
/// inside.
fn change_of<C: StepCost>(
    course: &Course,
    cost: &C,
    prices: &[u64],
    speeds: &[u16],
    arrivals: &[i64],
    points: Points,
    way: Nudge,
) -> Option<Change> {
    let mut change = Change {
        energy: 0,
        time: 0,
        priced: 0,
    };
    for i in points.from.saturating_sub(1)..points.to {
        let energy = energy_change(course, cost, speeds, i, points, way)?;
        let time = time_change(course, speeds, i, points, way);
        change = change.and(energy, time, course.price(prices, i));
        if !way.raises && i.saturating_add(1) < points.to {
            if let Some(k) = reached(course, i) {
                if course.room(arrivals, k) < change.time {
                    return None;
                }
            }
        }
    }
    Some(change)
}

impl Change {
    /// With that of one more step.
    fn and(self, energy: i64, time: i64, price: u64) -> Change {
        let price = price.min(MOST_PRICE) as i64;
        Change {
            energy: self.energy.wrapping_add(energy),
            time: self.time.wrapping_add(time),
            priced: self.priced.wrapping_add(time.wrapping_mul(price)),
        }
    }

    /// Whether the change is worth while, where this much time is left behind it.
    fn is_worth(&self, room: i64, way: Nudge) -> bool {
        let saved = if way.raises {
            if room >= 0 || self.time >= 0 {
                return false;
            }
            self.wanted(room)
        } else {
            if room <= 0 || self.energy >= 0 || self.time > room {
                return false;
            }
            self.priced as i128
        };
        let energy = (self.energy as i128).wrapping_mul(4);
        energy.wrapping_add(saved.wrapping_mul(way.weight as i128)) <= 0
    }

    /// The priced time that a raise saves, but for what is more than needed.
    fn wanted(&self, room: i64) -> i128 {
        let priced = self.priced as i128;
        if self.time < room {
            priced
                .wrapping_mul(room as i128)
                .wrapping_div((self.time as i128).min(-1))
        } else {
            priced
        }
    }
}

/// Takes the change of a stretch into the arrivals.
fn move_arrivals(
    course: &Course,
    arrivals: &mut [i64],
    speeds: &[u16],
    points: Points,
    way: Nudge,
) {
    let mut time: i64 = 0;
    for i in points.from.saturating_sub(1)..points.to {
        time = time.wrapping_add(time_change(course, speeds, i, points, way));
        if i.saturating_add(1) < points.to {
            if let Some(k) = reached(course, i) {
                delay(arrivals, k, time);
            }
        }
    }
    for k in course.stretch_of(points.to.saturating_sub(1))..arrivals.len() {
        delay(arrivals, k, time);
    }
}

/// Lets one arrival be later.
fn delay(arrivals: &mut [i64], index: usize, time: i64) {
    if let Some(arrival) = arrivals.get_mut(index) {
        *arrival = arrival.wrapping_add(time);
    }
}

/// Changes the speeds of a stretch.
fn move_speeds(course: &Course, speeds: &mut [u16], points: Points, way: Nudge) {
    for k in points.from..points.to {
        if let Some(speed) = speeds.get_mut(k) {
            *speed = shifted(course, k, *speed, way);
        }
    }
}

/// Changes each stretch of a length where that is worth while: they begin a quarter of the length apart.
fn nudge_stretches<C: StepCost>(
    course: &Course,
    cost: &C,
    prices: &[u64],
    speeds: &mut [u16],
    arrivals: &mut [i64],
    len: usize,
    way: Nudge,
) {
    let last = course.steps.len();
    let apart = len.div_ceil(4).max(1);
    for j in 0..last / apart {
        let from = j.wrapping_mul(apart).saturating_add(1);
        let points = Points {
            from,
            to: from.saturating_add(len).min(last),
        };
        let room = room_from(course, arrivals, points.to);
        if points.to <= from || (room < 0) != way.raises || room == 0 {
            continue;
        }
        if let Some(change) = change_of(course, cost, prices, speeds, arrivals, points, way) {
            if change.is_worth(room, way) {
                move_arrivals(course, arrivals, speeds, points, way);
                move_speeds(course, speeds, points, way);
            }
        }
    }
}

/// Changes stretches of a drive, long ones first, where that saves energy and there is time, or where the drive is late and the time that is
/// won is worth the energy. `arrivals` are those of the speeds, and move with them.
///
/// The prices are those of a ms of the steps before each timing point, scaled.
pub fn nudge_drive<C: StepCost>(
    course: &Course,
    cost: &C,
    prices: &[u64],
    speeds: &mut [u16],
    arrivals: &mut [i64],
    way: Nudge,
) {
    for halvings in 0..16u32 {
        let len = (1 << 15) >> halvings;
        if len < course.steps.len() {
            nudge_stretches(course, cost, prices, speeds, arrivals, len, way);
        }
    }
}

/// The greatest price.
const MOST_PRICE: u64 = 1 << 62;
