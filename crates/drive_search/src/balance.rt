//! The prices of all timing points at once.
use crate::levels::{ONE, within};
use crate::pooling::{Ask, pooled};
use crate::search::Search;
use drive_rules::Rules;
use rail_base::StepCost;
use speed_windows::{Goal, Look};
use std::alloc::{AllocError, Global};

/// The steps before one timing point, behind the one before.
#[derive(Clone, Copy, Debug)]
struct Leg {
    /// The slowness at which the time was measured.
    slowness: u64,
    /// The time over these steps, ms.
    time: i64,
}

/// How windows are laid while spacing is wide.
fn wide(spacing: u16) -> Look {
    Look {
        spacing,
        radius: 16,
        patience: 2,
        rounded: false,
        most: 100,
    }
}

/// How windows are laid at each whole speed.
const NARROW: Look = Look {
    spacing: 1,
    radius: 16,
    patience: 3,
    rounded: false,
    most: 200,
};

/// How the time grows with the slowness, from two measured times where they are far enough apart: ms for `ONE`.
fn slope_of(leg: Leg, before: Option<Leg>) -> i64 {
    let one = ONE as i64;
    let slowness = leg.slowness.min(1 << 40) as i64;
    let full = leg
        .time
        .wrapping_mul(one)
        .wrapping_div(slowness.max(1))
        .max(0);
    let slope = match before {
        Some(old) => {
            let moved = slowness.wrapping_sub(old.slowness.min(1 << 40) as i64);
            if moved == 0 || moved.saturating_abs().wrapping_mul(64) <= slowness {
                full
            } else {
                let more = leg.time.wrapping_sub(old.time).wrapping_mul(one);
                more.wrapping_div(moved)
            }
        }
        None => full,
    };
    slope
        .max((full / 16).wrapping_add(1))
        .min((full / 2).wrapping_mul(3).wrapping_add(1))
}

/// What a leg asks for, with this much time for it.
fn ask_of(leg: Leg, before: Option<Leg>, time: i64) -> Ask {
    let slope = slope_of(leg, before);
    let slowness = leg.slowness.min(1 << 40) as i64;
    let model = slope.wrapping_mul(slowness) >> 20;
    Ask {
        target: time.wrapping_sub(leg.time).wrapping_add(model),
        slope,
    }
}

/// The legs of a drive that was found at a slowness for each.
fn legs_of(alloc: Global, slowness: &[u64], arrivals: &[i64]) -> Result<Vec<Leg>, AllocError> {
    let mut legs = Vec::with_capacity(alloc, arrivals.len())?;
    let mut last: i64 = 0;
    for k in 0..arrivals.len() {
        legs.push(Leg {
            slowness: slowness.get(k).copied().unwrap_or(ONE),
            time: arrivals[k].wrapping_sub(last),
        })?;
        last = arrivals[k];
    }
    Ok(legs)
}

/// What all legs ask for.
fn asks_of(
    alloc: Global,
    goals: &[Goal],
    legs: &[Leg],
    before: &[Leg],
) -> Result<Vec<Ask>, AllocError> {
    let mut asks = Vec::with_capacity(alloc, legs.len())?;
    let mut last: i64 = 0;
    for k in 0..legs.len() {
        let latest = match goals.get(k) {
            Some(goal) => goal.latest,
            None => last,
        };
        asks.push(ask_of(legs[k], before.get(k).copied(), latest.wrapping_sub(last)))?;
        last = latest;
    }
    Ok(asks)
}

/// A slowness that is moved, by at most a factor of 2.
fn moved(old: u64, new: u64) -> u64 {
    within(new.max(old / 2).min(old.saturating_mul(2)))
}

/// Moves each slowness as is asked: how far the farthest went, in 1,024ths.
fn move_all(slowness: &mut [u64], asked: &[u64]) -> u64 {
    let mut farthest = 0;
    for k in 0..slowness.len() {
        let old = slowness[k];
        let new = moved(old, asked.get(k).copied().unwrap_or(old));
        slowness[k] = new;
        farthest = farthest.max(new.abs_diff(old).wrapping_mul(1024) / old.max(1));
    }
    farthest
}

impl Search {
    /// One turn: settles speeds at the slowness of each timing point, offers them, and moves the slowness to where the times would be just
    /// those that there are. Gives the legs that were measured; `far` is how far the farthest slowness went.
    fn turn<C: StepCost>(
        &mut self,
        rules: &Rules,
        cost: &C,
        speeds: &mut Vec<u16>,
        slowness: &mut Vec<u64>,
        before: &[Leg],
        coarse: bool,
    ) -> Result<Turn, AllocError> {
        if coarse {
            self.settle_at(cost, slowness.as_slice(), speeds, wide(16))?;
            self.settle_at(cost, slowness.as_slice(), speeds, wide(4))?;
        } else {
            self.settle_at(cost, slowness.as_slice(), speeds, NARROW)?;
        }
        let arrivals = self.course.arrivals(self.alloc, speeds.as_slice())?;
        self.offer(rules, cost, speeds.as_slice())?;
        let legs = legs_of(self.alloc, slowness.as_slice(), arrivals.as_slice())?;
        let goals = self.course.goals.as_slice();
        let asks = asks_of(self.alloc, goals, legs.as_slice(), before)?;
        let asked = pooled(self.alloc, asks.as_slice())?;
        let far = move_all(slowness.as_mut_slice(), asked.as_slice());
        Ok(Turn { legs, far })
    }

    /// Turns, at most so many, until the slowness moves by less than `near` 1,024ths.
    fn turns<C: StepCost>(
        &mut self,
        rules: &Rules,
        cost: &C,
        speeds: &mut Vec<u16>,
        slowness: &mut Vec<u64>,
        kind: Turns,
    ) -> Result<(), AllocError> {
        let mut before = Vec::new(self.alloc);
        for _ in 0..kind.most {
            let turn = self.turn(
                rules,
                cost,
                speeds,
                slowness,
                before.as_slice(),
                kind.coarse,
            )?;
            before = turn.legs;
            if turn.far < kind.near {
                break;
            }
        }
        Ok(())
    }

    /// Moves the prices of all timing points until the times are nearly those that there are: first with speeds that lie wide apart, then
    /// with each whole speed.
    pub(crate) fn balance<C: StepCost>(
        &mut self,
        rules: &Rules,
        cost: &C,
        speeds: &mut Vec<u16>,
        slowness: &mut Vec<u64>,
    ) -> Result<(), AllocError> {
        self.turns(rules, cost, speeds, slowness, COARSE)?;
        self.turns(rules, cost, speeds, slowness, FINE)
    }
}

/// What a turn found.
#[derive(Drop)]
struct Turn {
    legs: Vec<Leg>,
    far: u64,
}

/// How turns are made.
#[derive(Clone, Copy, Debug)]
struct Turns {
    coarse: bool,
    /// How many at most.
    most: u32,
    /// How far the slowness still moves where they end, in 1,024ths.
    near: u64,
}

const COARSE: Turns = Turns {
    coarse: true,
    most: 8,
    near: 24,
};

const FINE: Turns = Turns {
    coarse: false,
    most: 4,
    near: 4,
};
