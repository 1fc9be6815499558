//! Prices and drives that are halved together.
//!
//! Where the least energy is flat, the cheapest drive jumps by seconds when the price moves by nothing. So the drives between are sought
//! too: each block of timing points with one price has a faster and a slower drive, and the mean of both is the middle of the next windows.
use crate::levels::within;
use crate::search::Search;
use drive_rules::Rules;
use rail_base::StepCost;
use speed_windows::{Look, Nudge, nudge_drive};
use std::alloc::{AllocError, Global};

/// One side of the halving: a drive, and the slowness before each timing point.
#[derive(Drop)]
struct Side {
    speeds: Vec<u16>,
    slowness: Vec<u64>,
}

/// The late drive that seems best to be mended.
#[derive(Drop)]
struct Near {
    speeds: Vec<u16>,
    slowness: Vec<u64>,
    /// What it would cost on time, scaled, as its prices have it.
    estimate: i64,
}

/// How a round goes.
#[derive(Clone, Copy, Debug)]
pub(crate) struct Round {
    /// By how many 2^20ths the slowness is changed first.
    pub(crate) first: u64,
    /// How many halvings look far.
    pub(crate) wide: u32,
}

/// How many halvings a round has.
const HALVINGS: u32 = 10;

/// How windows are laid for a side.
const BESIDE: Look = Look {
    spacing: 1,
    radius: 16,
    patience: 3,
    rounded: true,
    most: 30,
};

/// How windows are laid round a mean that was found.
const AGAIN: Look = Look {
    spacing: 1,
    radius: 16,
    patience: 3,
    rounded: true,
    most: 3,
};

/// How windows are laid at a halving.
fn look_at(halving: u32, round: Round) -> Look {
    let radius = if halving < round.wide {
        16
    } else if halving < 7 || halving == HALVINGS {
        4
    } else {
        1
    };
    Look {
        spacing: 1,
        radius,
        patience: 33,
        rounded: true,
        most: 1,
    }
}

/// For each timing point the first of its block: the neighbours with one slowness.
fn blocks_of(alloc: Global, slowness: &[u64]) -> Result<Vec<usize>, AllocError> {
    let mut blocks = Vec::with_capacity(alloc, slowness.len())?;
    let mut first = 0;
    for k in 0..slowness.len() {
        if slowness[k] != slowness[first.min(k)] {
            first = k;
        }
        blocks.push(first)?;
    }
    Ok(blocks)
}

/// The slowness changed by each one's part, in 2^20ths.
fn changed(
    alloc: Global,
    slowness: &[u64],
    parts: &[u64],
    slower: bool,
) -> Result<Vec<u64>, AllocError> {
    let mut new = Vec::with_capacity(alloc, slowness.len())?;
    for k in 0..slowness.len() {
        let part = parts.get(k).copied().unwrap_or(0).min(1 << 20);
        let by = slowness[k].min(1 << 40).wrapping_mul(part) >> 20;
        let one = if slower {
            slowness[k].saturating_add(by)
        } else {
            slowness[k].saturating_sub(by)
        };
        new.push(within(one))?;
    }
    Ok(new)
}

/// Doubles the parts of those that are late, or of those that aren't; none is more than a half.
fn double(parts: &mut [u64], late: &[bool], of_late: bool) {
    for k in 0..parts.len() {
        if late.get(k).copied().unwrap_or(false) == of_late {
            parts[k] = parts[k].saturating_mul(2).min(1 << 19);
        }
    }
}

/// At each place the mean.
fn mean_speeds(alloc: Global, first: &[u16], second: &[u16]) -> Result<Vec<u16>, AllocError> {
    let mut means = Vec::with_capacity(alloc, first.len())?;
    for k in 0..first.len() {
        let other = second.get(k).copied().unwrap_or(0);
        means.push(((first[k] as u32 + other as u32 + 1) / 2) as u16)?;
    }
    Ok(means)
}

/// At each place the mean.
fn mean_slowness(alloc: Global, first: &[u64], second: &[u64]) -> Result<Vec<u64>, AllocError> {
    let mut means = Vec::with_capacity(alloc, first.len())?;
    for k in 0..first.len() {
        let other = second.get(k).copied().unwrap_or(first[k]);
        means.push(within(first[k] / 2 + other / 2))?;
    }
    Ok(means)
}

impl Search {
    /// For each timing point whether its block is late: whether one of its timing points would be late if the block before ended just on
    /// time.
    fn late_blocks(&self, blocks: &[usize], arrivals: &[i64]) -> Result<Vec<bool>, AllocError> {
        let mut late = Vec::with_capacity(self.alloc, blocks.len())?;
        let mut ahead: i64 = 0;
        for k in 0..blocks.len() {
            let room = self.course.room(arrivals, k);
            if k > 0 && blocks[k] == k {
                ahead = self.course.room(arrivals, k - 1);
            }
            late.push(room < ahead)?;
        }
        self.spread_late(blocks, late.as_slice())
    }

    /// For each whether any of its block is late.
    fn spread_late(&self, blocks: &[usize], late: &[bool]) -> Result<Vec<bool>, AllocError> {
        let mut spread = Vec::with_capacity(self.alloc, blocks.len())?;
        for block in blocks {
            spread.push(has_late(blocks, late, *block))?;
        }
        Ok(spread)
    }

    /// A side from some speeds: their slowness is changed until no block is late, or until none is on time.
    fn side<C: StepCost>(
        &mut self,
        rules: &Rules,
        cost: &C,
        start: &[u16],
        slowness: &[u64],
        round: Round,
        slower: bool,
    ) -> Result<Option<Side>, AllocError> {
        let alloc = self.alloc;
        let blocks = blocks_of(alloc, slowness)?;
        let mut parts = Vec::with_capacity(alloc, slowness.len())?;
        for _ in 0..slowness.len() {
            parts.push(round.first)?;
        }
        let mut side = Side {
            speeds: Vec::from_slice(alloc, start)?,
            slowness: Vec::from_slice(alloc, slowness)?,
        };
        for _ in 0..if slower { 4 } else { 6 } {
            side.slowness = changed(alloc, slowness, parts.as_slice(), slower)?;
            side.speeds = Vec::from_slice(alloc, start)?;
            self.settle_at(cost, side.slowness.as_slice(), &mut side.speeds, BESIDE)?;
            self.offer(rules, cost, side.speeds.as_slice())?;
            let arrivals = self.course.arrivals(alloc, side.speeds.as_slice())?;
            let late = self.late_blocks(blocks.as_slice(), arrivals.as_slice())?;
            if all_are(late.as_slice(), slower) {
                return Ok(Some(side));
            }
            double(parts.as_mut_slice(), late.as_slice(), !slower);
        }
        Ok(if slower { Some(side) } else { None })
    }

    /// Takes speeds and slowness of the blocks that are late into one side, and those of the others into the other.
    fn narrow(&self, late: &[bool], mean: &Side, fast: &mut Side, slow: &mut Side) {
        for k in 0..late.len() {
            if late[k] {
                self.take_part(k, mean, slow);
            } else {
                self.take_part(k, mean, fast);
            }
        }
    }

    /// Takes the slowness before a timing point, and the speeds of the points there.
    fn take_part(&self, goal: usize, mean: &Side, side: &mut Side) {
        if let Some(slowness) = side.slowness.get_mut(goal) {
            *slowness = mean.slowness.get(goal).copied().unwrap_or(*slowness);
        }
        self.take_leg(goal, mean.speeds.as_slice(), side.speeds.as_mut_slice());
    }

    /// Takes the speeds of the points behind the timing point before up to a timing point.
    fn take_leg(&self, goal: usize, from: &[u16], speeds: &mut [u16]) {
        let first = match self.course.goals.get(goal.wrapping_sub(1)) {
            Some(before) => before.point.saturating_add(1),
            None => 0,
        };
        let last = match self.course.goals.get(goal) {
            Some(at) => at.point,
            None => 0,
        };
        for k in first..last.saturating_add(1) {
            if let Some(speed) = speeds.get_mut(k) {
                *speed = from.get(k).copied().unwrap_or(*speed);
            }
        }
    }

    /// What a late drive would cost on time, scaled: its lateness counts at its prices, and a quarter more.
    fn estimate<C: StepCost>(&self, cost: &C, side: &Side, arrivals: &[i64]) -> i64 {
        let mut most: i64 = 0;
        for k in 0..side.slowness.len() {
            let late = self.course.room(arrivals, k).wrapping_neg().max(0) as u64;
            let price = self.levels.price(side.slowness[k]);
            most = most.max(late.saturating_mul(price).min(1 << 60) as i64);
        }
        match self.course.cost_of(cost, side.speeds.as_slice()) {
            Some(energy) => energy.saturating_add(most).saturating_add(most / 4),
            None => i64::MAX,
        }
    }
}

/// Whether one of a block is late.
fn has_late(blocks: &[usize], late: &[bool], block: usize) -> bool {
    for k in 0..blocks.len() {
        if blocks[k] == block && late.get(k).copied().unwrap_or(false) {
            return true;
        }
    }
    false
}

/// Whether all are so.
fn all_are(late: &[bool], value: bool) -> bool {
    for one in late {
        if *one != value {
            return false;
        }
    }
    true
}

/// The sides of a round, and the late drive that seems best.
#[derive(Drop)]
struct Bracket {
    fast: Side,
    slow: Side,
    near: Option<Near>,
    blocks: Vec<usize>,
}

impl Search {
    /// The sides round some speeds: the faster one is on time in each block. Where none is found the best drive stands for it.
    fn bracket<C: StepCost>(
        &mut self,
        rules: &Rules,
        cost: &C,
        start: &[u16],
        slowness: &[u64],
        round: Round,
    ) -> Result<Bracket, AllocError> {
        let alloc = self.alloc;
        let found = self.side(rules, cost, start, slowness, round, false)?;
        let fast = match found {
            Some(side) => side,
            None => Side {
                speeds: Vec::from_slice(alloc, self.best.as_slice())?,
                slowness: Vec::from_slice(alloc, slowness)?,
            },
        };
        let found = self.side(rules, cost, start, slowness, round, true)?;
        let slow = match found {
            Some(side) => side,
            None => Side {
                speeds: Vec::from_slice(alloc, start)?,
                slowness: Vec::from_slice(alloc, slowness)?,
            },
        };
        Ok(Bracket {
            fast,
            slow,
            near: None,
            blocks: blocks_of(alloc, slowness)?,
        })
    }

    /// The mean of both sides, made a drive; none where there is none near it, and then the slower side becomes the mean.
    fn mean_of<C: StepCost>(
        &mut self,
        cost: &C,
        bracket: &mut Bracket,
        halving: u32,
        round: Round,
    ) -> Result<Option<Side>, AllocError> {
        let alloc = self.alloc;
        let last = halving == HALVINGS;
        let (fast, slow) = (&bracket.fast, &bracket.slow);
        let other = if last { fast } else { slow };
        let speeds = mean_speeds(alloc, fast.speeds.as_slice(), other.speeds.as_slice())?;
        let slowness = mean_slowness(alloc, fast.slowness.as_slice(), other.slowness.as_slice())?;
        let mut mean = Side { speeds, slowness };
        let middle = Vec::from_slice(alloc, mean.speeds.as_slice())?;
        let look = look_at(halving, round);
        if !self.settle_at(cost, mean.slowness.as_slice(), &mut mean.speeds, look)? {
            bracket.slow.speeds = middle;
            return Ok(None);
        }
        if halving < round.wide {
            self.settle_at(cost, mean.slowness.as_slice(), &mut mean.speeds, AGAIN)?;
        }
        Ok(Some(mean))
    }

    /// One halving: the mean of both sides takes the place of the slower one in each block that is late, and else of the faster one.
    fn halve<C: StepCost>(
        &mut self,
        rules: &Rules,
        cost: &C,
        bracket: &mut Bracket,
        halving: u32,
        round: Round,
    ) -> Result<(), AllocError> {
        let Some(mean) = self.mean_of(cost, bracket, halving, round)? else {
            return Ok(());
        };
        let arrivals = self.course.arrivals(self.alloc, mean.speeds.as_slice())?;
        let late = self.late_blocks(bracket.blocks.as_slice(), arrivals.as_slice())?;
        self.narrow(late.as_slice(), &mean, &mut bracket.fast, &mut bracket.slow);
        self.offer(rules, cost, mean.speeds.as_slice())?;
        if self.least_room(arrivals.as_slice()) < 0 {
            let estimate = self.estimate(cost, &mean, arrivals.as_slice());
            let is_better = match &bracket.near {
                Some(near) => estimate < near.estimate,
                None => true,
            };
            if is_better {
                bracket.near = Some(Near {
                    speeds: mean.speeds,
                    slowness: mean.slowness,
                    estimate,
                });
            }
        }
        Ok(())
    }

    /// A round of halvings from some speeds; the slowness becomes that of the faster side. At the end the late drive that seems best is
    /// mended.
    pub(crate) fn round<C: StepCost>(
        &mut self,
        rules: &Rules,
        cost: &C,
        start: &[u16],
        slowness: &mut Vec<u64>,
        round: Round,
    ) -> Result<(), AllocError> {
        let mut bracket = self.bracket(rules, cost, start, slowness.as_slice(), round)?;
        for halving in 0..HALVINGS + 1 {
            self.halve(rules, cost, &mut bracket, halving, round)?;
        }
        let Bracket {
            fast,
            slow: _,
            near,
            blocks: _,
        } = bracket;
        *slowness = fast.slowness;
        match near {
            Some(near) => self.mend(rules, cost, near),
            None => Ok(()),
        }
    }

    /// Raises stretches of a late drive where that is cheap, until it is on time, and offers it.
    fn mend<C: StepCost>(&mut self, rules: &Rules, cost: &C, near: Near) -> Result<(), AllocError> {
        if near.estimate >= self.course.scale.of(self.least) {
            return Ok(());
        }
        let prices = self.levels.prices(self.alloc, near.slowness.as_slice())?;
        let mut speeds = near.speeds;
        let mut arrivals = self.course.arrivals(self.alloc, speeds.as_slice())?;
        for k in 0..44u32 {
            if self.least_room(arrivals.as_slice()) >= 0 {
                break;
            }
            let way = Nudge {
                by: 1 << (k % 4 * 2),
                raises: true,
                weight: 5 << (k / 4),
            };
            nudge_drive(
                &self.course,
                cost,
                prices.as_slice(),
                speeds.as_mut_slice(),
                arrivals.as_mut_slice(),
                way,
            );
        }
        self.offer(rules, cost, speeds.as_slice())
    }
}
