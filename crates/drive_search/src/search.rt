//! The state of a search: the best drive so far, and what all its parts need.
use crate::levels::{Levels, set_levels};
use crate::run_course::course_of;
use drive_rules::{Drive, Judged, Rules};
use rail_base::StepCost;
use rail_specs::Narrow;
use speed_envelopes::ranges;
use speed_windows::{Course, Desk, Look, Nudge, nudge_drive, settle};
use std::alloc::{AllocError, Global};

/// The state of a search.
#[derive(Drop)]
pub(crate) struct Search {
    pub(crate) alloc: Global,
    pub(crate) course: Course,
    pub(crate) desk: Desk,
    pub(crate) levels: Levels,
    /// The speeds of the best drive so far.
    pub(crate) best: Vec<u16>,
    /// What they cost.
    pub(crate) least: i128,
}

impl Search {
    /// The search from a drive that costs this much. None where there is no drive.
    pub(crate) fn new(
        alloc: Global,
        rules: &Rules,
        drive: &Drive,
        energy: i128,
    ) -> Result<Option<Search>, AllocError> {
        let Some(ranges) = ranges(alloc, rules, &Narrow::none())? else {
            return Ok(None);
        };
        let mut course = course_of(alloc, rules, &ranges)?;
        let arrivals = course.arrivals(alloc, drive.speeds())?;
        let time = arrivals.last().copied().unwrap_or(1);
        let levels = set_levels(&mut course, drive.speeds(), energy, time);
        let desk = Desk::new(alloc, course.steps.len())?;
        Ok(Some(Search {
            alloc,
            course,
            desk,
            levels,
            best: Vec::from_slice(alloc, drive.speeds())?,
            least: energy,
        }))
    }

    /// Takes speeds for the best where they are a drive on time that costs less.
    pub(crate) fn offer<C: StepCost>(
        &mut self,
        rules: &Rules,
        cost: &C,
        speeds: &[u16],
    ) -> Result<(), AllocError> {
        match rules.judge(speeds, cost) {
            Judged::Kept { cost } if cost < self.least => {
                self.best = Vec::from_slice(self.alloc, speeds)?;
                self.least = cost;
                Ok(())
            }
            _ => Ok(()),
        }
    }

    /// `settle` at the prices of a slowness before each timing point.
    pub(crate) fn settle_at<C: StepCost>(
        &mut self,
        cost: &C,
        slowness: &[u64],
        speeds: &mut Vec<u16>,
        look: Look,
    ) -> Result<bool, AllocError> {
        let prices = self.levels.prices(self.alloc, slowness)?;
        let (desk, course) = (&mut self.desk, &self.course);
        settle(
            self.alloc,
            desk,
            course,
            cost,
            prices.as_slice(),
            speeds,
            look,
        )
    }

    /// The least time that is left at a timing point, ms: less than 0 where the drive is late.
    pub(crate) fn least_room(&self, arrivals: &[i64]) -> i64 {
        let mut least = i64::MAX;
        for k in 0..self.course.goals.len() {
            least = least.min(self.course.room(arrivals, k));
        }
        least
    }

    /// Nudges speeds once by each of some amounts, and offers them.
    pub(crate) fn lower_best<C: StepCost>(
        &mut self,
        rules: &Rules,
        cost: &C,
        slowness: &[u64],
        weight: i64,
    ) -> Result<(), AllocError> {
        let prices = self.levels.prices(self.alloc, slowness)?;
        let mut speeds = Vec::from_slice(self.alloc, self.best.as_slice())?;
        let mut arrivals = self.course.arrivals(self.alloc, speeds.as_slice())?;
        for halvings in 0..7u32 {
            let way = Nudge {
                by: 64 >> halvings,
                raises: false,
                weight,
            };
            nudge_drive(
                &self.course,
                cost,
                prices.as_slice(),
                speeds.as_mut_slice(),
                arrivals.as_mut_slice(),
                way,
            );
        }
        self.offer(rules, cost, speeds.as_slice())
    }
}

impl Search {
    /// The price of a ms for each timing point alone, in 0.5 microjoule: what a ms of the steps before it costs more than of those behind.
    pub(crate) fn goal_prices(&self, slowness: &[u64]) -> Result<Vec<u64>, AllocError> {
        let mut prices = Vec::with_capacity(self.alloc, slowness.len())?;
        for k in 0..slowness.len() {
            let here = self.levels.price(slowness[k]);
            let next = match slowness.get(k.saturating_add(1)) {
                Some(behind) => self.levels.price(*behind),
                None => 0,
            };
            prices.push(self.course.scale.unscaled(here.saturating_sub(next)))?;
        }
        Ok(prices)
    }
}
