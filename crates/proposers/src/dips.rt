//! Drives that are slower at one point.
ghost use Rattle.std.specs.Prelude.{◌≡◌, ◌≤◌, ◌<◌, ◌+◌, ℕ, [], length, slice_index, vec_len, IfOk, OnOk, OnErr};
ghost use Rattle.rail_specs.specs.Rules.{IsDrive};
ghost use Rattle.proposers.specs.States.{Rose, Takes, state};
ghost use Rattle.proposers.specs.Offers.{dip, dip_points, dips};

use crate::proposer::Proposer;
use drive_rules::{Drive, Rules};
use std::alloc::{AllocError, Global};

/// Offers, for each point between the first and the last whose speed is at least 2 cm/s, the given speeds with that one lowered by 1.
#[derive(Drop)]
pub struct Dips {
    given: Vec<u16>,
    /// The points at which the given speeds are lowered.
    points: Vec<u32>,
    /// How many of them were taken.
    at: usize,
    begun: u64,
    ghost taken_of: { at ≤ vec_len points },
    ghost few: { vec_len points ≤ 4096 },
    ghost within: { (i : ℕ) → i < vec_len points → slice_index points.items i < vec_len given },
}

impl Dips {
    /// A box that was never begun. It takes no memory.
    pub fn new(alloc: Global) -> Dips
        ensures { state (⟦<Dips as Proposer>⟧.offers result) (⟦<Dips as Proposer>⟧.takes result) (⟦<Dips as Proposer>⟧.begins result) ≡ state [] [] 0 }
    {
        Dips {
            given: Vec::new(alloc),
            points: Vec::new(alloc),
            at: 0,
            begun: 0,
        }
    }
}

impl Proposer for Dips {
    ghost use Rattle.std.specs.Prelude.{map, drop, take};
    ghost use Rattle.proposers.specs.Offers.{dip};

    ghost offers = { λ s. map (dip s.given.items) (drop s.at s.points.items) };

    ghost takes = { λ s. map (dip s.given.items) (take s.at s.points.items) };

    ghost begins = { λ s. s.begun };

    fn begin(&mut self, alloc: Global, rules: &Rules, drive: &Drive) -> Result<(), AllocError>
        requires { IsDrive rules.now drive.now }
        ensures few { OnOk result (length (⟦<Dips as Proposer>⟧.offers self.new) ≤ 4096) }
        ensures fresh { OnOk result (⟦<Dips as Proposer>⟧.takes self.new ≡ []) }
        ensures counted { OnOk result (Rose (⟦<Dips as Proposer>⟧.begins self.old) (⟦<Dips as Proposer>⟧.begins self.new)) }
        ensures refused { OnErr result (state (⟦<Dips as Proposer>⟧.offers self.new) (⟦<Dips as Proposer>⟧.takes self.new) (⟦<Dips as Proposer>⟧.begins self.new) ≡ state (⟦<Dips as Proposer>⟧.offers self.old) (⟦<Dips as Proposer>⟧.takes self.old) (⟦<Dips as Proposer>⟧.begins self.old)) }
        ensures offered { OnOk result (⟦<Dips as Proposer>⟧.offers self.new ≡ dips drive.now) }
    {
        let _steps = rules.steps();
        let given = Vec::from_slice(alloc, drive.speeds())?;
        let points = points_to_lower(alloc, drive.speeds())?;
        self.given = given;
        self.points = points;
        self.at = 0;
        self.begun = self.begun.saturating_add(1);
        Ok(())
    }

    fn next(&mut self, alloc: Global) -> Result<Option<Drive>, AllocError> {
        if self.at == self.points.len() {
            return Ok(None);
        }
        let drive = lowered(alloc, self.given.as_slice(), self.points[self.at])?;
        self.at += 1;
        Ok(Some(drive))
    }

    fn taken(&self) -> u32 {
        self.at as u32
    }
}

/// The points between the first and the last whose speed is at least 2.
fn points_to_lower(alloc: Global, speeds: &[u16]) -> Result<Vec<u32>, AllocError>
    requires some { 2 ≤ length speeds.now }
    requires few { length speeds.now ≤ 4001 }
    ensures points { IfOk result (λ points. points.items ≡ dip_points speeds.now) }
    ensures few { IfOk result (λ points. length points.items ≤ 4096) }
    ensures within { IfOk result (λ points. (i : ℕ) → i < length points.items → slice_index points.items i < length speeds.now) }
{
    let mut points = Vec::new(alloc);
    for i in 0..speeds.len() - 2 {
        if speeds[i + 1] >= 2 {
            points.push(i as u32 + 1)?;
        }
    }
    Ok(points)
}

/// The speeds with that at point k lowered by 1.
fn lowered(alloc: Global, speeds: &[u16], k: u32) -> Result<Drive, AllocError>
    requires { k < length speeds.now }
    ensures { IfOk result (λ drive. drive ≡ dip speeds.now k) }
{
    let mut copy = Vec::from_slice(alloc, speeds)?;
    copy[k as usize] = speeds[k as usize].saturating_sub(1);
    Drive::make(alloc, copy.as_slice())
}
