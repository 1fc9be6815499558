//! Drives that brake earlier before a stop.
ghost use Rattle.std.specs.Prelude.{◌≡◌, ◌≤◌, ◌<◌, ◌+◌, ◌*◌, ℕ, [], length, min, slice_index, vec_len, IfOk, OnOk, OnErr};
ghost use Rattle.rail_specs.specs.Rules.{IsDrive};
ghost use Rattle.proposers.specs.States.{Rose, Takes, state};
ghost use Rattle.proposers.specs.Offers.{braked as braked_of, braked_at, early_braking, early_count, stops_ahead};

use crate::proposer::Proposer;
use drive_rules::{Drive, Rules};
use std::alloc::{AllocError, Global};

/// Offers, for each stop after the first point and each `d` from 1 to 16, the given speeds with those of the `d` points before the stop,
/// after the first point, lowered by 1 where they are at least 2: the first 4,096 of these.
#[derive(Drop)]
pub struct EarlyBraking {
    given: Vec<u16>,
    /// The stops after the first point.
    stops: Vec<u32>,
    /// How many drives there are to offer.
    count: usize,
    /// How many of them were taken.
    at: usize,
    begun: u64,
    ghost taken_of: { at ≤ count },
    ghost few: { count ≤ 4096 },
    ghost within: { count ≤ 16 * vec_len stops },
}

impl EarlyBraking {
    /// A box that was never begun. It takes no memory.
    pub fn new(alloc: Global) -> EarlyBraking
        ensures { state (⟦<EarlyBraking as Proposer>⟧.offers result) (⟦<EarlyBraking as Proposer>⟧.takes result) (⟦<EarlyBraking as Proposer>⟧.begins result) ≡ state [] [] 0 }
    {
        EarlyBraking {
            given: Vec::new(alloc),
            stops: Vec::new(alloc),
            count: 0,
            at: 0,
            begun: 0,
        }
    }
}

impl Proposer for EarlyBraking {
    ghost use Rattle.std.specs.Prelude.{map, ◌-◌};
    ghost use Rattle.std.specs.List.{range_with_len};
    ghost use Rattle.proposers.specs.Offers.{early};

    ghost offers = { λ s. map (early s.given.items s.stops.items) (range_with_len s.at (s.count - s.at)) };

    ghost takes = { λ s. map (early s.given.items s.stops.items) (range_with_len 0 s.at) };

    ghost begins = { λ s. s.begun };

    fn begin(&mut self, alloc: Global, rules: &Rules, drive: &Drive) -> Result<(), AllocError>
        requires { IsDrive rules.now drive.now }
        ensures few { OnOk result (length (⟦<EarlyBraking as Proposer>⟧.offers self.new) ≤ 4096) }
        ensures fresh { OnOk result (⟦<EarlyBraking as Proposer>⟧.takes self.new ≡ []) }
        ensures counted { OnOk result (Rose (⟦<EarlyBraking as Proposer>⟧.begins self.old) (⟦<EarlyBraking as Proposer>⟧.begins self.new)) }
        ensures refused { OnErr result (state (⟦<EarlyBraking as Proposer>⟧.offers self.new) (⟦<EarlyBraking as Proposer>⟧.takes self.new) (⟦<EarlyBraking as Proposer>⟧.begins self.new) ≡ state (⟦<EarlyBraking as Proposer>⟧.offers self.old) (⟦<EarlyBraking as Proposer>⟧.takes self.old) (⟦<EarlyBraking as Proposer>⟧.begins self.old)) }
        ensures offered { OnOk result (⟦<EarlyBraking as Proposer>⟧.offers self.new ≡ early_braking rules.now drive.now) }
    {
        let given = Vec::from_slice(alloc, drive.speeds())?;
        let stops = stops_of(alloc, rules)?;
        self.count = offers_before(stops.len());
        self.given = given;
        self.stops = stops;
        self.at = 0;
        self.begun = self.begun.saturating_add(1);
        Ok(())
    }

    fn next(&mut self, alloc: Global) -> Result<Option<Drive>, AllocError> {
        if self.at == self.count {
            return Ok(None);
        }
        let stop = self.stops[self.at / 16] as usize;
        let drive = braked(alloc, self.given.as_slice(), stop, self.at % 16 + 1)?;
        self.at += 1;
        Ok(Some(drive))
    }

    fn taken(&self) -> u32 {
        self.at as u32
    }
}

/// How many drives are offered before so many stops.
fn offers_before(stops: usize) -> usize
    ensures { result ≡ early_count stops }
{
    if stops < 256 { 16 * stops } else { 4096 }
}

/// The stops after the first point.
fn stops_of(alloc: Global, rules: &Rules) -> Result<Vec<u32>, AllocError>
    ensures { IfOk result (λ stops. stops.items ≡ stops_ahead rules.now) }
{
    rules.known();
    let mut stops = Vec::new(alloc);
    for i in 0..rules.steps() {
        if rules.stop(i + 1) {
            stops.push(i as u32 + 1)?;
        }
    }
    Ok(stops)
}

/// The speed at point k, lowered by 1 where the point is one of the `d` before a stop, after the first point, and the speed at least 2.
fn braked_speed(speed: u16, k: usize, stop: usize, d: usize) -> u16
    ensures { result ≡ braked_at speed k stop d }
{
    if 0 < k && stop.saturating_sub(d) <= k && k < stop && 2 <= speed {
        speed - 1
    } else {
        speed
    }
}

/// The speeds with those of the `d` points before a stop, after the first point, lowered by 1 where they are at least 2.
fn braked(alloc: Global, speeds: &[u16], stop: usize, d: usize) -> Result<Drive, AllocError>
    ensures { IfOk result (λ drive. drive ≡ braked_of speeds.now stop d) }
{
    let mut lowered = Vec::new(alloc);
    for k in 0..speeds.len() {
        lowered.push(braked_speed(speeds[k], k, stop, d))?;
    }
    Drive::make(alloc, lowered.as_slice())
}
