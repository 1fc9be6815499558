//! Drives that coast to a stop, and are nowhere faster than the given one.
ghost use Rattle.std.specs.Prelude.{◌≡◌, ◌≤◌, ◌+◌, ℕ, [], length, vec_len, IfOk, OnOk, OnErr};
ghost use Rattle.rail_specs.specs.Rules.{IsDrive};
ghost use Rattle.proposers.specs.States.{Rose, Takes, state};
ghost use Rattle.proposers.specs.Offers.{AreLateCoasting, lesser as lesser_of};

use crate::proposer::Proposer;
use drive_rules::{Drive, Rules};
use speed_envelopes::{coasting, greatest_under};
use std::alloc::{AllocError, Global};

/// Offers, for each k from 0 to 63, at each point the lesser of the given speed and of that of the greatest drive without traction from
/// point `floor(k n / 64)` of `n` steps to the next stop, where that drive exists.
#[derive(Drop)]
pub struct LateCoasting {
    /// The drives to offer.
    made: Vec<Drive>,
    /// How many of them were taken.
    at: usize,
    begun: u64,
    ghost taken_of: { at ≤ vec_len made },
    ghost few: { vec_len made ≤ 4096 },
}

impl LateCoasting {
    /// A box that was never begun. It takes no memory.
    pub fn new(alloc: Global) -> LateCoasting
        ensures { state (⟦<LateCoasting as Proposer>⟧.offers result) (⟦<LateCoasting as Proposer>⟧.takes result) (⟦<LateCoasting as Proposer>⟧.begins result) ≡ state [] [] 0 }
    {
        LateCoasting {
            made: Vec::new(alloc),
            at: 0,
            begun: 0,
        }
    }
}

impl Proposer for LateCoasting {
    ghost use Rattle.std.specs.Prelude.{drop, take};

    ghost offers = { λ s. drop s.at s.made.items };

    ghost takes = { λ s. take s.at s.made.items };

    ghost begins = { λ s. s.begun };

    fn begin(&mut self, alloc: Global, rules: &Rules, drive: &Drive) -> Result<(), AllocError>
        requires { IsDrive rules.now drive.now }
        ensures few { OnOk result (length (⟦<LateCoasting as Proposer>⟧.offers self.new) ≤ 4096) }
        ensures fresh { OnOk result (⟦<LateCoasting as Proposer>⟧.takes self.new ≡ []) }
        ensures counted { OnOk result (Rose (⟦<LateCoasting as Proposer>⟧.begins self.old) (⟦<LateCoasting as Proposer>⟧.begins self.new)) }
        ensures refused { OnErr result (state (⟦<LateCoasting as Proposer>⟧.offers self.new) (⟦<LateCoasting as Proposer>⟧.takes self.new) (⟦<LateCoasting as Proposer>⟧.begins self.new) ≡ state (⟦<LateCoasting as Proposer>⟧.offers self.old) (⟦<LateCoasting as Proposer>⟧.takes self.old) (⟦<LateCoasting as Proposer>⟧.begins self.old)) }
        ensures offered { OnOk result (AreLateCoasting rules.now drive.now 64 (⟦<LateCoasting as Proposer>⟧.offers self.new)) }
    {
        let made = late_coasting(alloc, rules, drive.speeds())?;
        self.made = made;
        self.at = 0;
        self.begun = self.begun.saturating_add(1);
        Ok(())
    }

    fn next(&mut self, alloc: Global) -> Result<Option<Drive>, AllocError> {
        if self.at == self.made.len() {
            return Ok(None);
        }
        let drive = Drive::make(alloc, self.made[self.at].speeds())?;
        self.at += 1;
        Ok(Some(drive))
    }

    fn taken(&self) -> u32 {
        self.at as u32
    }
}

/// At each point the lesser of two drives' speeds.
fn lesser(alloc: Global, first: &[u16], second: &[u16]) -> Result<Drive, AllocError>
    requires { length second.now ≡ length first.now }
    ensures { IfOk result (λ drive. drive ≡ lesser_of first.now second.now) }
{
    let mut speeds = Vec::new(alloc);
    for k in 0..first.len() {
        speeds.push(first[k].min(second[k]))?;
    }
    Drive::make(alloc, speeds.as_slice())
}

/// The drives that the box offers.
fn late_coasting(alloc: Global, rules: &Rules, speeds: &[u16]) -> Result<Vec<Drive>, AllocError>
    requires { IsDrive rules.now speeds.now }
    ensures made { IfOk result (λ made. AreLateCoasting rules.now speeds.now 64 made.items) }
    ensures few { IfOk result (λ made. length made.items ≤ 64) }
{
    let mut made = Vec::new(alloc);
    for k in 0..64 {
        let narrow = coasting(rules, 12_000, k);
        if let Some(greatest) = greatest_under(alloc, rules, &narrow)? {
            made.push(lesser(alloc, speeds, greatest.speeds())?)?;
        }
    }
    Ok(made)
}
