//! A box that offers one drive.
ghost use Rattle.std.specs.Prelude.{◌≡◌, ◌≤◌, ◌+◌, ℕ, [], length, vec_len, IfOk, OnOk, OnErr};
ghost use Rattle.rail_specs.specs.Rules.{IsDrive};
ghost use Rattle.proposers.specs.States.{Rose, Takes, state};

use drive_rules::{Drive, Rules};
use proposers::Proposer;
use std::alloc::{AllocError, Global};

/// Offers the same drive each time that it begins, whatever it begins with.
#[derive(Drop)]
pub struct Offering {
    drives: Vec<Drive>,
    /// How many of them were taken.
    at: usize,
    begun: u64,
    ghost taken_of: { at ≤ vec_len drives },
    ghost few: { vec_len drives ≤ 4096 },
}

impl Offering {
    /// A box that offers these speeds.
    pub fn make(alloc: Global, speeds: &[u16]) -> Result<Offering, AllocError> {
        let mut drives = Vec::new(alloc);
        drives.push(Drive::make(alloc, speeds)?)?;
        Ok(Offering {
            drives,
            at: 0,
            begun: 0,
        })
    }
}

impl Proposer for Offering {
    ghost use Rattle.std.specs.Prelude.{drop, take};

    ghost offers = { λ s. drop s.at s.drives.items };

    ghost takes = { λ s. take s.at s.drives.items };

    ghost begins = { λ s. s.begun };

    fn begin(&mut self, _alloc: Global, rules: &Rules, drive: &Drive) -> Result<(), AllocError>
        requires { IsDrive rules.now drive.now }
        ensures few { OnOk result (length (⟦<Offering as Proposer>⟧.offers self.new) ≤ 4096) }
        ensures fresh { OnOk result (⟦<Offering as Proposer>⟧.takes self.new ≡ []) }
        ensures counted { OnOk result (Rose (⟦<Offering as Proposer>⟧.begins self.old) (⟦<Offering as Proposer>⟧.begins self.new)) }
        ensures refused { OnErr result (state (⟦<Offering as Proposer>⟧.offers self.new) (⟦<Offering as Proposer>⟧.takes self.new) (⟦<Offering as Proposer>⟧.begins self.new) ≡ state (⟦<Offering as Proposer>⟧.offers self.old) (⟦<Offering as Proposer>⟧.takes self.old) (⟦<Offering as Proposer>⟧.begins self.old)) }
    {
        let _points = (rules.points(), drive.speeds().len());
        self.at = 0;
        self.begun = self.begun.saturating_add(1);
        Ok(())
    }

    fn next(&mut self, alloc: Global) -> Result<Option<Drive>, AllocError> {
        if self.at == self.drives.len() {
            return Ok(None);
        }
        let drive = Drive::make(alloc, self.drives[self.at].speeds())?;
        self.at += 1;
        Ok(Some(drive))
    }

    fn taken(&self) -> u32 {
        self.at as u32
    }
}
