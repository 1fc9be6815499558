//! A box that offers what it was told.
ghost use Rattle.std.specs.Prelude.{◌≡◌, ◌≤◌, ◌+◌, ℕ, [], length, vec_len, IfOk, OnOk, OnErr};
ghost use Rattle.rail_specs.specs.Rules.{IsDrive};
ghost use Rattle.proposers.specs.States.{Rose, Takes, state};

use drive_rules::{Drive, Rules};
use proposers::Proposer;
use std::alloc::{AllocError, Global};
use std::cell::Cell;
use std::rc::Rc;

/// Counts that it was dropped, in a number that others see too.
pub(crate) struct Tally {
    pub(crate) drops: Rc<Cell<u32>>,
}

impl Drop for Tally {
    fn drop(self) {
        let Tally { drops } = self;
        drops.set(drops.get().saturating_add(1));
    }
}

/// Offers the same drives each time that it begins, whatever it begins with, and gives at most so many of them: from then on it answers
/// that it wants memory.
#[derive(Drop)]
pub(crate) struct Listed {
    drives: Vec<Drive>,
    /// How many of them were taken.
    at: usize,
    gives: usize,
    begun: u64,
    tally: Tally,
    ghost taken_of: { at ≤ vec_len drives },
    ghost few: { vec_len drives ≤ 4096 },
}

impl Listed {
    /// A box with these offers, of which it gives so many; none where there are more than 4,096.
    pub(crate) fn make(
        alloc: Global,
        offers: &[&[u16]],
        gives: usize,
        drops: &Rc<Cell<u32>>,
    ) -> Result<Option<Listed>, AllocError> {
        let mut drives = Vec::new(alloc);
        for offer in offers {
            drives.push(Drive::make(alloc, *offer)?)?;
        }
        let drops = drops.clone()?;
        if drives.len() > 4096 {
            return Ok(None);
        }
        Ok(Some(Listed {
            drives,
            at: 0,
            gives,
            begun: 0,
            tally: Tally { drops },
        }))
    }
}

impl Proposer for Listed {
    ghost use Rattle.std.specs.Prelude.{drop, take};

    ghost offers = { λ s. drop s.at s.drives.items };

    ghost takes = { λ s. take s.at s.drives.items };

    ghost begins = { λ s. s.begun };

    fn begin(&mut self, _alloc: Global, rules: &Rules, drive: &Drive) -> Result<(), AllocError>
        requires { IsDrive rules.now drive.now }
        ensures few { OnOk result (length (⟦<Listed as Proposer>⟧.offers self.new) ≤ 4096) }
        ensures fresh { OnOk result (⟦<Listed as Proposer>⟧.takes self.new ≡ []) }
        ensures counted { OnOk result (Rose (⟦<Listed as Proposer>⟧.begins self.old) (⟦<Listed as Proposer>⟧.begins self.new)) }
        ensures refused { OnErr result (state (⟦<Listed as Proposer>⟧.offers self.new) (⟦<Listed as Proposer>⟧.takes self.new) (⟦<Listed as Proposer>⟧.begins self.new) ≡ state (⟦<Listed as Proposer>⟧.offers self.old) (⟦<Listed as Proposer>⟧.takes self.old) (⟦<Listed as Proposer>⟧.begins self.old)) }
    {
        let _points = (rules.points(), drive.speeds().len());
        self.at = 0;
        self.begun = self.begun.saturating_add(1);
        Ok(())
    }

    fn next(&mut self, alloc: Global) -> Result<Option<Drive>, AllocError> {
        if self.at == self.drives.len() {
            return Ok(None);
        }
        if self.at >= self.gives {
            return Err(AllocError);
        }
        let drive = Drive::make(alloc, self.drives[self.at].speeds())?;
        self.at += 1;
        Ok(Some(drive))
    }

    fn taken(&self) -> u32 {
        self.at as u32
    }
}
