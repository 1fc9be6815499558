//! The best drive so far, and how another is tried against it.
ghost use Rattle.std.specs.Prelude.{◌≡◌, ◌≤◌, ◌≤ℤ◌, IfOk, OnOk, IfSome, IfNone};
ghost use Rattle.rail_specs.specs.Rules.{IsDrive};
ghost use Rattle.rail_specs.specs.Ranges.{IsGreatestNarrowDrive};
ghost use Rattle.rail_specs.specs.Times.{IsOnTimeUp};
ghost use Rattle.speed_envelopes.specs.Narrowing.{IsNarrowerThan};
ghost use Rattle.phase_composer.specs.Best.{IsTimely, NoneOnTimeUnder, IsKeptDrive, Beats};

use drive_rules::{Drive, Judged, Rules};
use rail_base::StepCost;
use rail_specs::Narrow;
use speed_envelopes::{faster_is_on_time, greatest_from};
use std::alloc::{AllocError, Global};

/// A drive that is on time, and its cost.
#[derive(Drop)]
pub struct Kept {
    /// The drive.
    pub drive: Drive,
    /// What it costs, in 0.5 microjoule.
    pub cost: i128,
}

/// A greatest drive, and the narrowing under which it is the greatest.
#[derive(Drop)]
pub(crate) struct Known {
    pub(crate) narrow: Narrow,
    pub(crate) drive: Drive,
}

impl Known {
    /// An equal one of its own.
    pub(crate) fn copy(&self, alloc: Global) -> Result<Known, AllocError>
        ensures narrow { IfOk result (λ known. known.narrow ≡ self.now.narrow) }
        ensures drive { IfOk result (λ known. known.drive ≡ self.now.drive) }
    {
        let drive = Drive::make(alloc, self.drive.speeds())?;
        Ok(Known {
            narrow: self.narrow,
            drive,
        })
    }
}

/// A drive with its cost, where it is on time.
pub(crate) fn judged<C: StepCost>(rules: &Rules, cost: &C, drive: Drive) -> Option<Kept>
    ensures some { IfSome result (λ kept. (kept.drive ≡ drive) × IsKeptDrive (C.cost cost.now) rules.now kept.drive kept.cost) }
    ensures none { IfNone result (IsDrive rules.now drive → IsOnTimeUp rules.now drive → ⊥) }
{
    match rules.judge(drive.speeds(), cost) {
        Judged::Kept { cost } => Some(Kept { drive, cost }),
        Judged::Broken(..) => None,
    }
}

/// Tries the greatest drive under a narrowing: it is kept as the best where it is on time and costs less. None exactly where no
/// drive under the narrowing is on time.
///
/// It is found from `known`, the greatest drive under a wider narrowing.
pub(crate) fn tried<C: StepCost>(
    alloc: Global,
    rules: &Rules,
    cost: &C,
    narrow: &Narrow,
    known: &Known,
    best: &mut Kept,
) -> Result<Option<Known>, AllocError>
    requires narrower { IsNarrowerThan narrow.now known.now.narrow }
    requires known { IsGreatestNarrowDrive rules.now known.now.narrow known.now.drive }
    requires kept { IsKeptDrive (C.cost cost.now) rules.now best.old.drive best.old.cost }
    ensures some { IfOk result (λ found. IfSome found (λ k. (k.narrow ≡ narrow.now) × IsTimely rules.now narrow.now k.drive)) }
    ensures none { IfOk result (λ found. IfNone found (NoneOnTimeUnder rules.now narrow.now)) }
    ensures beats { OnOk result (Beats (C.cost cost.now) rules.now narrow.now best.new.cost) }
    ensures kept { IsKeptDrive (C.cost cost.now) rules.now best.new.drive best.new.cost }
    ensures no_worse { best.new.cost ≤ℤ best.old.cost }
{
    rules.known();
    faster_is_on_time();
    let Some(drive) = greatest_from(alloc, rules, narrow, &known.narrow, &known.drive)? else {
        return Ok(None);
    };
    let Some(kept) = judged(rules, cost, drive) else {
        return Ok(None);
    };
    if kept.cost < best.cost {
        let copy = Drive::make(alloc, kept.drive.speeds())?;
        *best = Kept {
            drive: copy,
            cost: kept.cost,
        };
    }
    Ok(Some(Known {
        narrow: *narrow,
        drive: kept.drive,
    }))
}
