//! The steps of joined rules.

ghost use Rattle.std.specs.Prelude.{◌≡◌, ◌+◌, ◌-◌, ◌<◌, ◌≤◌, ℕ, length, slice_index, IfOk, IfErr};
ghost use Rattle.line_file.specs.Shape.{IsLine};
ghost use Rattle.train_file.specs.Shape.{IsTrain};
ghost use Rattle.joined_rules.specs.JoinedParts.{AreCut, CountsSteps, RefusesRows, IsCourse};

use crate::fault::RulesFault;
use crate::rows::rows_of_steps;
use crate::sections::{limits_of_steps, values_of_steps};
use crate::setup::Setup;
use line_file::Line;
use std::alloc::Global;
use std::sync::ledger::Ledger;
use step_energy::{StepRow, Steps};
use train_file::Train;

/// The steps of joined rules.
#[derive(Drop)]
pub(crate) struct Course {
    /// Per step: its row.
    pub rows: Vec<StepRow>,
    /// Per step: its speed limit, cm/s.
    pub limits: Vec<u16>,
}

/// The steps between places, or the first with too great a drag. It counts a step for each row that it makes, the
/// refused one too.
pub(crate) fn course_over<L: Ledger>(
    alloc: Global,
    line: &Line,
    train: &Train,
    setup: &Setup,
    places: &[u32],
    steps: &mut Steps<L>,
) -> Result<Course, RulesFault>
    requires line { IsLine line.now }
    requires train { IsTrain train.now }
    requires limits { AreCut line.now.limits places.now }
    requires gradients { AreCut line.now.gradients places.now }
    requires some { 1 ≤ length places.now }
    requires few { length places.now ≤ 4001 }
    requires short { (i : ℕ) → i + 1 < length places.now → slice_index places.now (i + 1) ≤ slice_index places.now i + 1000 }
    ensures made { IfOk result (IsCourse line.now train.now setup.now places.now) }
    ensures refused { IfErr result (RefusesRows train.now places.now (length places.now - 1)) }
    ensures counted { CountsSteps result (length places.now - 1) steps.old steps.new }
{
    let gradients = values_of_steps(alloc, line.gradients.items(), places)?;
    let rows = rows_of_steps(alloc, train, &gradients, places, steps)?;
    let limits = limits_of_steps(
        alloc,
        line.limits.items(),
        setup.stretches.items(),
        train.length,
        places,
    )?;
    Ok(Course { rows, limits })
}
