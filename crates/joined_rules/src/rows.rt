//! The rows of the steps.

ghost use Rattle.std.specs.Prelude.{◌≡◌, ◌+◌, ◌<◌, ◌≤◌, ℕ, ℤ, pos, negsuc, ◌≤ℤ◌, length, slice_index, slice_index_or, ◌++◌, ◌∷◌, [], OnOk, IfOk, IfErr};
ghost use Rattle.rail_specs.specs.Step.{step_of_train, IsInRange};
ghost use Rattle.train_file.specs.Shape.{numbers_of, IsTrain};
ghost use Rattle.joined_rules.specs.JoinedParts.{AreRows, CountsSteps, RefusesRows};

use crate::fault::RulesFault;
use rail_specs::StepNumbers;
use std::alloc::{AllocError, Global};
use std::sync::ledger::Ledger;
use step_energy::{StepRow, Steps};
use train_file::Train;

/// The numbers of a train's step of this length and gradient.
fn step_numbers(train: &Train, metres: u32, gradient: i32) -> StepNumbers
    requires train { IsTrain train.now }
    requires long { 1 ≤ metres }
    requires short { metres ≤ 1000 }
    requires down { negsuc 999 ≤ℤ gradient }
    requires up { gradient ≤ℤ pos 1000 }
    ensures value { result ≡ step_of_train (numbers_of train.now) metres gradient }
    ensures in_range { IsInRange result }
{
    train.numbers().step(metres as u16, gradient as i16)
}

/// Appends a row. Want of memory for it becomes an `AllocError`, which a `RulesFault` is made from.
fn append(rows: &mut Vec<StepRow>, row: StepRow) -> Result<(), AllocError>
    ensures { OnOk result (rows.new.items ≡ rows.old.items ++ row ∷ []) }
{
    rows.push(row)?;
    Ok(())
}

/// The rows of the steps between places, which have these gradients, or the first step with too great a drag. It counts a step for
/// each row that it makes, the refused one too.
pub(crate) fn rows_of_steps<L: Ledger>(
    alloc: Global,
    train: &Train,
    gradients: &[i32],
    places: &[u32],
    steps: &mut Steps<L>,
) -> Result<Vec<StepRow>, RulesFault>
    requires train { IsTrain train.now }
    requires count { length gradients.now + 1 ≡ length places.now }
    requires few { length places.now ≤ 4001 }
    requires long { (i : ℕ) → i < length gradients.now → slice_index places.now i < slice_index places.now (i + 1) }
    requires short { (i : ℕ) → i < length gradients.now → slice_index places.now (i + 1) ≤ slice_index places.now i + 1000 }
    requires down { (i : ℕ) → i < length gradients.now → negsuc 999 ≤ℤ slice_index_or gradients.now i (pos 0) }
    requires up { (i : ℕ) → i < length gradients.now → slice_index_or gradients.now i (pos 0) ≤ℤ pos 1000 }
    ensures rows { IfOk result (λ rows. AreRows train.now gradients.now places.now rows.items) }
    ensures refused { IfErr result (RefusesRows train.now places.now (length gradients.now)) }
    ensures made { CountsSteps result (length gradients.now) steps.old steps.new }
{
    let mut rows = Vec::new(alloc);
    for i in 0..gradients.len() {
        let numbers = step_numbers(train, places[i + 1] - places[i], gradients[i]);
        match StepRow::make(numbers, steps) {
            Ok(row) => append(&mut rows, row)?,
            Err(_) => return Err(RulesFault::DragTooGreat(i as u32)),
        }
    }
    Ok(rows)
}
