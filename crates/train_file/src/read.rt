//! The reader of train files.

ghost use Rattle.std.specs.Prelude.{◌≡◌, ◌≢◌, IfOk, IfErr, None};
ghost use Rattle.toml.specs.View.{table_view};
ghost use Rattle.train_file.specs.TrainText.{table_of, train_of};
ghost use Rattle.train_file.specs.Shape.{IsTrain};

use crate::fault::{Key, TrainFault};
use crate::train::Train;
use crate::values::{read_forces, read_regeneration, read_version, read_whole, read_whole_or};
use force_table::SpeedTable;
use std::alloc::Global;
use toml::Table;

/// The table of a text of bytes.
fn read_table(alloc: Global, text: &[u8]) -> Result<Table, TrainFault>
    ensures ok { IfOk result (λ t. table_of text.now ≡ Some (table_view t)) }
    ensures refused { IfErr result (λ e. e ≢ TrainFault.NoMemory → (e ≡ TrainFault.Text) × (table_of text.now ≡ None)) }
{
    let Ok(text) = std::str::from_utf8(text) else {
        return Err(TrainFault::Text);
    };
    match toml::table_from_str(alloc, text) {
        Ok(table) => Ok(table),
        Err(error) => {
            if error.is_memory() {
                Err(TrainFault::NoMemory)
            } else {
                Err(TrainFault::Text)
            }
        }
    }
}

/// The train that a text says, or its first refusal.
///
/// The keys are taken in the order of `Key`, whatever their order in the text; other keys are passed over. `version` and
/// `length` may be left out, and are then 1 and 0. `regeneration` is needed in version 2 and passed over in version 1. All others are
/// needed. `Text` comes before all of them, and `TopsDiffer` after all of them. `NoMemory` may come at any place.
pub fn read_train(alloc: Global, text: &[u8]) -> Result<Train, TrainFault>
    ensures train { result ≢ Err TrainFault.NoMemory → result ≡ train_of text.now }
    ensures in_range { IfOk result IsTrain }
{
    let table = read_table(alloc, text)?;
    let version = read_version(&table)?;
    let mass = read_whole(&table, "mass", Key::Mass, 1, 100_000)?;
    let inertia = read_whole(&table, "inertia", Key::Inertia, 1, 120_000)?;
    let a = read_whole(&table, "a", Key::A, 0, 10_000_000)?;
    let b = read_whole(&table, "b", Key::B, 0, 10_000_000)?;
    let c = read_whole(&table, "c", Key::C, 0, 10_000_000)?;
    let length = read_whole_or(&table, "length", Key::Length, 0, 1000, 0)?;
    let regeneration = read_regeneration(&table, version)?;
    let traction = read_forces(alloc, &table, "traction", Key::Traction)?;
    let brake = read_forces(alloc, &table, "brake", Key::Brake)?;
    if traction.top() != brake.top() {
        return Err(TrainFault::TopsDiffer);
    }
    Ok(Train {
        version,
        mass,
        inertia,
        a,
        b,
        c,
        length,
        regeneration,
        traction,
        brake,
    })
}
