//! The words of faults.

ghost use Rattle.std.specs.Prelude.{◌≡◌, ◌≢◌, ◌++◌, ◌∷◌, ℕ, pos, IfOk, OnOk};
ghost use Rattle.rail_base.specs.Texts.{spaced};
ghost use Rattle.plan_files.specs.FaultWords.{key_name, line_fault_words, route_fault_words};
ghost use Rattle.plan_files.specs.FaultWords.{rules_fault_words, service_fault_words, train_fault_words};

use drive_rules::{RouteFault, RulesFault};
use line_file::{LineFault, ServiceFault};
use rail_base::put_number;
use std::alloc::{AllocError, Global};
use train_file::{Key, TrainFault};

/// A word and a number.
fn numbered(alloc: Global, word: &[u8], number: u32) -> Result<Vec<u8>, AllocError>
    ensures { IfOk result (λ text. text.items ≡ word.now ++ spaced (pos number)) }
{
    let mut text = Vec::from_slice(alloc, word)?;
    text.push(b' ')?;
    put_number(alloc, &mut text, number as i128)?;
    Ok(text)
}

/// The name of a key of a train file.
fn key_name(key: Key) -> &'static [u8]
    ensures { result.now ≡ key_name key }
{
    match key {
        Key::Version => b"version",
        Key::Mass => b"mass",
        Key::Inertia => b"inertia",
        Key::A => b"a",
        Key::B => b"b",
        Key::C => b"c",
        Key::Length => b"length",
        Key::Regeneration => b"regeneration",
        Key::Traction => b"traction",
        Key::Brake => b"brake",
    }
}

/// A word and a key.
fn keyed(alloc: Global, word: &[u8], key: Key) -> Result<Vec<u8>, AllocError>
    ensures { IfOk result (λ text. text.items ≡ word.now ++ 32 ∷ key_name key) }
{
    let mut text = Vec::from_slice(alloc, word)?;
    text.push(b' ')?;
    text.extend_from_slice(key_name(key))?;
    Ok(text)
}

/// A word, a key and the number of a row.
fn keyed_row(alloc: Global, word: &[u8], key: Key, row: u32) -> Result<Vec<u8>, AllocError>
    ensures { IfOk result (λ text. text.items ≡ word.now ++ 32 ∷ key_name key ++ spaced (pos row)) }
{
    let text = keyed(alloc, word, key)?;
    numbered(alloc, text.as_slice(), row)
}

/// The words of a fault of a route file. The only error is want of memory, which the fault may itself be.
pub(crate) fn route_words(alloc: Global, fault: RouteFault) -> Result<Vec<u8>, AllocError>
    ensures sound { OnOk result (fault ≢ RouteFault.NoMemory) }
    ensures words { IfOk result (λ text. text.items ≡ route_fault_words fault) }
{
    match fault {
        RouteFault::Form(line) => numbered(alloc, b"form", line),
        RouteFault::Range(line) => numbered(alloc, b"range", line),
        RouteFault::TooManySteps => Vec::from_slice(alloc, b"too-many-steps"),
        RouteFault::NoMemory => Err(AllocError),
    }
}

/// The words of a fault of a line file. The only error is want of memory, which the fault may itself be.
pub(crate) fn line_words(alloc: Global, fault: LineFault) -> Result<Vec<u8>, AllocError>
    ensures sound { OnOk result (fault ≢ LineFault.NoMemory) }
    ensures words { IfOk result (λ text. text.items ≡ line_fault_words fault) }
{
    match fault {
        LineFault::BadHeader => Vec::from_slice(alloc, b"bad-header"),
        LineFault::BadRow(row) => numbered(alloc, b"bad-row", row),
        LineFault::TooManyRows => Vec::from_slice(alloc, b"too-many-rows"),
        LineFault::BadKind(row) => numbered(alloc, b"bad-kind", row),
        LineFault::BadNumber(row) => numbered(alloc, b"bad-number", row),
        LineFault::OutOfRange(row) => numbered(alloc, b"out-of-range", row),
        LineFault::Gap(row) => numbered(alloc, b"gap", row),
        LineFault::NoSections => Vec::from_slice(alloc, b"no-sections"),
        LineFault::EndsDiffer => Vec::from_slice(alloc, b"ends-differ"),
        LineFault::NoMemory => Err(AllocError),
    }
}

/// The words of a fault of a service file. The only error is want of memory, which the fault may itself be.
pub(crate) fn service_words(alloc: Global, fault: ServiceFault) -> Result<Vec<u8>, AllocError>
    ensures sound { OnOk result (fault ≢ ServiceFault.NoMemory) }
    ensures words { IfOk result (λ text. text.items ≡ service_fault_words fault) }
{
    match fault {
        ServiceFault::BadHeader => Vec::from_slice(alloc, b"bad-header"),
        ServiceFault::BadRow(row) => numbered(alloc, b"bad-row", row),
        ServiceFault::TooManyRows => Vec::from_slice(alloc, b"too-many-rows"),
        ServiceFault::BadNumber(row) => numbered(alloc, b"bad-number", row),
        ServiceFault::OutOfRange(row) => numbered(alloc, b"out-of-range", row),
        ServiceFault::NotRising(row) => numbered(alloc, b"not-rising", row),
        ServiceFault::TooFew => Vec::from_slice(alloc, b"too-few"),
        ServiceFault::NoFinalLatest => Vec::from_slice(alloc, b"no-final-latest"),
        ServiceFault::TooManyLatest => Vec::from_slice(alloc, b"too-many-latest"),
        ServiceFault::NoMemory => Err(AllocError),
    }
}

/// The words of a fault of a train file. The only error is want of memory, which the fault may itself be.
pub(crate) fn train_words(alloc: Global, fault: TrainFault) -> Result<Vec<u8>, AllocError>
    ensures sound { OnOk result (fault ≢ TrainFault.NoMemory) }
    ensures words { IfOk result (λ text. text.items ≡ train_fault_words fault) }
{
    match fault {
        TrainFault::Text => Vec::from_slice(alloc, b"text"),
        TrainFault::Missing(key) => keyed(alloc, b"missing", key),
        TrainFault::WrongKind(key) => keyed(alloc, b"wrong-kind", key),
        TrainFault::OutOfRange(key) => keyed(alloc, b"out-of-range", key),
        TrainFault::TableStart(key) => keyed(alloc, b"table-start", key),
        TrainFault::TableOrder(key, row) => keyed_row(alloc, b"table-order", key, row),
        TrainFault::TableRises(key, row) => keyed_row(alloc, b"table-rises", key, row),
        TrainFault::TopsDiffer => Vec::from_slice(alloc, b"tops-differ"),
        TrainFault::NoMemory => Err(AllocError),
    }
}

/// The words of a fault of the rules that a line, a train and a service give together. The only error is want of memory, which the
/// fault may itself be.
pub(crate) fn rules_words(alloc: Global, fault: RulesFault) -> Result<Vec<u8>, AllocError>
    ensures sound { OnOk result (fault ≢ RulesFault.NoMemory) }
    ensures words { IfOk result (λ text. text.items ≡ rules_fault_words fault) }
{
    match fault {
        RulesFault::Outside(call) => numbered(alloc, b"outside", call),
        RulesFault::TooManySteps => Vec::from_slice(alloc, b"too-many-steps"),
        RulesFault::StopsTooClose(call) => numbered(alloc, b"stops-too-close", call),
        RulesFault::DragTooGreat(step) => numbered(alloc, b"drag-too-great", step),
        RulesFault::NoMemory => Err(AllocError),
    }
}
