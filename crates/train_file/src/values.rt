//! What a key of a train file holds.

ghost use Rattle.std.specs.Prelude.{◌≡◌, ◌≢◌, ◌≤◌, IfOk, codes};
ghost use Rattle.std.specs.Result.{result_map_both};
ghost use Rattle.toml.specs.Data.{get_member};
ghost use Rattle.toml.specs.View.{array_view, table_view, view};
ghost use Rattle.train_file.specs.TrainText.{forces_at, of_kind, pair_of, pairs_of, present, regeneration_at, row_of, rows_at, rows_of, table_refusal, whole_at, whole_in, whole_of, whole_or};

use crate::fault::{Key, TrainFault};
use force_table::{ForceTable, TableFault};
use rail_base::natural_within;
use std::alloc::Global;
use toml::{Table, Value};

/// The value that a needed key holds.
fn value_at<'a>(table: &'a Table, name: &str, key: Key) -> Result<&'a Value, TrainFault>
    ensures { result_map_both (λ v. view v.now) (λ e. e) result ≡ present key (get_member name.now (table_view table.now)) }
{
    match table.get(name) {
        None => Err(TrainFault::Missing(key)),
        Some(value) => Ok(value),
    }
}

/// A number, if it is from `low` to `high`.
fn whole_in(key: Key, low: u32, high: u32, number: i64) -> Result<u32, TrainFault>
    ensures value { result ≡ whole_in key low high number }
    ensures in_range { IfOk result (λ n. (low ≤ n) × (n ≤ high)) }
{
    natural_within(number, low, high).ok_or(TrainFault::OutOfRange(key))
}

/// The whole number from `low` to `high` that a value is.
fn whole_of(key: Key, low: u32, high: u32, value: &Value) -> Result<u32, TrainFault>
    ensures value { result ≡ whole_of key low high (view value.now) }
    ensures in_range { IfOk result (λ n. (low ≤ n) × (n ≤ high)) }
{
    match value.as_integer() {
        None => Err(TrainFault::WrongKind(key)),
        Some(number) => whole_in(key, low, high, number),
    }
}

/// The whole number from `low` to `high` that a needed key holds.
pub(crate) fn read_whole(
    table: &Table,
    name: &str,
    key: Key,
    low: u32,
    high: u32,
) -> Result<u32, TrainFault>
    ensures value { result ≡ whole_at key low high (get_member name.now (table_view table.now)) }
    ensures in_range { IfOk result (λ n. (low ≤ n) × (n ≤ high)) }
{
    let value = value_at(table, name, key)?;
    whole_of(key, low, high, value)
}

/// The whole number from `low` to `high` that a key holds, or `other` where it is left out.
pub(crate) fn read_whole_or(
    table: &Table,
    name: &str,
    key: Key,
    low: u32,
    high: u32,
    other: u32,
) -> Result<u32, TrainFault>
    requires low { low ≤ other }
    requires high { other ≤ high }
    ensures value { result ≡ whole_or key low high other (get_member name.now (table_view table.now)) }
    ensures in_range { IfOk result (λ n. (low ≤ n) × (n ≤ high)) }
{
    match table.get(name) {
        None => Ok(other),
        Some(value) => whole_of(key, low, high, value),
    }
}

/// The version of a train file: what its key holds, or 1 where it is left out.
pub(crate) fn read_version(table: &Table) -> Result<u8, TrainFault>
    ensures value { result ≡ whole_or Key.Version 1 2 1 (get_member (codes "version") (table_view table.now)) }
    ensures in_range { IfOk result (λ n. (1 ≤ n) × (n ≤ 2)) }
{
    let version = read_whole_or(table, "version", Key::Version, 1, 2, 1)?;
    Ok(version as u8)
}

/// The share of its work that braking gives back, per mille: what its key holds in version 2, where it is needed, and 0 in version 1,
/// where the key is passed over.
pub(crate) fn read_regeneration(table: &Table, version: u8) -> Result<u16, TrainFault>
    ensures value { result ≡ regeneration_at version (get_member (codes "regeneration") (table_view table.now)) }
    ensures in_range { IfOk result (λ n. n ≤ 1000) }
    ensures nothing { version ≡ 1 → IfOk result (λ n. n ≡ 0) }
{
    if version == 2 {
        let share = read_whole(table, "regeneration", Key::Regeneration, 0, 1000)?;
        Ok(share as u16)
    } else {
        Ok(0)
    }
}

/// The two integers of an array that has no other items.
fn read_pair(value: &Value) -> Option<(i64, i64)>
    ensures { result ≡ pair_of (view value.now) }
{
    let items = value.as_array()?;
    if items.len() != 2 {
        return None;
    }
    let first = items[0].as_integer()?;
    let second = items[1].as_integer()?;
    Some((first, second))
}

/// The pairs of an array of such arrays.
fn read_pairs(alloc: Global, key: Key, array: &Vec<Value>) -> Result<Vec<(i64, i64)>, TrainFault>
    ensures { result ≢ Err TrainFault.NoMemory → result_map_both (λ v. v.items) (λ e. e) result ≡ of_kind key (pairs_of (array_view array.now)) }
{
    let mut pairs = Vec::new(alloc);
    for value in array {
        let Some(pair) = read_pair(value) else {
            return Err(TrainFault::WrongKind(key));
        };
        if pairs.push(pair).is_err() {
            return Err(TrainFault::NoMemory);
        }
    }
    Ok(pairs)
}

/// A row whose speed and force are in range.
fn row_of(key: Key, speed: i64, force: i64) -> Result<(u16, u32), TrainFault>
    ensures { result ≡ row_of key (speed, force) }
{
    let speed = whole_in(key, 0, 12_000, speed)?;
    let force = whole_in(key, 0, 2_000_000, force)?;
    Ok((speed as u16, force))
}

/// The rows whose speeds and forces are in range.
fn rows_of(alloc: Global, key: Key, pairs: &[(i64, i64)]) -> Result<Vec<(u16, u32)>, TrainFault>
    ensures { result ≢ Err TrainFault.NoMemory → result_map_both (λ v. v.items) (λ e. e) result ≡ rows_of key pairs.now }
{
    let mut rows = Vec::new(alloc);
    for pair in pairs {
        let speed = pair.0;
        let force = pair.1;
        let row = row_of(key, speed, force)?;
        if rows.push(row).is_err() {
            return Err(TrainFault::NoMemory);
        }
    }
    Ok(rows)
}

/// The rows that a key holds.
fn read_rows(
    alloc: Global,
    table: &Table,
    name: &str,
    key: Key,
) -> Result<Vec<(u16, u32)>, TrainFault>
    ensures { result ≢ Err TrainFault.NoMemory → result_map_both (λ v. v.items) (λ e. e) result ≡ rows_at key (get_member name.now (table_view table.now)) }
{
    let value = value_at(table, name, key)?;
    let Some(array) = value.as_array() else {
        return Err(TrainFault::WrongKind(key));
    };
    let pairs = read_pairs(alloc, key, array)?;
    rows_of(alloc, key, pairs.as_slice())
}

/// The refusal of a key's table.
fn table_refusal(key: Key, fault: TableFault) -> TrainFault
    ensures { result ≡ table_refusal key fault }
{
    match fault {
        TableFault::Empty | TableFault::Start => TrainFault::TableStart(key),
        TableFault::Order(row) => TrainFault::TableOrder(key, row),
        TableFault::Rises(row) => TrainFault::TableRises(key, row),
        TableFault::NoMemory => TrainFault::NoMemory,
    }
}

/// The table of forces that a key holds.
pub(crate) fn read_forces(
    alloc: Global,
    table: &Table,
    name: &str,
    key: Key,
) -> Result<ForceTable, TrainFault>
    ensures { result ≢ Err TrainFault.NoMemory → result ≡ forces_at key (get_member name.now (table_view table.now)) }
{
    let rows = read_rows(alloc, table, name, key)?;
    match ForceTable::make(alloc, rows.as_slice()) {
        Ok(forces) => Ok(forces),
        Err(fault) => Err(table_refusal(key, fault)),
    }
}
