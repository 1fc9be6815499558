//! Service files.

ghost use Rattle.std.specs.Prelude.{◌≡◌, ◌≢◌, ◌∷◌, ◌++◌, [], ℤ, pos, true, false, None, Some, option_map, IfOk, IfErr, OnOk};
ghost use Rattle.std.specs.Int.RustNames.{unsigned_abs};
ghost use Rattle.csv.specs.Records.{fields_of};
ghost use Rattle.line_file.specs.Shape.{IsService};
ghost use Rattle.line_file.specs.ServiceText.{are_seconds, call_from, call_of, is_in_range, latest_count, numbers_of, optional_number, rises, service_of};

use crate::calls::{Call, CallList};
use crate::row_file::{RowFile, read_file};
use crate::rows::{field, has_fields};
use csv::ByteRecord;
use rail_base::{read_number, trim_spaces};
use std::alloc::{AllocError, Global};

/// The most rows that a service file has.
const MOST_ROWS: u32 = 1_000;

/// The most latest times after the first row.
const MOST_LATEST: usize = 64;

/// A train's service on a line: where it stops, how long, and by when it must be there.
#[derive(Drop)]
pub struct Service {
    /// The calls in the order of their places. The first and the last are stops at rest whatever stands there, and
    /// their dwells and the latest time of the first are not used.
    pub calls: CallList,
}

/// Why a text is no service file. Rows are counted from 1 below the header; blank records are not counted.
#[derive(Clone, Copy, Debug, PartialEq, Eq)]
pub enum ServiceFault {
    /// There is no header, or it is not `place,name,dwell,latest`.
    BadHeader,
    /// The row has another number of fields than four.
    BadRow(u32),
    /// There are more than 1,000 rows.
    TooManyRows,
    /// The row's place is no number, or its dwell or its latest time is neither a number nor empty.
    BadNumber(u32),
    /// One of the row's numbers is outside its range.
    OutOfRange(u32),
    /// The row's place is not above that of the row before.
    NotRising(u32),
    /// There are fewer than two rows.
    TooFew,
    /// The last row has no latest time.
    NoFinalLatest,
    /// More than 64 rows after the first have a latest time.
    TooManyLatest,
    /// The memory ran out.
    NoMemory,
}

impl From<AllocError> for ServiceFault {
    ghost use Rattle.std.specs.Prelude.{◌≡◌};
    ghost use Rattle.line_file.specs.declared.service.ServiceFault.TheVariants.{NoMemory};

    ghost from_gives = { λ _ fault. fault ≡ NoMemory };

    fn from(_error: AllocError) -> ServiceFault {
        ServiceFault::NoMemory
    }
}

/// The numbers of a row as they stand in the file.
#[derive(Clone, Copy)]
pub(crate) struct CallNumbers {
    place: i64,
    dwell: Option<i64>,
    latest: Option<i64>,
}

/// What is wrong with a row by itself.
#[derive(Clone, Copy)]
pub(crate) enum CallFault {
    Number,
    Range,
}

/// The number of a field that may be empty but for spaces.
fn read_optional(field: &[u8]) -> Option<Option<i64>>
    ensures { result ≡ optional_number field.now }
{
    if trim_spaces(field).is_empty() {
        return Some(None);
    }
    let number = read_number(field)?;
    Some(Some(number))
}

/// The numbers of a row.
fn read_numbers(row: &ByteRecord) -> Option<CallNumbers>
    ensures { result ≡ numbers_of (fields_of row.now) }
{
    let place = read_number(field(row, 0))?;
    let dwell = read_optional(field(row, 2))?;
    let latest = read_optional(field(row, 3))?;
    Some(CallNumbers {
        place,
        dwell,
        latest,
    })
}

/// Whether a number of seconds, if there is one, is 0 to `most`.
fn are_seconds(most: u32, seconds: Option<i64>) -> bool
    ensures { result ≡ are_seconds most seconds }
{
    match seconds {
        Some(seconds) => 0 <= seconds && seconds <= i64::from(most),
        None => true,
    }
}

/// Whether the numbers of a row are in their ranges.
fn is_in_range(numbers: CallNumbers) -> bool
    ensures { result ≡ is_in_range numbers }
{
    0 <= numbers.place
        && numbers.place <= 1_000_000
        && are_seconds(7_200, numbers.dwell)
        && are_seconds(172_800, numbers.latest)
}

/// A number of seconds that is in its range.
fn seconds_of(seconds: Option<i64>) -> Option<u32>
    requires { are_seconds 172800 seconds ≡ true }
    ensures { result ≡ option_map (λ s. unsigned_abs s) seconds }
{
    match seconds {
        Some(seconds) => Some(seconds as u32),
        None => None,
    }
}

/// The call of these numbers.
fn call_from(numbers: CallNumbers) -> Call
    requires { is_in_range numbers ≡ true }
    ensures { result ≡ call_from numbers }
{
    Call {
        place: numbers.place as u32,
        dwell: seconds_of(numbers.dwell),
        latest: seconds_of(numbers.latest),
    }
}

/// What the fields of a row say.
fn read_call(row: &ByteRecord) -> Result<Call, CallFault>
    ensures { result ≡ call_of (fields_of row.now) }
{
    let numbers = read_numbers(row).ok_or(CallFault::Number)?;
    if is_in_range(numbers) {
        Ok(call_from(numbers))
    } else {
        Err(CallFault::Range)
    }
}

/// Adds a call that lies above the list, or is the first; `NotRising` exactly where it does not.
fn add_call(calls: &mut CallList, call: Call, n: u32) -> Result<(), ServiceFault>
    ensures ok { OnOk result ((rises calls.old call ≡ true) × (calls.new ≡ calls.old ++ call ∷ [])) }
    ensures falls { IfErr result (λ e. e ≢ ServiceFault.NoMemory → (rises calls.old call ≡ false) × (e ≡ ServiceFault.NotRising n)) }
{
    if let Some(last) = calls.items().last() {
        if call.place <= last.place {
            return Err(ServiceFault::NotRising(n));
        }
    }
    calls.push(call)?;
    Ok(())
}

/// How many calls after the first have a latest time.
fn latest_count(calls: &[Call]) -> usize
    ensures { result ≡ latest_count calls.now }
{
    calls.iter().skip(1).filter(|c| c.latest.is_some()).count()
}

impl RowFile for Service {
    ghost use Rattle.std.proofs.Common.{rules};
    ghost use Rattle.line_file.specs.declared.service.ServiceFault.TheVariants.{BadHeader, NoMemory};
    ghost use Rattle.line_file.specs.OneMoreRow.{service_from-push};
    ghost use Rattle.line_file.specs.ServiceText.{call_of, is_service_header, row_fault, service_from, whole_fault, with_row};

    type Fault = ServiceFault;

    ghost no_memory = { NoMemory };

    ghost bad_header = { BadHeader };

    ghost is_header = { is_service_header };

    ghost most_rows = { 1000 };

    ghost from_rows = { service_from };

    ghost with_row = { λ service fields. with_row service (call_of fields) };

    ghost row_fault = { row_fault };

    ghost whole_fault = { whole_fault };

    ghost is_memory = { λ error fault is. is };

    ghost counts = { Prim.search rules };

    ghost adds = { service_from-push };

    fn bad_header() -> ServiceFault {
        ServiceFault::BadHeader
    }

    fn is_header(row: &ByteRecord) -> bool {
        has_fields(row, b"place", b"name", b"dwell", b"latest")
    }

    fn without_rows(alloc: Global) -> Service {
        Service {
            calls: CallList::new(alloc),
        }
    }

    fn add_row(&mut self, n: u32, row: &ByteRecord) -> Result<(), ServiceFault> {
        if row.len() != 4 {
            return Err(ServiceFault::BadRow(n));
        }
        if n > MOST_ROWS {
            return Err(ServiceFault::TooManyRows);
        }
        match read_call(row) {
            Err(CallFault::Number) => Err(ServiceFault::BadNumber(n)),
            Err(CallFault::Range) => Err(ServiceFault::OutOfRange(n)),
            Ok(call) => add_call(&mut self.calls, call, n),
        }
    }

    fn whole_fault(&self) -> Option<ServiceFault> {
        let calls = self.calls.items();
        if calls.len() < 2 {
            Some(ServiceFault::TooFew)
        } else if calls[calls.len() - 1].latest.is_none() {
            Some(ServiceFault::NoFinalLatest)
        } else if latest_count(calls) > MOST_LATEST {
            Some(ServiceFault::TooManyLatest)
        } else {
            None
        }
    }
}

impl Service {
    /// An equal service of its own, or want of memory.
    pub fn copy(&self, alloc: Global) -> Result<Service, AllocError>
        ensures { IfOk result (λ service. service ≡ self.now) }
    {
        let calls = self.calls.copy(alloc)?;
        Ok(Service { calls })
    }
}

/// Reads a service file.
///
/// The header is `place,name,dwell,latest`. A row has a place in metres, 0 to 1,000,000, above that of the row before;
/// a name of any bytes, which is not used; a dwell of 0 to 7,200 s or nothing; and a latest time of 0 to 172,800 s or
/// nothing.
///
/// The answer is the first fault: of the header, of each row in order, then of the whole. `NoMemory` may come at any
/// place.
pub fn read_service(alloc: Global, text: &[u8]) -> Result<Service, ServiceFault>
    ensures answer { result ≢ Err ServiceFault.NoMemory → result ≡ service_of text.now }
    ensures shape { IfOk result IsService }
{
    read_file(alloc, text)
}
