//! Files of a header and rows, which are read row by row.

ghost use Rattle.std.specs.Prelude.{◌≡◌, ◌≢◌, ◌≤◌, ◌<◌, ◌∷◌, ◌++◌, [], ℕ, Bool, List, Option, Some, None, Err, IfErr, OnOk};
ghost use Rattle.csv.specs.Records.{fields_of};
ghost use Rattle.line_file.specs.Rows.{Fields, rows_of};
ghost use Rattle.line_file.specs.RowFile.{below_header, rows_in};

use crate::rows::Rows;
use csv::ByteRecord;
use std::alloc::{AllocError, Global};

/// What is read of a file that has a header and rows below it. The rows are counted from 1.
pub(crate) trait RowFile: Drop {
    /// Why a text is no such file. One fault is want of memory.
    type Fault: Copy + From<AllocError>;

    /// The fault that is want of memory.
    ghost no_memory: { Self.Fault };

    /// The fault where there is no header, or another one.
    ghost bad_header: { Self.Fault };

    /// Whether a row is the header.
    ghost is_header: { Fields → Bool };

    /// The most rows below the header.
    ghost most_rows: { ℕ };

    /// What rows say.
    ghost from_rows: { List Fields → Self };

    /// What is read with one more row.
    ghost with_row: { Self → Fields → Self };

    /// What is wrong with row `n` after the rows before it.
    ghost row_fault: { ℕ → Self → Fields → Option Self.Fault };

    /// What is wrong with the whole, where no row has a fault.
    ghost whole_fault: { Self → Option Self.Fault };

    /// The fault where there is no header, or another one.
    fn bad_header() -> Self::Fault
        ensures { result ≡ bad_header };

    /// Whether a row is the header.
    fn is_header(row: &ByteRecord) -> bool
        ensures { result ≡ is_header (fields_of row.now) };

    /// What is read of no row.
    fn without_rows(alloc: Global) -> Self
        ensures { result ≡ from_rows [] };

    /// Adds row `n`, or says what is wrong with it.
    fn add_row(&mut self, n: u32, row: &ByteRecord) -> Result<(), Self::Fault>
        ensures few { OnOk result (n ≤ most_rows) }
        ensures ok { OnOk result ((row_fault n self.old (fields_of row.now) ≡ None) × (self.new ≡ with_row self.old (fields_of row.now))) }
        ensures fault { IfErr result (λ e. e ≢ no_memory → row_fault n self.old (fields_of row.now) ≡ Some e) };

    /// What is wrong with the whole.
    fn whole_fault(&self) -> Option<Self::Fault>
        ensures { result ≡ whole_fault self.now };

    /// Where the memory runs out, the fault is want of memory.
    ghost is_memory: { (error : _) (fault : Self.Fault) → Self.Fault.from_gives error fault → fault ≡ no_memory };

    /// The number of a row is a `u32`, and so is the next.
    ghost counts: { most_rows < 4294967295 };

    /// What rows and one more say is what is read of the rows, with one more.
    ghost adds: { (rows : List Fields) (row : Fields) → from_rows (rows ++ row ∷ []) ≡ with_row (from_rows rows) row };
}

/// Reads the rows below the header.
fn read_rows<F: RowFile>(
    alloc: Global,
    rows: &mut Rows<'_>,
    row: &mut ByteRecord,
) -> Result<F, F::Fault>
    ensures { result ≢ Err F.no_memory → result ≡ below_header F.from_rows F.row_fault F.whole_fault rows.old }
{
    let mut read = F::without_rows(alloc);
    let mut n = 0;
    while rows.next(row)? {
        n += 1;
        read.add_row(n, row)?;
    }
    match read.whole_fault() {
        None => Ok(read),
        Some(fault) => Err(fault),
    }
}

/// Reads a file of a header and rows.
///
/// The answer is the first fault: of the header, of each row in order, then of the whole. Want of memory may come at
/// any place.
pub(crate) fn read_file<F: RowFile>(alloc: Global, text: &[u8]) -> Result<F, F::Fault>
    ensures { result ≢ Err F.no_memory → result ≡ rows_in F.is_header F.bad_header (below_header F.from_rows F.row_fault F.whole_fault) (rows_of text.now) }
{
    let mut rows = Rows::new(alloc, text);
    let mut row = ByteRecord::new(alloc);
    let is_header = rows.next(&mut row)? && F::is_header(&row);
    if !is_header {
        return Err(F::bad_header());
    }
    read_rows(alloc, &mut rows, &mut row)
}
