//! Line files.

ghost use Rattle.std.specs.Prelude.{◌≡◌, ◌≢◌, ◌∷◌, ◌++◌, [], true, false, IfOk, IfErr, OnOk};
ghost use Rattle.csv.specs.Records.{fields_of};
ghost use Rattle.line_file.specs.LineText.{follows, is_in_range, is_value, kept_value, kind_of, line_of, numbers_of, row_from, row_of};
ghost use Rattle.line_file.specs.Shape.{IsLine};

use crate::row_file::{RowFile, read_file};
use crate::rows::{field, has_fields};
use crate::sections::{Section, SectionList};
use csv::ByteRecord;
use rail_base::{read_number, trim_spaces};
use std::alloc::{AllocError, Global};

/// The most rows that a line file has.
const MOST_ROWS: u32 = 20_000;

/// A line: its sections with one speed limit each, and its sections with one gradient each.
#[derive(Drop)]
pub struct Line {
    /// The speed limits, cm/s, in the order of their places.
    pub limits: SectionList,
    /// The gradients, 1/10 per mille, uphill positive, in the order of their places.
    pub gradients: SectionList,
}

/// Why a text is no line file. Rows are counted from 1 below the header; blank records are not counted.
#[derive(Clone, Copy, Debug, PartialEq, Eq)]
pub enum LineFault {
    /// There is no header, or it is not `kind,from,to,value`.
    BadHeader,
    /// The row has another number of fields than four.
    BadRow(u32),
    /// There are more than 20,000 rows.
    TooManyRows,
    /// The row's kind is neither `limit` nor `gradient`.
    BadKind(u32),
    /// One of the row's three other fields is no number.
    BadNumber(u32),
    /// One of the row's numbers is outside its range, or its stretch has no length.
    OutOfRange(u32),
    /// The row does not begin where the row of its kind before it ended.
    Gap(u32),
    /// One of the two kinds has no row.
    NoSections,
    /// The two kinds begin or end at different places.
    EndsDiffer,
    /// The memory ran out.
    NoMemory,
}

impl From<AllocError> for LineFault {
    ghost use Rattle.std.specs.Prelude.{◌≡◌};
    ghost use Rattle.line_file.specs.declared.line.LineFault.TheVariants.{NoMemory};

    ghost from_gives = { λ _ fault. fault ≡ NoMemory };

    fn from(_error: AllocError) -> LineFault {
        LineFault::NoMemory
    }
}

/// What a row of a line file is about: a speed limit or a gradient.
#[derive(Clone, Copy)]
pub(crate) enum Kind {
    Limit,
    Gradient,
}

/// The numbers of a row as they stand in the file.
#[derive(Clone, Copy)]
pub(crate) struct RowNumbers {
    from: i64,
    to: i64,
    value: i64,
}

/// A row that is right by itself.
#[derive(Clone, Copy)]
pub(crate) struct LineRow {
    kind: Kind,
    section: Section,
}

/// What is wrong with a row by itself.
#[derive(Clone, Copy)]
pub(crate) enum RowFault {
    Kind,
    Number,
    Range,
}

/// The kind that a field names.
fn read_kind(field: &[u8]) -> Option<Kind>
    ensures { result ≡ kind_of field.now }
{
    let word = trim_spaces(field);
    if word == b"limit".as_slice() {
        Some(Kind::Limit)
    } else if word == b"gradient".as_slice() {
        Some(Kind::Gradient)
    } else {
        None
    }
}

/// The three numbers of a row.
fn read_numbers(row: &ByteRecord) -> Option<RowNumbers>
    ensures { result ≡ numbers_of (fields_of row.now) }
{
    let from = read_number(field(row, 1))?;
    let to = read_number(field(row, 2))?;
    let value = read_number(field(row, 3))?;
    Some(RowNumbers { from, to, value })
}

/// Whether the value of a row of this kind is in its range.
fn is_value(kind: Kind, value: i64) -> bool
    ensures { result ≡ is_value kind value }
{
    match kind {
        Kind::Limit => 1 <= value && value <= 432,
        Kind::Gradient => -1_000 <= value && value <= 1_000,
    }
}

/// Whether the numbers of a row of this kind are in their ranges.
fn is_in_range(kind: Kind, numbers: RowNumbers) -> bool
    ensures { result ≡ is_in_range kind numbers }
{
    0 <= numbers.from
        && numbers.from < numbers.to
        && numbers.to <= 1_000_000
        && is_value(kind, numbers.value)
}

/// The value that is kept: a limit in km/h becomes cm/s, rounded down.
fn kept_value(kind: Kind, value: i64) -> i32
    requires { is_value kind value ≡ true }
    ensures { result ≡ kept_value kind value }
{
    match kind {
        Kind::Limit => (value as u64 * 100_000 / 3_600) as i32,
        Kind::Gradient => value as i32,
    }
}

/// The row of these numbers.
fn row_from(kind: Kind, numbers: RowNumbers) -> LineRow
    requires { is_in_range kind numbers ≡ true }
    ensures { result ≡ row_from kind numbers }
{
    let section = Section {
        from: numbers.from as u32,
        to: numbers.to as u32,
        value: kept_value(kind, numbers.value),
    };
    LineRow { kind, section }
}

/// What the fields of a row say.
fn read_row(row: &ByteRecord) -> Result<LineRow, RowFault>
    ensures { result ≡ row_of (fields_of row.now) }
{
    let kind = read_kind(field(row, 0)).ok_or(RowFault::Kind)?;
    let numbers = read_numbers(row).ok_or(RowFault::Number)?;
    if is_in_range(kind, numbers) {
        Ok(row_from(kind, numbers))
    } else {
        Err(RowFault::Range)
    }
}

/// Adds a section that begins where the list ends, or is the first; `Gap` exactly where it begins elsewhere.
fn add_section(sections: &mut SectionList, section: Section, n: u32) -> Result<(), LineFault>
    ensures ok { OnOk result ((follows sections.old section ≡ true) × (sections.new ≡ sections.old ++ section ∷ [])) }
    ensures gap { IfErr result (λ e. e ≢ LineFault.NoMemory → (follows sections.old section ≡ false) × (e ≡ LineFault.Gap n)) }
{
    if let Some(last) = sections.items().last() {
        if last.to != section.from {
            return Err(LineFault::Gap(n));
        }
    }
    sections.push(section)?;
    Ok(())
}

impl RowFile for Line {
    ghost use Rattle.std.proofs.Common.{rules};
    ghost use Rattle.line_file.specs.declared.line.LineFault.TheVariants.{BadHeader, NoMemory};
    ghost use Rattle.line_file.specs.LineText.{is_line_header, line_from, row_fault, row_of, whole_fault, with_row};
    ghost use Rattle.line_file.specs.OneMoreRow.{line_from-push};

    type Fault = LineFault;

    ghost no_memory = { NoMemory };

    ghost bad_header = { BadHeader };

    ghost is_header = { is_line_header };

    ghost most_rows = { 20000 };

    ghost from_rows = { line_from };

    ghost with_row = { λ line fields. with_row line (row_of fields) };

    ghost row_fault = { row_fault };

    ghost whole_fault = { whole_fault };

    ghost is_memory = { λ error fault is. is };

    ghost counts = { Prim.search rules };

    ghost adds = { line_from-push };

    fn bad_header() -> LineFault {
        LineFault::BadHeader
    }

    fn is_header(row: &ByteRecord) -> bool {
        has_fields(row, b"kind", b"from", b"to", b"value")
    }

    fn without_rows(alloc: Global) -> Line {
        Line {
            limits: SectionList::new(alloc),
            gradients: SectionList::new(alloc),
        }
    }

    fn add_row(&mut self, n: u32, row: &ByteRecord) -> Result<(), LineFault> {
        if row.len() != 4 {
            return Err(LineFault::BadRow(n));
        }
        if n > MOST_ROWS {
            return Err(LineFault::TooManyRows);
        }
        match read_row(row) {
            Err(RowFault::Kind) => Err(LineFault::BadKind(n)),
            Err(RowFault::Number) => Err(LineFault::BadNumber(n)),
            Err(RowFault::Range) => Err(LineFault::OutOfRange(n)),
            Ok(row) => match row.kind {
                Kind::Limit => add_section(&mut self.limits, row.section, n),
                Kind::Gradient => add_section(&mut self.gradients, row.section, n),
            },
        }
    }

    fn whole_fault(&self) -> Option<LineFault> {
        let (limits, gradients) = (self.limits.items(), self.gradients.items());
        if limits.is_empty() || gradients.is_empty() {
            return Some(LineFault::NoSections);
        }
        let is_same_start = limits[0].from == gradients[0].from;
        let is_same_end = limits[limits.len() - 1].to == gradients[gradients.len() - 1].to;
        if is_same_start && is_same_end {
            None
        } else {
            Some(LineFault::EndsDiffer)
        }
    }
}

impl Line {
    /// An equal line of its own, or want of memory.
    pub fn copy(&self, alloc: Global) -> Result<Line, AllocError>
        ensures { IfOk result (λ line. line ≡ self.now) }
    {
        let limits = self.limits.copy(alloc)?;
        let gradients = self.gradients.copy(alloc)?;
        Ok(Line { limits, gradients })
    }
}

/// Reads a line file.
///
/// The header is `kind,from,to,value`. A row is `limit` with a value in km/h, 1 to 432, or `gradient` with a value in
/// 1/10 per mille, -1,000 to 1,000; `from` and `to` are places in metres, 0 to 1,000,000. The rows of each kind follow
/// each other without a gap, and both kinds run from the same place to the same place.
///
/// The answer is the first fault: of the header, of each row in order, then of the whole. `NoMemory` may come at any
/// place.
pub fn read_line(alloc: Global, text: &[u8]) -> Result<Line, LineFault>
    ensures answer { result ≢ Err LineFault.NoMemory → result ≡ line_of text.now }
    ensures shape { IfOk result IsLine }
{
    read_file(alloc, text)
}
