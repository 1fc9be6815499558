//! The rows of a text of comma-separated fields, one by one.

ghost use Rattle.std.specs.Prelude.{◌≡◌, ℕ, IfOk};
ghost use Rattle.csv.specs.Records.{fields_of};
ghost use Rattle.line_file.specs.Rows.{TakesRow, field_of, has_fields, is_blank, is_field, rows_of, without_mark};

use csv::{ByteRecord, ErrorKind, Reader, ReaderBuilder};
use rail_base::trim_spaces;
use std::alloc::{AllocError, Global};
use std::marker::Model;

/// The byte order mark, in UTF-8.
const MARK: [u8; 3] = [0xEF, 0xBB, 0xBF];

/// A text without one byte order mark at its start.
fn drop_mark(text: &[u8]) -> &[u8]
    ensures { result.now ≡ without_mark text.now }
{
    if text.starts_with(&MARK) {
        &text[3..]
    } else {
        text
    }
}

/// The field at a place of a row, which has no bytes where there is none.
pub(crate) fn field(row: &ByteRecord, i: usize) -> &[u8]
    ensures { result.now ≡ field_of (fields_of row.now) i }
{
    match row.get(i) {
        Some(field) => field,
        None => &[],
    }
}

/// Whether the field at a place is this text, with spaces at both ends dropped.
fn is_field(row: &ByteRecord, i: usize, text: &[u8]) -> bool
    ensures { result ≡ is_field (fields_of row.now) i text.now }
{
    trim_spaces(field(row, i)) == text
}

/// Whether a row has just these four fields.
pub(crate) fn has_fields(row: &ByteRecord, a: &[u8], b: &[u8], c: &[u8], d: &[u8]) -> bool
    ensures { result ≡ has_fields (fields_of row.now) a.now b.now c.now d.now }
{
    row.len() == 4
        && is_field(row, 0, a)
        && is_field(row, 1, b)
        && is_field(row, 2, c)
        && is_field(row, 3, d)
}

/// Whether a record has no field, or one field that is empty but for spaces.
fn is_blank_row(row: &ByteRecord) -> bool
    ensures { result ≡ is_blank (fields_of row.now) }
{
    match row.get(0) {
        None => true,
        Some(first) => row.len() == 1 && trim_spaces(first).is_empty(),
    }
}

/// The rows of a text that are left, which contracts see as their list.
#[derive(Drop)]
pub(crate) struct Rows<'a> {
    reader: Reader<&'a [u8]>,
    /// Whether the reader is at its end, or ran out of memory; then no row is left.
    done: bool,
}

impl<'a> Model for Rows<'a> {
    ghost use Rattle.std.specs.Prelude.{◌≡◌, ◌⊎◌, List, ℕ, [], true, if◌then◌else◌};
    ghost use Rattle.line_file.specs.Rows.{IsReading, rows_left};

    ghost Value = { List (List (List ℕ)) };

    ghost view = { λ s. if s.done then [] else rows_left s.reader };

    ghost invariant = { λ s. (s.done ≡ true) ⊎ IsReading s.reader };
}

impl<'a> Rows<'a> {
    /// The rows of a text.
    pub(crate) fn new(alloc: Global, text: &'a [u8]) -> Rows<'a>
        ensures { result ≡ rows_of text.entry.now }
    {
        let reader = ReaderBuilder::new()
            .has_headers(false)
            .flexible(true)
            .from_reader(alloc, drop_mark(text));
        Rows {
            reader,
            done: false,
        }
    }

    /// Takes the next row, and answers whether there was one. Or want of memory.
    ///
    /// `csv` refuses no record of any number of fields, which is proved at the last arm. That a slice is read to its end isn't said by any
    /// clause of it, so a fault of reading stands beside want of memory.
    pub(crate) fn next(&mut self, row: &mut ByteRecord) -> Result<bool, AllocError>
        ensures { IfOk result (λ found. TakesRow found (fields_of row.new) self.old self.new) }
    {
        if self.done {
            return Ok(false);
        }
        loop {
            match self.reader.read_byte_record(row) {
                Ok(true) => {
                    if !is_blank_row(row) {
                        return Ok(true);
                    }
                }
                Ok(false) => {
                    self.done = true;
                    return Ok(false);
                }
                Err(error) => match error.kind() {
                    ErrorKind::OutOfMemory | ErrorKind::Io(_) => {
                        self.done = true;
                        return Err(AllocError);
                    }
                    _ => unreachable!(),
                },
            }
        }
    }
}
