//! The names of a service's calls.

ghost use Rattle.std.specs.Prelude.{◌≡◌, IfOk, map, drop};
ghost use Rattle.csv.specs.Records.{fields_of};
ghost use Rattle.line_file.specs.Names.{name_of, names_of};

use crate::rows::{Rows, field};
use csv::ByteRecord;
use rail_base::trim_spaces;
use std::alloc::{AllocError, Global};
use std::marker::Model;

/// Names of any bytes in order, which contracts see as a list of texts.
#[derive(Drop)]
pub struct NameList {
    names: Vec<Vec<u8>>,
}

impl Model for NameList {
    ghost use Rattle.std.specs.Prelude.{ℕ, List, map};

    ghost Value = { List (List ℕ) };

    ghost view = { λ list. map (λ name. name.items) list.names.items };
}

impl NameList {
    ghost use Rattle.std.specs.Prelude.{◌≡◌, ◌++◌, ◌∷◌, [], length, OnOk};
    ghost use Rattle.std.specs.List.{slice_index_or};

    /// No names. It takes no memory.
    pub fn new(alloc: Global) -> NameList
        ensures { result ≡ [] }
    {
        NameList {
            names: Vec::new(alloc),
        }
    }

    /// How many names there are.
    pub fn count(&self) -> usize
        ensures { result ≡ length self.now }
    {
        self.names.len()
    }

    /// The name at a place, counted from 0. It has no bytes where there is none.
    pub fn get(&self, i: usize) -> &[u8]
        ensures { result.now ≡ slice_index_or self.now i [] }
    {
        match self.names.get(i) {
            Some(name) => name.as_slice(),
            None => &[],
        }
    }

    /// Appends a name. Or want of memory.
    pub fn push(&mut self, name: &[u8]) -> Result<(), AllocError>
        ensures { OnOk result (self.new ≡ self.old ++ name.now ∷ []) }
    {
        let name = Vec::from_slice(*self.names.allocator(), name)?;
        self.names.push(name)?;
        Ok(())
    }
}

/// The names of the rows that are left.
fn read_rest(
    alloc: Global,
    rows: &mut Rows<'_>,
    row: &mut ByteRecord,
) -> Result<NameList, AllocError>
    ensures { IfOk result (λ names. names ≡ map name_of rows.old) }
{
    let mut names = NameList::new(alloc);
    while rows.next(row)? {
        names.push(trim_spaces(field(row, 1)))?;
    }
    Ok(names)
}

/// Reads the names of a service file's calls, in the order of its rows: the second field of each row below the header, with spaces at both
/// ends dropped. Of a text that `read_service` reads there is one for each call.
///
/// Any text may be read, since what is wrong with one is `read_service`'s to say. The only error is want of memory.
pub fn read_names(alloc: Global, text: &[u8]) -> Result<NameList, AllocError>
    ensures { IfOk result (λ names. names ≡ names_of text.now) }
{
    let mut rows = Rows::new(alloc, text);
    let mut row = ByteRecord::new(alloc);
    if rows.next(&mut row)? {
        read_rest(alloc, &mut rows, &mut row)
    } else {
        Ok(NameList::new(alloc))
    }
}
