//! The lines of a text and the fields of a line, one by one.

ghost use Rattle.std.specs.Prelude.{◌≡◌, ◌==◌};
ghost use Rattle.std.specs.List.{position};
ghost use Rattle.std.specs.Str.Lines.{lines};
ghost use Rattle.rail_base.specs.Lines.{fields_of};

use bstr::ByteSlice;
pub use bstr::Lines;
use std::marker::Model;

/// The lines of a text. A line ends at a line feed, and one carriage return right before that is no part of it; the
/// last line may have no end.
pub fn text_lines(text: &[u8]) -> Lines<'_>
    ensures { result ≡ lines text.now }
{
    text.lines()
}

/// The fields of a text that are left, which are parted by one space each. Contracts see them as their list.
#[derive(Drop)]
pub struct Fields<'a> {
    rest: Option<&'a [u8]>,
}

impl<'a> Model for Fields<'a> {
    ghost use Rattle.std.specs.Prelude.{List, ℕ};
    ghost use Rattle.rail_base.specs.Fields.{fields_left};

    ghost Value = { List (List ℕ) };

    ghost view = { λ f. fields_left f.rest };
}

/// The place of the first space.
fn first_space(text: &[u8]) -> Option<usize>
    ensures { result ≡ position (λ b. b == 32) text.now }
{
    text.iter().position(|b| *b == b' ')
}

impl<'a> Fields<'a> {
    /// The fields of a text. There is always one, which may be empty.
    pub fn new(text: &'a [u8]) -> Fields<'a>
        ensures { result ≡ fields_of text.entry.now }
    {
        Fields { rest: Some(text) }
    }
}

impl<'a> Iterator for Fields<'a> {
    type Item = &'a [u8];

    ghost use Rattle.std.specs.Iterator.{YieldsFirstRef, item_count};

    ghost next_gives = { YieldsFirstRef (λ left. left) };

    ghost remaining = { item_count (λ left. left) };

    fn next(&mut self) -> Option<&'a [u8]> {
        let rest = self.rest?;
        match first_space(rest) {
            Some(end) => {
                self.rest = Some(&rest[end + 1..]);
                Some(&rest[..end])
            }
            None => {
                self.rest = None;
                Some(rest)
            }
        }
    }
}
