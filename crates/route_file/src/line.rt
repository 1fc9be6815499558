//! Numbers on the lines of a text.

ghost use Rattle.std.specs.Prelude.{◌≡◌, Some, None, length, drop, MatchBool};
ghost use Rattle.rail_base.specs.Lines.{numbers_in, numbers_after, numbers_at};

use rail_base::{Fields, Lines, read_field};

/// Reads the fields of a text as numbers, one for each place. The answer is false exactly where the text has another
/// number of fields, or one of them is no number.
pub(crate) fn read_numbers(text: &[u8], numbers: &mut [i64]) -> bool
    ensures { let read = numbers_in (length numbers.old) text.now in MatchBool result (read ≡ Some numbers.new) (read ≡ None) }
{
    let mut fields = Fields::new(text);
    for number in numbers.iter_mut() {
        match fields.next().and_then(|field| read_field(field)) {
            Some(read) => *number = read,
            None => return false,
        }
    }
    fields.next().is_none()
}

/// Reads the numbers of a line that has this word and then one number for each place. The answer is false exactly
/// where the line is not of this form.
pub(crate) fn read_after(word: &[u8], line: &[u8], numbers: &mut [i64]) -> bool
    ensures { let read = numbers_after word.now (length numbers.old) line.now in MatchBool result (read ≡ Some numbers.new) (read ≡ None) }
{
    if !line.starts_with(word) {
        return false;
    }
    read_numbers(&line[word.len()..], numbers)
}

/// Takes the next line and reads its numbers. The answer is false exactly where it is missing or not of this form.
pub(crate) fn take_numbers(lines: &mut Lines<'_>, word: &[u8], numbers: &mut [i64]) -> bool
    ensures form { let read = numbers_at lines.old 1 word.now (length numbers.old) in MatchBool result (read ≡ Some numbers.new) (read ≡ None) }
    ensures rest { lines.new ≡ drop 1 lines.old }
{
    match lines.next() {
        Some(line) => read_after(word, line, numbers),
        None => false,
    }
}
