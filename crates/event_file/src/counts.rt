//! Numbers in the fields of an event.

ghost use Rattle.std.specs.Prelude.{◌≡◌, Some, None, length, MatchBool};
ghost use Rattle.event_file.specs.Events.{counts_in};

use rail_base::{Fields, read_count};

/// Reads the fields that are left as numbers, one for each place. The answer is false exactly where another number of fields is
/// left, or one of them is no number.
pub(crate) fn read_counts(mut fields: Fields<'_>, counts: &mut [u32]) -> bool
    ensures { let read = counts_in (length counts.old) fields.entry in MatchBool result (read ≡ Some counts.new) (read ≡ None) }
{
    for count in counts.iter_mut() {
        match fields.next().and_then(|field| read_count(field)) {
            Some(read) => *count = read,
            None => return false,
        }
    }
    fields.next().is_none()
}
