//! Reading costate certificates.

ghost use Rattle.std.specs.Prelude.{◌≡◌, ◌≤ℤ◌, ◌^◌, ◌≤◌, ℤ, pos, negsuc, true, length, map, All, Ok, IfOk};
ghost use Rattle.std.specs.Int.RustNames.{unsigned_abs};
ghost use Rattle.dual_certificate.specs.Grammar.{Gives};
ghost use Rattle.costate_text.specs.declared.certificate.CostateCertificate.{CostateCertificate as CertificateData};
ghost use Rattle.costate_text.specs.Text.{IsCostateCertificate, text_of};
ghost use Rattle.costate_text.specs.Grammar.{certificate_of, lists_at, number_fits, numbers_at, numbers_read};

use crate::certificate::{CostateCertificate, CostateList, SpeedList};
use dual_certificate::{CertFault, MOST, Rest, after_word, read_prices, read_spelled};
use rail_base::Fields;
use std::alloc::{AllocError, Global};

/// The greatest size of a costate.
const MOST_COSTATE: i128 = 1 << 22;

/// The greatest speed, cm/s.
const TOP: i128 = 12_000;

/// Whether a number is from `low` to `high`, and there is room for one more.
fn number_fits(low: i128, high: i128, room: usize, number: i128) -> bool
    ensures { result ≡ number_fits low high room number }
{
    0 < room && (low <= number && number <= high)
}

/// The numbers that fields of line n say, at most so many. `Form` where a field is no number, and else `Range` where a number is out of range
/// or there are too many.
fn number_fields(
    alloc: Global,
    n: u32,
    low: i128,
    high: i128,
    count: usize,
    mut fields: Fields<'_>,
) -> Result<CostateList, CertFault>
    requires low { unsigned_abs low ≤ 2 ^ 22 }
    requires high { unsigned_abs high ≤ 2 ^ 22 }
    ensures { Gives (λ numbers. numbers) result (numbers_read n low high true count fields.entry) }
{
    let mut numbers = CostateList::new(alloc);
    let mut room = count;
    let mut in_range = true;
    while let Some(field) = fields.next() {
        let Some(number) = read_spelled(field) else {
            return Err(CertFault::Form(n));
        };
        in_range = in_range & number_fits(low, high, room, number);
        if in_range {
            numbers.push(number as i32)?;
            room -= 1;
        }
    }
    if in_range {
        Ok(numbers)
    } else {
        Err(CertFault::Range(n))
    }
}

/// Takes line n, which is a word and so many numbers from `low` to `high`.
#[tactic(auto, unfolding(crate::specs::Grammar::numbers_at))]
fn read_numbers(
    alloc: Global,
    n: u32,
    word: &[u8],
    low: i128,
    high: i128,
    count: usize,
    text: &mut Rest<'_>,
) -> Result<CostateList, CertFault>
    requires low { unsigned_abs low ≤ 2 ^ 22 }
    requires high { unsigned_abs high ≤ 2 ^ 22 }
    ensures { Gives (λ numbers. (numbers, text.new)) result (numbers_at n word.now low high count text.old) }
{
    let line = text.line(n)?;
    let rest = after_word(n, word, line)?;
    let numbers = number_fields(alloc, n, low, high, count, Fields::new(rest))?;
    if numbers.items().len() != count {
        return Err(CertFault::Range(n));
    }
    Ok(numbers)
}

/// Takes the lines of the speeds and of the costates, and the line `end`, behind which nothing stands.
#[tactic(auto, unfolding(crate::specs::Grammar::lists_at))]
fn read_lists(
    alloc: Global,
    count: usize,
    text: &mut Rest<'_>,
) -> Result<(CostateList, CostateList), CertFault>
    requires { 1 ≤ count }
    ensures { Gives (λ lists. (lists.0, lists.1)) result (lists_at count text.old) }
{
    let speeds = read_numbers(alloc, 6, b"speeds ", 0, TOP, count, text)?;
    let costates = read_numbers(
        alloc,
        7,
        b"costates ",
        -MOST_COSTATE,
        MOST_COSTATE,
        count - 1,
        text,
    )?;
    text.exact(8, b"end")?;
    if !text.is_empty() {
        return Err(CertFault::Form(9));
    }
    Ok((speeds, costates))
}

/// Numbers that are speeds, as speeds.
fn as_speeds(alloc: Global, numbers: &[i32]) -> Result<SpeedList, AllocError>
    requires { All (λ z. (pos 0 ≤ℤ z) × (z ≤ℤ pos 12000)) numbers.now }
    ensures { IfOk result (λ speeds. speeds ≡ map unsigned_abs numbers.now) }
{
    let mut speeds = SpeedList::new(alloc);
    for number in numbers {
        speeds.push(number.unsigned_abs() as u16)?;
    }
    Ok(speeds)
}

/// The certificate that a text is.
#[tactic(auto, unfolding(crate::specs::Grammar::certificate_of))]
fn read_lines(alloc: Global, bytes: &[u8]) -> Result<CostateCertificate, CertFault>
    ensures { Gives (λ c. c) result (certificate_of bytes.now) }
{
    let mut text = Rest::new(bytes);
    text.exact(1, b"costate 1")?;
    let count = text.number(2, b"points ", 2, 4001)? as usize;
    let energy = text.number(3, b"energy ", -MOST, MOST)?;
    let bound = text.number(4, b"bound ", -MOST, MOST)?;
    let prices = read_prices(alloc, &mut text)?;
    let (speeds, costates) = read_lists(alloc, count, &mut text)?;
    Ok(CostateCertificate {
        energy,
        bound,
        prices,
        speeds: as_speeds(alloc, speeds.items())?,
        costates,
    })
}

/// The costate certificate that a text is, all of it: read in one pass over its bytes.
///
/// The first line that is not as it should be is the refusal, lines counted from 1: `Form` where it isn't of its form, `Range` where it is of
/// its form and a number or a count on it is out of range. `NoMemory` may come at any place, and `TooLong` never comes. `docs/COSTATE.md` has
/// the form of the text, line by line.
pub fn read(alloc: Global, text: &[u8]) -> Result<CostateCertificate, CertFault>
    // What is read is in range, and the text is the one that it has.
    ensures found { IfOk result (λ c. IsCostateCertificate c × (text.now ≡ text_of c)) }
    // The text of a certificate in range is read again, unless memory runs out.
    ensures again { (c : CertificateData) → IsCostateCertificate c → text.now ≡ text_of c → Gives (λ x. x) result (Ok c) }
    // Which line is refused, and why.
    ensures exact { Gives (λ c. c) result (certificate_of text.now) }
{
    read_lines(alloc, text)
}
