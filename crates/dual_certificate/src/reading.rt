//! Reading certificates.

ghost use Rattle.std.specs.Prelude.{◌≡◌, ◌+◌, ◌^◌, ◌≤◌, ◌≤ℤ◌, pos, true, length, Ok, IfOk, IfSome};
ghost use Rattle.std.specs.Int.RustNames.{unsigned_abs};
ghost use Rattle.dual_certificate.specs.declared.certificate.Certificate.{Certificate as CertificateData};
ghost use Rattle.dual_certificate.specs.Text.{IsCertificate, text_of};
ghost use Rattle.dual_certificate.specs.Grammar.{Gives, body_at, cell_fits, cell_form, cells_read, certificate_in, certificate_of, is_speed, point_at, price_fits, points_at, potential_fits, potential_form, prices_at, prices_read};

use crate::certificate::{CellList, CertCell, CertPoint, Certificate, PointList, PriceList};
use crate::fault::CertFault;
use crate::number::{MOST, read_spelled};
use crate::text::{Rest, after_word, cut, number_before};
use rail_base::Fields;
use std::alloc::Global;

/// The bytes of a certificate's text, at most.
const MOST_BYTES: usize = 8_388_608;

/// The greatest price of a timing point, in 0.5 microjoule a ms.
const MOST_PRICE: i128 = 1 << 50;

/// The prices of a certificate, at most.
const MOST_PRICES: usize = 64;

/// The cells of a certificate, at most.
const MOST_CELLS: usize = 54_001;

/// The greatest speed, cm/s.
const TOP: i128 = 12_000;

/// The line of the first point.
const FIRST_POINT: u32 = 6;

/// Whether a price is in its range, and there is room for one more.
fn price_fits(room: usize, price: i128) -> bool
    ensures { result ≡ price_fits room price }
{
    0 < room && (0 <= price && price <= MOST_PRICE)
}

/// The prices that fields of line 5 say. `Form` where a field is no number, and else `Range` where a price is out of range or there are too
/// many.
fn price_fields(alloc: Global, mut fields: Fields<'_>) -> Result<PriceList, CertFault>
    ensures { Gives (λ prices. prices) result (prices_read true 64 fields.entry) }
{
    let mut prices = PriceList::new(alloc);
    let mut room = MOST_PRICES;
    let mut in_range = true;
    while let Some(field) = fields.next() {
        let Some(price) = read_spelled(field) else {
            return Err(CertFault::Form(5));
        };
        in_range = in_range & price_fits(room, price);
        if in_range {
            prices.push(price as u64)?;
            room -= 1;
        }
    }
    if in_range {
        Ok(prices)
    } else {
        Err(CertFault::Range(5))
    }
}

/// Takes the line of the prices, line 5: at least one and at most 64 of them, each from 0 to 2^50. `Form` where it isn't of its form, `Range`
/// where it is and a price is out of range or one too many. `NoMemory` is want of memory.
#[tactic(auto, unfolding(crate::specs::Grammar::prices_at))]
pub fn read_prices(alloc: Global, text: &mut Rest<'_>) -> Result<PriceList, CertFault>
    ensures { Gives (λ prices. (prices, text.new)) result (prices_at text.old) }
{
    let line = text.line(5)?;
    let rest = after_word(5, b"prices ", line)?;
    price_fields(alloc, Fields::new(rest))
}

/// What a potential says, and `None` exactly where it is neither `-` nor a number in its shortest spelling.
fn read_potential(text: &[u8]) -> Option<Option<i128>>
    ensures { result ≡ potential_form text.now }
{
    if text == b"-".as_slice() {
        return Some(None);
    }
    let potential = read_spelled(text)?;
    Some(Some(potential))
}

/// The first speed and the potential of a cell's field, and `None` exactly where it isn't of its form.
fn read_cell(field: &[u8]) -> Option<(i128, Option<i128>)>
    ensures value { result ≡ cell_form field.now }
    ensures small { IfSome result (λ c. unsigned_abs c.0 ≤ 2 ^ 100 + 1) }
{
    let (speed, rest) = cut(b'=', field)?;
    let first = read_spelled(speed)?;
    let potential = read_potential(rest)?;
    Some((first, potential))
}

/// Whether a potential is in its range.
fn is_potential(potential: Option<i128>) -> bool
    ensures { result ≡ potential_fits potential }
{
    match potential {
        Some(value) => -MOST <= value && value <= MOST,
        None => true,
    }
}

/// Whether a cell is in its range: its first speed from `least` to `greatest`, and there is room for one more.
fn cell_fits(room: usize, least: i128, greatest: i128, first: i128, potential: Option<i128>) -> bool
    ensures { result ≡ cell_fits greatest (room, least) (first, potential) }
{
    0 < room && (least <= first && first <= greatest && is_potential(potential))
}

/// The cells that fields of line n say, at most `room` and up to the greatest speed, where what stands before them on the line is in range.
/// `Form` where a field isn't of its form, and else `Range` where something is out of range.
fn cell_fields(
    alloc: Global,
    n: u32,
    fits: bool,
    room: usize,
    greatest: i128,
    mut fields: Fields<'_>,
) -> Result<CellList, CertFault>
    requires fits { fits ≡ true → (pos 0 ≤ℤ greatest) × (greatest ≤ℤ pos 12000) }
    ensures value { Gives (λ cells. cells) result (cells_read n greatest fits (room, pos 0) fields.entry) }
    ensures few { IfOk result (λ cells. length cells ≤ room) }
{
    let mut cells = CellList::new(alloc);
    let mut left = room;
    let mut least = 0;
    let mut in_range = fits;
    while let Some(field) = fields.next() {
        let Some((first, potential)) = read_cell(field) else {
            return Err(CertFault::Form(n));
        };
        in_range = in_range & cell_fits(left, least, greatest, first, potential);
        if in_range {
            cells.push(CertCell {
                first: first as u16,
                potential,
            })?;
            left -= 1;
            least = first + 1;
        }
    }
    if in_range {
        Ok(cells)
    } else {
        Err(CertFault::Range(n))
    }
}

/// Whether a number is a speed, in cm/s.
fn is_speed(number: i128) -> bool
    ensures { result ≡ is_speed number }
{
    0 <= number && number <= TOP
}

/// Takes the point on line n, with at most `room` cells.
#[tactic(auto, unfolding(crate::specs::Grammar::point_at))]
fn read_point(
    alloc: Global,
    n: u32,
    room: usize,
    text: &mut Rest<'_>,
) -> Result<CertPoint, CertFault>
    ensures value { Gives (λ point. (point, text.new)) result (point_at n room text.old) }
    ensures few { IfOk result (λ point. length point.cells ≤ room) }
{
    let line = text.line(n)?;
    let rest = after_word(n, b"point ", line)?;
    let (speed, rest) = number_before(n, rest)?;
    let (greatest, rest) = number_before(n, rest)?;
    let fit = is_speed(speed) && is_speed(greatest);
    let cells = cell_fields(alloc, n, fit, room, greatest, Fields::new(rest))?;
    Ok(CertPoint {
        speed: speed as u16,
        greatest: greatest as u16,
        cells: cells.copy(alloc)?,
    })
}

/// Takes so many points.
fn read_points(alloc: Global, count: u32, text: &mut Rest<'_>) -> Result<PointList, CertFault>
    requires { count ≤ 4001 }
    ensures { Gives (λ points. (points, text.new)) result (points_at count 6 54001 text.old) }
{
    let mut points = PointList::new(alloc);
    let mut room = MOST_CELLS;
    for i in 0..count {
        let point = read_point(alloc, FIRST_POINT + i, room, text)?;
        room -= point.cells.items().len();
        points.push(point)?;
    }
    Ok(points)
}

/// Takes so many points and the line `end`, behind which nothing stands.
#[tactic(auto, unfolding(crate::specs::Grammar::body_at))]
fn read_body(alloc: Global, count: u32, text: &mut Rest<'_>) -> Result<PointList, CertFault>
    requires { count ≤ 4001 }
    ensures { Gives (λ points. points) result (body_at count text.old) }
{
    let points = read_points(alloc, count, text)?;
    text.exact(FIRST_POINT + count, b"end")?;
    if !text.is_empty() {
        return Err(CertFault::Form(FIRST_POINT + 1 + count));
    }
    Ok(points)
}

/// The certificate that a text is.
#[tactic(auto, unfolding(crate::specs::Grammar::certificate_of))]
fn read_lines(alloc: Global, bytes: &[u8]) -> Result<Certificate, CertFault>
    ensures { Gives (λ c. c) result (certificate_of bytes.now) }
{
    let mut text = Rest::new(bytes);
    text.exact(1, b"certificate 1")?;
    let count = text.number(2, b"points ", 2, 4001)? as u32;
    let energy = text.number(3, b"energy ", -MOST, MOST)?;
    let bound = text.number(4, b"bound ", -MOST, MOST)?;
    let prices = read_prices(alloc, &mut text)?;
    let points = read_body(alloc, count, &mut text)?;
    Ok(Certificate {
        energy,
        bound,
        prices,
        points,
    })
}

/// The certificate that a text is, all of it: read in one pass over its bytes.
///
/// `TooLong` comes exactly where the text has more than 8,388,608 bytes. Else the first line that is not as it should be is the refusal,
/// lines counted from 1: `Form` where it isn't of its form, `Range` where it is of its form and something on it is out of range.
/// `NoMemory` may come at any place. `docs/CERTIFICATE.md` has the form of the text, line by line.
pub fn read(alloc: Global, text: &[u8]) -> Result<Certificate, CertFault>
    // What is read is in range, and the text is the one that it has.
    ensures found { IfOk result (λ c. IsCertificate c × (text.now ≡ text_of c)) }
    // The text of a certificate in range is read again, unless memory runs out.
    ensures again { (c : CertificateData) → IsCertificate c → text.now ≡ text_of c → Gives (λ x. x) result (Ok c) }
    // Which line is refused, and why.
    ensures exact { Gives (λ c. c) result (certificate_in text.now) }
{
    read_whole(alloc, text)
}

/// The same, by the grammar alone.
fn read_whole(alloc: Global, text: &[u8]) -> Result<Certificate, CertFault>
    ensures { Gives (λ c. c) result (certificate_in text.now) }
{
    if text.len() > MOST_BYTES {
        return Err(CertFault::TooLong);
    }
    read_lines(alloc, text)
}
