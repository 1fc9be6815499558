//! Writing certificates.

ghost use Rattle.std.specs.Prelude.{◌≡◌, ◌++◌, ◌≤◌, length, All, IfOk, OnOk};
ghost use Rattle.std.specs.List.{flat_map};
ghost use Rattle.dual_certificate.specs.Text.{IsCertificate, cell_field, cell_text, one_line, point_line, price_field, prices_line, text_of};

use crate::certificate::{CertCell, CertPoint, Certificate};
use rail_base::{put_line, put_number, put_spaced};
use std::alloc::{AllocError, Global};

/// Appends a line of a word and a number.
#[tactic(auto, unfolding(crate::specs::Text::one_line))]
pub fn put_one(alloc: Global, out: &mut Vec<u8>, word: &[u8], n: i128) -> Result<(), AllocError>
    ensures { OnOk result (out.new.items ≡ out.old.items ++ one_line word.now n) }
{
    out.extend_from_slice(word)?;
    put_number(alloc, out, n)?;
    out.push(b'\n')?;
    Ok(())
}

/// Appends prices, each behind a space.
fn put_each_price(alloc: Global, out: &mut Vec<u8>, prices: &[u64]) -> Result<(), AllocError>
    ensures { OnOk result (out.new.items ≡ out.old.items ++ flat_map price_field prices.now) }
{
    for price in prices {
        put_spaced(alloc, out, *price as i128)?;
    }
    Ok(())
}

/// Appends the line of the prices.
pub fn put_prices(alloc: Global, out: &mut Vec<u8>, prices: &[u64]) -> Result<(), AllocError>
    requires { 1 ≤ length prices.now }
    ensures { OnOk result (out.new.items ≡ out.old.items ++ prices_line prices.now) }
{
    out.extend_from_slice(b"prices")?;
    put_each_price(alloc, out, prices)?;
    out.push(b'\n')?;
    Ok(())
}

/// Appends a cell.
fn put_cell(alloc: Global, out: &mut Vec<u8>, cell: &CertCell) -> Result<(), AllocError>
    ensures { OnOk result (out.new.items ≡ out.old.items ++ cell_text cell.now) }
{
    put_number(alloc, out, cell.first as i128)?;
    out.push(b'=')?;
    match cell.potential {
        Some(potential) => put_number(alloc, out, potential),
        None => {
            out.push(b'-')?;
            Ok(())
        }
    }
}

/// Appends cells, each behind a space.
fn put_each_cell(alloc: Global, out: &mut Vec<u8>, cells: &[CertCell]) -> Result<(), AllocError>
    ensures { OnOk result (out.new.items ≡ out.old.items ++ flat_map cell_field cells.now) }
{
    for cell in cells {
        out.push(b' ')?;
        put_cell(alloc, out, cell)?;
    }
    Ok(())
}

/// Appends the line of a point.
fn put_point(alloc: Global, out: &mut Vec<u8>, point: &CertPoint) -> Result<(), AllocError>
    requires { 1 ≤ length point.now.cells }
    ensures { OnOk result (out.new.items ≡ out.old.items ++ point_line point.now) }
{
    out.extend_from_slice(b"point")?;
    put_spaced(alloc, out, point.speed as i128)?;
    put_spaced(alloc, out, point.greatest as i128)?;
    put_each_cell(alloc, out, point.cells.items())?;
    out.push(b'\n')?;
    Ok(())
}

/// Appends the lines of points.
fn put_points(alloc: Global, out: &mut Vec<u8>, points: &[CertPoint]) -> Result<(), AllocError>
    requires { All (λ p. 1 ≤ length p.cells) points.now }
    ensures { OnOk result (out.new.items ≡ out.old.items ++ flat_map point_line points.now) }
{
    for point in points {
        put_point(alloc, out, point)?;
    }
    Ok(())
}

/// Appends the one text of a certificate, whose numbers are in their ranges.
#[tactic(auto, unfolding(crate::specs::Text::text_of))]
pub fn put_certificate(
    alloc: Global,
    out: &mut Vec<u8>,
    certificate: &Certificate,
) -> Result<(), AllocError>
    requires { IsCertificate certificate.now }
    ensures { OnOk result (out.new.items ≡ out.old.items ++ text_of certificate.now) }
{
    put_line(out, b"certificate 1")?;
    let points = certificate.points.items();
    put_one(alloc, out, b"points ", points.len() as i128)?;
    put_one(alloc, out, b"energy ", certificate.energy)?;
    put_one(alloc, out, b"bound ", certificate.bound)?;
    put_prices(alloc, out, certificate.prices.items())?;
    put_points(alloc, out, points)?;
    put_line(out, b"end")?;
    Ok(())
}

/// The one text of a certificate, whose numbers are in their ranges.
pub fn write(alloc: Global, certificate: &Certificate) -> Result<Vec<u8>, AllocError>
    requires { IsCertificate certificate.now }
    ensures { IfOk result (λ text. text.items ≡ text_of certificate.now) }
{
    let mut out = Vec::new(alloc);
    put_certificate(alloc, &mut out, certificate)?;
    Ok(out)
}
