//! Writing costate certificates.

ghost use Rattle.std.specs.Prelude.{◌≡◌, ◌++◌, ◌∷◌, ◌≤◌, ℤ, pos, map, codes, length, IfOk, OnOk};
ghost use Rattle.std.specs.Fmt.{signed_decimal};
ghost use Rattle.std.specs.List.{flat_map};
ghost use Rattle.costate_text.specs.Text.{IsCostateCertificate, number_field, numbers_line, speed_field, text_of};

use crate::certificate::CostateCertificate;
use dual_certificate::{put_one, put_prices};
use rail_base::{put_line, put_spaced};
use std::alloc::{AllocError, Global};

/// Appends speeds, each behind a space.
fn put_each_speed(alloc: Global, out: &mut Vec<u8>, speeds: &[u16]) -> Result<(), AllocError>
    ensures { OnOk result (out.new.items ≡ out.old.items ++ flat_map speed_field speeds.now) }
{
    for speed in speeds {
        put_spaced(alloc, out, *speed as i128)?;
    }
    Ok(())
}

/// Appends costates, each behind a space.
fn put_each_costate(alloc: Global, out: &mut Vec<u8>, costates: &[i32]) -> Result<(), AllocError>
    ensures { OnOk result (out.new.items ≡ out.old.items ++ flat_map number_field costates.now) }
{
    for costate in costates {
        put_spaced(alloc, out, *costate as i128)?;
    }
    Ok(())
}

/// Appends the line of the speeds.
fn put_speeds(alloc: Global, out: &mut Vec<u8>, speeds: &[u16]) -> Result<(), AllocError>
    requires { 1 ≤ length speeds.now }
    ensures { OnOk result (out.new.items ≡ out.old.items ++ numbers_line (codes "speeds ") (map pos speeds.now)) }
{
    out.extend_from_slice(b"speeds")?;
    put_each_speed(alloc, out, speeds)?;
    out.push(b'\n')?;
    Ok(())
}

/// Appends the line of the costates.
fn put_costates(alloc: Global, out: &mut Vec<u8>, costates: &[i32]) -> Result<(), AllocError>
    requires { 1 ≤ length costates.now }
    ensures { OnOk result (out.new.items ≡ out.old.items ++ numbers_line (codes "costates ") costates.now) }
{
    out.extend_from_slice(b"costates")?;
    put_each_costate(alloc, out, costates)?;
    out.push(b'\n')?;
    Ok(())
}

/// Appends the one text of a certificate, whose numbers and counts are in their ranges.
pub fn put_costate_certificate(
    alloc: Global,
    out: &mut Vec<u8>,
    certificate: &CostateCertificate,
) -> Result<(), AllocError>
    requires { IsCostateCertificate certificate.now }
    ensures { OnOk result (out.new.items ≡ out.old.items ++ text_of certificate.now) }
{
    let speeds = certificate.speeds.items();
    put_line(out, b"costate 1")?;
    put_one(alloc, out, b"points ", speeds.len() as i128)?;
    put_one(alloc, out, b"energy ", certificate.energy)?;
    put_one(alloc, out, b"bound ", certificate.bound)?;
    put_prices(alloc, out, certificate.prices.items())?;
    put_speeds(alloc, out, speeds)?;
    put_costates(alloc, out, certificate.costates.items())?;
    put_line(out, b"end")?;
    Ok(())
}

/// The one text of a certificate, whose numbers and counts are in their ranges. It is read again by `read`.
pub fn write(alloc: Global, certificate: &CostateCertificate) -> Result<Vec<u8>, AllocError>
    requires { IsCostateCertificate certificate.now }
    ensures { IfOk result (λ text. text.items ≡ text_of certificate.now) }
{
    let mut out = Vec::new(alloc);
    put_costate_certificate(alloc, &mut out, certificate)?;
    Ok(out)
}
