//! The certificate of a short run, written and read.

use dual_certificate::{CertFault, Certificate, certificate_part, read, write};
use std::alloc::Global;
use std::test::Fail;

/// Lines in front of a certificate, and the certificate of a run of one step.
const REPORT: &[u8] =
    b"advice 1\ncertificate 12\ncertificate 1\npoints 2\nenergy 66\nbound -20\nprices 0\npoint 0 0 0=-20\npoint 800 1000 1=0 500=-\nend\n";

/// The fault of a text, none where it is read.
fn fault_of(alloc: Global, text: &[u8]) -> Option<CertFault> {
    read(alloc, text).err()
}

#[test]
fn one_text(rt: HostRuntime) -> Result<(), Fail> {
    let part = certificate_part(REPORT);
    let certificate = read(rt.alloc(), part)
        .ok()
        .ok_or("the part is a certificate")?;
    assert!(rt; certificate.points.items().len() == 2);
    assert!(rt; certificate.points.items()[1].cells.items().len() == 2);
    let text = write(rt.alloc(), &certificate)?;
    assert!(rt; text.as_slice() == part);
    assert!(rt; fault_of(rt.alloc(), &part[..part.len() - 1]) == Some(CertFault::Form(8)));
    assert!(rt; fault_of(rt.alloc(), certificate_part(&REPORT[..24])) == Some(CertFault::Form(1)));
    Ok(())
}
