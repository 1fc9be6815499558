//! The words that say what came of a certificate: that it is certified, which rule its drive breaks, or which line of it is refused.

ghost use Rattle.std.specs.Prelude.{◌≡◌, ◌≢◌, ◌++◌, pos, IfOk, OnOk};
ghost use Rattle.rail_base.specs.Texts.{spaced};
ghost use Rattle.run_parts.specs.CertificateTexts.{certified_text, fault_words, rule_name, rule_words};

use drive_rules::Rule;
use dual_certificate::CertFault;
use rail_base::put_spaced;
use std::alloc::{AllocError, Global};

/// The name of a rule of a drive.
fn rule_name(rule: Rule) -> &'static [u8]
    ensures { result.now ≡ rule_name rule }
{
    match rule {
        Rule::Length => b"length",
        Rule::Start => b"start",
        Rule::Stop => b"stop",
        Rule::Standing => b"standing",
        Rule::Limit => b"limit",
        Rule::Top => b"top",
        Rule::Traction => b"traction",
        Rule::Brake => b"brake",
        Rule::Late => b"late",
    }
}

/// A word and a number. The only error is want of memory.
pub fn numbered(alloc: Global, word: &[u8], number: u32) -> Result<Vec<u8>, AllocError>
    ensures { IfOk result (λ text. text.items ≡ word.now ++ spaced (pos number)) }
{
    let mut text = Vec::from_slice(alloc, word)?;
    put_spaced(alloc, &mut text, number as i128)?;
    Ok(text)
}

/// The words of a rule that a drive breaks, and of the place where. The only error is want of memory.
pub fn rule_words(alloc: Global, rule: Rule, place: u32) -> Result<Vec<u8>, AllocError>
    ensures { IfOk result (λ text. text.items ≡ rule_words rule place) }
{
    let mut text = Vec::from_slice(alloc, b"drive ")?;
    text.extend_from_slice(rule_name(rule))?;
    put_spaced(alloc, &mut text, place as i128)?;
    Ok(text)
}

/// The words of a fault of a certificate's text. The only error is want of memory, which the fault may itself be.
pub fn fault_words(alloc: Global, fault: CertFault) -> Result<Vec<u8>, AllocError>
    ensures sound { OnOk result (fault ≢ CertFault.NoMemory) }
    ensures words { IfOk result (λ text. text.items ≡ fault_words fault) }
{
    match fault {
        CertFault::TooLong => Vec::from_slice(alloc, b"too-long"),
        CertFault::Form(line) => numbered(alloc, b"form", line),
        CertFault::Range(line) => numbered(alloc, b"range", line),
        CertFault::NoMemory => Err(AllocError),
    }
}

/// The line of a certificate that holds: its energy and its bound, in 0.5 microjoule. The only error is want of memory.
pub fn certified_text(alloc: Global, energy: i128, bound: i128) -> Result<Vec<u8>, AllocError>
    ensures { IfOk result (λ text. text.items ≡ certified_text energy bound) }
{
    let mut text = Vec::from_slice(alloc, b"certified energy")?;
    put_spaced(alloc, &mut text, energy)?;
    text.extend_from_slice(b" bound")?;
    put_spaced(alloc, &mut text, bound)?;
    text.push(b'\n')?;
    Ok(text)
}
