//! What a report claims of a run, and why a claim is refused.

ghost use Rattle.std.specs.Prelude.{◌≡◌, None, Some, IfOk, OnOk, length};
ghost use Rattle.rail_specs.specs.Cost.{cost_of};
ghost use Rattle.dual_certificate.specs.Contents.{speeds_of};
ghost use Rattle.dual_certificate.specs.Grammar.{Gives};
ghost use Rattle.drive_rules.specs.Verdict.{verdict};
ghost use Rattle.sheet_run.specs.Claims.{IsKeptClaim, IsSmall, Refuses, claim_by_cells, claim_by_costates, claim_in, claim_refusal, drive_refusal, has_part};

use costate_text::{CostateCertificate, SpeedList};
use drive_rules::{Judged, Rules};
use dual_certificate::{CertFault, Certificate, Title, titled_part};
use rail_base::StepCost;
use run_parts::rule_words;
use std::alloc::{AllocError, Global};

/// What the certificate of a report claims, by whichever bound: a drive, what it costs, and what every drive on time costs at least.
#[derive(Drop)]
pub struct Claim {
    /// What the drive costs, in 0.5 microjoule.
    pub energy: i128,
    /// What every drive on time costs at least, in 0.5 microjoule.
    pub bound: i128,
    /// How many prices of time show the bound.
    pub prices: usize,
    /// The drive's speeds, cm/s, one for each point.
    pub speeds: SpeedList,
}

/// The speeds of a certificate by cells.
fn speeds_of(alloc: Global, certificate: &Certificate) -> Result<SpeedList, AllocError>
    ensures { IfOk result (λ speeds. speeds ≡ speeds_of certificate.now) }
{
    let mut speeds = SpeedList::new(alloc);
    for point in certificate.points.items() {
        speeds.push(point.speed)?;
    }
    Ok(speeds)
}

/// What a certificate by cells claims.
fn claim_by_cells(alloc: Global, certificate: &Certificate) -> Result<Claim, AllocError>
    ensures { IfOk result (λ claim. claim ≡ claim_by_cells certificate.now) }
{
    Ok(Claim {
        energy: certificate.energy,
        bound: certificate.bound,
        prices: certificate.prices.items().len(),
        speeds: speeds_of(alloc, certificate)?,
    })
}

/// What a certificate by costates claims.
fn claim_by_costates(certificate: CostateCertificate) -> Claim
    ensures { result ≡ claim_by_costates certificate }
{
    Claim {
        energy: certificate.energy,
        bound: certificate.bound,
        prices: certificate.prices.items().len(),
        speeds: certificate.speeds,
    }
}

/// What a report claims, or the first fault of the part that has its certificate. `NoMemory` may come at any place.
pub(crate) fn read_claim(alloc: Global, report: &[u8]) -> Result<Claim, CertFault>
    ensures exact { Gives (λ claim. claim) result (claim_in report.now) }
    ensures small { IfOk result IsSmall }
{
    let part = titled_part(Title::Certificate, report);
    if !part.is_empty() {
        let certificate = dual_certificate::read(alloc, part)?;
        Ok(claim_by_cells(alloc, &certificate)?)
    } else {
        let certificate = costate_text::read(alloc, titled_part(Title::Costate, report))?;
        Ok(claim_by_costates(certificate))
    }
}

/// Why a drive with its energy is refused, in words, or none where it is kept, on time, and costs this. Or want of memory.
fn drive_refusal<C: StepCost>(
    alloc: Global,
    rules: &Rules,
    cost: &C,
    claim: &Claim,
) -> Result<Option<Vec<u8>>, AllocError>
    ensures words { IfOk result (λ refused. Refuses refused (drive_refusal (C.cost cost.now) rules.now claim.now)) }
    ensures kept { IfOk result (λ refused. refused ≡ None → IsKeptClaim (C.cost cost.now) rules.now claim.now) }
{
    match rules.judge(claim.speeds.items(), cost) {
        Judged::Broken(rule, place) => {
            let words = rule_words(alloc, rule, place)?;
            Ok(Some(words))
        }
        Judged::Kept { cost } => {
            if claim.energy == cost {
                Ok(None)
            } else {
                let words = Vec::from_slice(alloc, b"number energy")?;
                Ok(Some(words))
            }
        }
    }
}

/// Why a claim is refused, in words: the first condition that fails, as a check has it before it looks at the bound. None where the speeds
/// are a drive on time that costs what is claimed. Or want of memory.
pub(crate) fn claim_refusal<C: StepCost>(
    alloc: Global,
    rules: &Rules,
    cost: &C,
    claim: &Claim,
) -> Result<Option<Vec<u8>>, AllocError>
    ensures words { IfOk result (λ refused. Refuses refused (claim_refusal (C.cost cost.now) rules.now claim.now)) }
    ensures kept { IfOk result (λ refused. refused ≡ None → IsKeptClaim (C.cost cost.now) rules.now claim.now) }
{
    if claim.speeds.items().len() != rules.points() {
        let words = Vec::from_slice(alloc, b"number points")?;
        return Ok(Some(words));
    }
    if claim.prices != rules.timings().len() {
        let words = Vec::from_slice(alloc, b"number prices")?;
        return Ok(Some(words));
    }
    drive_refusal(alloc, rules, cost, claim)
}
