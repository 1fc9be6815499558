//! The conditions of a costate certificate, in the order in which they are tried.
ghost use Rattle.std.specs.Prelude.{◌≡◌, ◌+◌, ◌^◌, ◌≤◌, ℕ, ℤ, pos, List, None, Some, length, slice_index, slice_index_or, IfOk, IfErr, IfSome};
ghost use Rattle.std.specs.Int.RustNames.{unsigned_abs};
ghost use Rattle.rail_specs.specs.Cost.{IsBound};
ghost use Rattle.rail_specs.specs.Ranges.{AreRanges, no_narrowing};
ghost use Rattle.bound_specs.specs.Prices.{AreFor};
ghost use Rattle.costate_bound.specs.Costs.{CoversWork};
ghost use Rattle.costate_bound.specs.Relaxation.{costate_bound};
ghost use Rattle.costate_text.specs.Text.{IsCostateCertificate};
ghost use Rattle.costate_checker.specs.declared.refused.Refused.TheVariants.{NoMemory};
ghost use Rattle.costate_checker.specs.Holds.{Holds, Shows, relaxation_in};
ghost use Rattle.costate_checker.specs.Refusals.{bound_refusal, counts_refusal, drive_refusal, early_refusal, Refuses};

use crate::refused::{Field, Refused};
use costate_bound::Relaxation;
use costate_text::CostateCertificate;
use drive_rules::{Judged, Rules};
use link_costs::prices_for;
use rail_base::StepCost;
use rail_specs::Narrow;
use speed_envelopes::{Ranges, ranges};
use std::alloc::Global;
use time_multipliers::Prices;

/// The counts of points and prices.
fn broken_count(rules: &Rules, certificate: &CostateCertificate) -> Option<Refused>
    ensures { result ≡ counts_refusal rules.now certificate.now }
{
    if certificate.speeds.items().len() != rules.points() {
        return Some(Refused::Number(Field::Points));
    }
    if certificate.prices.items().len() != rules.timings().len() {
        return Some(Refused::Number(Field::Prices));
    }
    None
}

/// The drive and its energy.
fn broken_drive<C: StepCost>(
    rules: &Rules,
    cost: &C,
    certificate: &CostateCertificate,
) -> Option<Refused>
    ensures { result ≡ drive_refusal (C.cost cost.now) rules.now certificate.now }
{
    match rules.judge(certificate.speeds.items(), cost) {
        Judged::Broken(rule, place) => Some(Refused::Drive(rule, place)),
        Judged::Kept { cost } => {
            if certificate.energy == cost {
                None
            } else {
                Some(Refused::Number(Field::Energy))
            }
        }
    }
}

/// The bound that a certificate's prices, costates and speeds give, where the drives have these ranges of speeds.
fn own_bound(
    rules: &Rules,
    share: u16,
    prices: &Prices,
    certificate: &CostateCertificate,
    ranges: &Ranges,
) -> i128
    requires certificate { IsCostateCertificate certificate.now }
    requires points { length certificate.now.speeds ≡ length rules.now.steps + 1 }
    requires timings { AreFor rules.now prices.now }
    requires prices { prices.now.values ≡ certificate.now.prices }
    requires ranges { AreRanges rules.now no_narrowing ranges.now.low ranges.now.high }
    ensures value { result ≡ costate_bound (relaxation_in rules.now share certificate.now) ranges.now.low ranges.now.high }
    ensures bounds { (cost : ℤ → ℤ) → CoversWork share cost → IsBound cost rules.now result }
    ensures small { unsigned_abs result ≤ 2 ^ 98 }
{
    let relaxation = Relaxation::make(
        rules,
        share,
        prices,
        certificate.speeds.items(),
        certificate.costates.items(),
    );
    relaxation.bound(ranges)
}

/// The bound, where the drives have these ranges of speeds.
fn check_bound(
    alloc: Global,
    rules: &Rules,
    share: u16,
    certificate: &CostateCertificate,
    ranges: &Ranges,
) -> Result<(), Refused>
    requires certificate { IsCostateCertificate certificate.now }
    requires points { length certificate.now.speeds ≡ length rules.now.steps + 1 }
    requires prices { length certificate.now.prices ≡ length rules.now.timings }
    requires ranges { AreRanges rules.now no_narrowing ranges.now.low ranges.now.high }
    ensures refuses { Refuses result (bound_refusal certificate.now (costate_bound (relaxation_in rules.now share certificate.now) ranges.now.low ranges.now.high)) }
    ensures bounds { IfOk result (λ _. (cost : ℤ → ℤ) → CoversWork share cost → IsBound cost rules.now certificate.now.bound) }
{
    let prices = prices_for(alloc, rules, certificate.prices.items())?;
    let bound = own_bound(rules, share, &prices, certificate, ranges);
    if certificate.bound == bound {
        Ok(())
    } else {
        Err(Refused::Number(Field::Bound))
    }
}

/// The first condition that fails.
fn first_broken<C: StepCost>(
    alloc: Global,
    rules: &Rules,
    cost: &C,
    share: u16,
    certificate: &CostateCertificate,
) -> Result<(), Refused>
    requires { IsCostateCertificate certificate.now }
    ensures early { IfSome (early_refusal (C.cost cost.now) rules.now certificate.now) (λ e. Refuses result (Some e)) }
    ensures late { early_refusal (C.cost cost.now) rules.now certificate.now ≡ None → (least greatest : List ℕ) → AreRanges rules.now no_narrowing least greatest → Refuses result (bound_refusal certificate.now (costate_bound (relaxation_in rules.now share certificate.now) least greatest)) }
    ensures ranges { IfOk result (λ _. (least : List ℕ) × (greatest : List ℕ) × AreRanges rules.now no_narrowing least greatest) }
    ensures bounds { IfOk result (λ _. (cost : ℤ → ℤ) → CoversWork share cost → IsBound cost rules.now certificate.now.bound) }
{
    if let Some(refused) = broken_count(rules, certificate) {
        return Err(refused);
    }
    if let Some(refused) = broken_drive(rules, cost, certificate) {
        return Err(refused);
    }
    match ranges(alloc, rules, &Narrow::none())? {
        Some(ranges) => check_bound(alloc, rules, share, certificate, &ranges),
        None => Err(Refused::Number(Field::Bound)),
    }
}

/// Whether a costate certificate holds for the rules, the cost of work and the share of braking work that comes back, in per mille: `Ok`
/// exactly where it does, and else the first condition that fails.
///
/// The conditions in order: the counts of points and prices; the speeds are a drive on time; the energy is its cost; the bound is the one that
/// the prices, the costates and the speeds give, no lower number either. `NoMemory` may come at any place. The cost must charge work at least
/// itself, and at least that share of it (`costate_bound::costs_cover_work`).
pub fn check<C: StepCost>(
    alloc: Global,
    rules: &Rules,
    cost: &C,
    share: u16,
    certificate: &CostateCertificate,
) -> Result<(), Refused>
    requires certificate { IsCostateCertificate certificate.now }
    requires covers { CoversWork share (C.cost cost.now) }
    ensures holds { IfOk result (λ _. Holds (C.cost cost.now) share rules.now certificate.now) }
    ensures fails { IfErr result (λ e. (e ≡ NoMemory → ⊥) → Holds (C.cost cost.now) share rules.now certificate.now → ⊥) }
    // Its energy is that of a drive on time, and no drive on time costs less than its bound.
    ensures shows { IfOk result (λ _. Shows (C.cost cost.now) rules.now certificate.now) }
    // Which condition fails first: of the counts, the drive and its energy, and then the bound.
    ensures early { IfSome (early_refusal (C.cost cost.now) rules.now certificate.now) (λ e. Refuses result (Some e)) }
    ensures late { early_refusal (C.cost cost.now) rules.now certificate.now ≡ None → (least greatest : List ℕ) → AreRanges rules.now no_narrowing least greatest → Refuses result (bound_refusal certificate.now (costate_bound (relaxation_in rules.now share certificate.now) least greatest)) }
{
    rules.known();
    first_broken(alloc, rules, cost, share, certificate)
}
