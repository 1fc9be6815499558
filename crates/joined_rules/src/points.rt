//! What the calls of a service say of each point.

ghost use Rattle.std.specs.Prelude.{◌≡◌, ◌≢◌, None, IfSome, ◌+◌, ◌-◌, ◌<◌, ◌≤◌, ℕ, false, length, slice_index, slice_index_or, IfOk};
ghost use Rattle.line_file.specs.Shape.{call_at, AreCalls};
ghost use Rattle.joined_rules.specs.Joined.{is_stop_call, dwell_of};
ghost use Rattle.joined_rules.specs.JoinedParts.{Rising, CallsRise, AreCallsAt, IsCloseStop, NoneClose};

use line_file::Call;
use std::alloc::{AllocError, Global};

/// The first call from this one on that lies at or above the place, or the number of calls.
fn call_from(calls: &[Call], first: usize, place: u32) -> usize
    requires within { first ≤ length calls.now }
    requires before { (j : ℕ) → j < first → (call_at calls.now j).place < place }
    ensures within { result ≤ length calls.now }
    ensures before { (j : ℕ) → j < result → (call_at calls.now j).place < place }
    ensures from { result < length calls.now → place ≤ (call_at calls.now result).place }
{
    let mut k = first;
    while k < calls.len() && calls[k].place < place {
        k += 1;
    }
    k
}

/// The call that stands at the place, where it is this one or none, or the number of calls.
fn call_at_place(calls: &[Call], next: usize, place: u32) -> usize
    requires calls { CallsRise calls.now }
    requires within { next ≤ length calls.now }
    requires before { (j : ℕ) → j < next → (call_at calls.now j).place < place }
    requires from { next < length calls.now → place ≤ (call_at calls.now next).place }
    ensures within { result ≤ length calls.now }
    ensures call { result < length calls.now → (call_at calls.now result).place ≡ place }
    ensures none { length calls.now ≤ result → (i : ℕ) → i < length calls.now → (call_at calls.now i).place ≢ place }
{
    if next < calls.len() && calls[next].place == place {
        next
    } else {
        calls.len()
    }
}

/// For each point, which call stands there: its index, or the number of calls where none does, and at the first point.
pub(crate) fn calls_of_points(
    alloc: Global,
    calls: &[Call],
    places: &[u32],
) -> Result<Vec<usize>, AllocError>
    requires calls { CallsRise calls.now }
    requires rising { Rising places.now }
    requires some { 1 ≤ length places.now }
    ensures { IfOk result (λ visits. AreCallsAt calls.now places.now visits.items) }
{
    let mut visits = Vec::new(alloc);
    visits.push(calls.len())?;
    let mut next = 0;
    for k in 1..places.len() {
        next = call_from(calls, next, places[k]);
        visits.push(call_at_place(calls, next, places[k]))?;
    }
    Ok(visits)
}

/// Whether a call is a stop: it has a dwell or is the last. There is none at the number of calls.
fn is_stop_call(calls: &[Call], j: usize) -> bool
    requires { j ≤ length calls.now }
    ensures { result ≡ is_stop_call calls.now j }
{
    j < calls.len() && (j + 1 == calls.len() || calls[j].dwell.is_some())
}

/// How long the train stands at a call, ms. The dwell of the last isn't used.
fn dwell_of(calls: &[Call], j: usize) -> u32
    requires within { j ≤ length calls.now }
    requires calls { AreCalls calls.now }
    ensures value { result ≡ dwell_of calls.now j }
    ensures short { result ≤ 7200000 }
{
    if j < calls.len() && j + 1 != calls.len() {
        match calls[j].dwell {
            Some(seconds) => 1000 * seconds,
            None => 0,
        }
    } else {
        0
    }
}

/// For each point, whether the train stops there.
pub(crate) fn stops_of_points(
    alloc: Global,
    calls: &[Call],
    visits: &[usize],
) -> Result<Vec<bool>, AllocError>
    requires { (k : ℕ) → k < length visits.now → slice_index visits.now k ≤ length calls.now }
    ensures count { IfOk result (λ stops. length stops.items ≡ length visits.now) }
    ensures each { IfOk result (λ stops. (k : ℕ) → k < length visits.now → slice_index_or stops.items k false ≡ is_stop_call calls.now (slice_index visits.now k)) }
{
    let mut stops = Vec::new(alloc);
    for j in visits {
        stops.push(is_stop_call(calls, *j))?;
    }
    Ok(stops)
}

/// For each point, how long the train stands there, ms.
pub(crate) fn dwells_of_points(
    alloc: Global,
    calls: &[Call],
    visits: &[usize],
) -> Result<Vec<u32>, AllocError>
    requires calls { AreCalls calls.now }
    requires within { (k : ℕ) → k < length visits.now → slice_index visits.now k ≤ length calls.now }
    ensures count { IfOk result (λ dwells. length dwells.items ≡ length visits.now) }
    ensures each { IfOk result (λ dwells. (k : ℕ) → k < length visits.now → slice_index dwells.items k ≡ dwell_of calls.now (slice_index visits.now k)) }
    ensures short { IfOk result (λ dwells. (k : ℕ) → slice_index dwells.items k ≤ 7200000) }
{
    let mut dwells = Vec::new(alloc);
    for j in visits {
        dwells.push(dwell_of(calls, *j))?;
    }
    Ok(dwells)
}

/// The first point but one before a stop too close: the next point is a stop, and this one is a stop too, or it is the first and the
/// train stands there.
pub(crate) fn close_stop(stops: &[bool], start: u16) -> Option<usize>
    requires { 1 ≤ length stops.now }
    ensures none { result ≡ None → NoneClose stops.now start (length stops.now - 1) }
    ensures found { IfSome result (λ k. k + 1 < length stops.now) }
    ensures close { IfSome result (IsCloseStop stops.now start) }
    ensures first { IfSome result (NoneClose stops.now start) }
{
    for k in 0..stops.len() - 1 {
        if stops[k + 1] && (stops[k] || (k == 0 && start == 0)) {
            return Some(k);
        }
    }
    None
}
