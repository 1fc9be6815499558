//! The lines of a timetable's calls.

ghost use Rattle.std.specs.Prelude.{◌≡◌, ℕ, ◌*◌, ◌<◌, ◌≤◌, ◌++◌, length, pos, All, IfOk, OnOk, IfSome, None, Some};
ghost use Rattle.sheet_parts.specs.Decimals.{decimals_text};
ghost use Rattle.std.specs.Int.RustNames.{unsigned_abs};
ghost use Rattle.rail_base.specs.First.{first_below};
ghost use Rattle.rail_base.specs.Numbers.{before_spaces};
ghost use Rattle.sheet_parts.specs.Arrivals.{AreArrivals};
ghost use Rattle.sheet_parts.specs.Clock.{clock_text};
ghost use Rattle.sheet_parts.specs.Fill.{filled};
ghost use Rattle.run_sheet.specs.Timetable.{latest_at, arrival_text, departure_text, latest_text, slack_text, call_row, call_line, call_lines};

use drive_rules::Rules;
use line_file::NameList;
use rail_base::put_line;
use sheet_parts::{put_clock, put_decimals, put_right, seconds_down, seconds_up, shown_name};
use std::alloc::{AllocError, Global};

/// The latest time at point k, ms, where it has one.
#[tactic(auto, using(drive_rules::proofs::VerdictLemmas::firsts), unfolding(crate::specs::Timetable::latest_at))]
fn latest_at(rules: &Rules, k: usize) -> Option<i64>
    ensures value { result ≡ latest_at rules.now k }
    ensures small { IfSome result (λ latest. unsigned_abs latest ≤ 172800000) }
{
    let timings = rules.timings();
    for j in 0..timings.len() {
        if timings[j].point as usize == k {
            return Some(timings[j].latest);
        }
    }
    None
}

/// A number of seconds as hh:mm:ss.
fn clock(alloc: Global, seconds: i128) -> Result<Vec<u8>, AllocError>
    ensures { IfOk result (λ text. text.items ≡ clock_text seconds) }
{
    let mut text = Vec::new(alloc);
    put_clock(&mut text, seconds)?;
    Ok(text)
}

/// The time of arrival at point k, ms, as a text.
#[tactic(auto, unfolding(crate::specs::Timetable::arrival_text))]
fn arrival_text(alloc: Global, k: usize, arrival: u64) -> Result<Vec<u8>, AllocError>
    ensures { IfOk result (λ text. text.items ≡ arrival_text k arrival) }
{
    if k == 0 {
        return Ok(Vec::new(alloc));
    }
    clock(alloc, seconds_up(arrival as i128))
}

/// The time of departure from point k, which the train reaches at this time in ms, as a text.
#[tactic(auto, unfolding(crate::specs::Timetable::departure_text))]
fn departure_text(
    alloc: Global,
    rules: &Rules,
    k: usize,
    arrival: u64,
) -> Result<Vec<u8>, AllocError>
    requires { k ≤ length rules.now.steps }
    ensures { IfOk result (λ text. text.items ≡ departure_text rules.now k arrival) }
{
    if k == rules.steps() {
        Ok(Vec::new(alloc))
    } else if k == 0 || rules.stop(k) {
        clock(alloc, seconds_up(arrival as i128 + rules.dwell(k) as i128))
    } else {
        Vec::from_slice(alloc, b"pass")
    }
}

/// A latest time, ms, as a text.
#[tactic(auto, unfolding(crate::specs::Timetable::latest_text))]
fn latest_text(alloc: Global, latest: Option<i64>) -> Result<Vec<u8>, AllocError>
    ensures { IfOk result (λ text. text.items ≡ latest_text latest) }
{
    match latest {
        None => Ok(Vec::new(alloc)),
        Some(latest) => clock(alloc, seconds_down(latest as i128)),
    }
}

/// How long before its latest time the train arrives, both in ms, as a text.
#[tactic(auto, unfolding(crate::specs::Timetable::slack_text))]
fn slack_text(alloc: Global, latest: Option<i64>, arrival: u64) -> Result<Vec<u8>, AllocError>
    ensures { IfOk result (λ text. text.items ≡ slack_text latest arrival) }
{
    match latest {
        None => Ok(Vec::new(alloc)),
        Some(latest) => clock(alloc, seconds_down(latest as i128 - arrival as i128)),
    }
}

/// Appends a place, m, in km, at the right end of its column.
fn put_place(alloc: Global, out: &mut Vec<u8>, place: u32) -> Result<(), AllocError>
    ensures { OnOk result (out.new.items ≡ out.old.items ++ filled 32 9 (decimals_text 3 (pos place))) }
{
    let mut text = Vec::new(alloc);
    put_decimals(&mut text, 3, place as i128)?;
    put_right(out, 9, text.as_slice())
}

/// Appends a time at the right end of its column.
fn put_time(out: &mut Vec<u8>, time: Vec<u8>) -> Result<(), AllocError>
    ensures { OnOk result (out.new.items ≡ out.old.items ++ filled 32 11 time.items) }
{
    put_right(out, 11, time.as_slice())
}

/// The columns of the call at point k, which the train reaches at this time in ms.
#[tactic(auto, unfolding(crate::specs::Timetable::call_row))]
fn call_row(
    alloc: Global,
    rules: &Rules,
    k: usize,
    arrival: u64,
    name: &[u8],
) -> Result<Vec<u8>, AllocError>
    requires { k ≤ length rules.now.steps }
    ensures { IfOk result (λ row. row.items ≡ call_row rules.now k arrival name.now) }
{
    let latest = latest_at(rules, k);
    let mut row = Vec::new(alloc);
    put_place(alloc, &mut row, rules.place(k))?;
    put_time(&mut row, arrival_text(alloc, k, arrival)?)?;
    put_time(&mut row, departure_text(alloc, rules, k, arrival)?)?;
    put_time(&mut row, latest_text(alloc, latest)?)?;
    put_time(&mut row, slack_text(alloc, latest, arrival)?)?;
    row.extend_from_slice(b"  ")?;
    row.extend_from_slice(shown_name(alloc, name)?.as_slice())?;
    Ok(row)
}

/// A text without the spaces that it ends with.
fn without_end_spaces(text: &[u8]) -> &[u8]
    ensures { result.now ≡ before_spaces text.now }
{
    let mut to = text.len();
    while to > 0 && text[to - 1] == b' ' {
        to -= 1;
    }
    &text[..to]
}

/// Appends the line of the call at point k, which the train reaches at this time in ms.
#[tactic(auto, unfolding(crate::specs::Timetable::call_line))]
fn put_call(
    alloc: Global,
    out: &mut Vec<u8>,
    rules: &Rules,
    k: usize,
    arrival: u64,
    name: &[u8],
) -> Result<(), AllocError>
    requires { k ≤ length rules.now.steps }
    ensures { OnOk result (out.new.items ≡ out.old.items ++ call_line rules.now k arrival name.now) }
{
    let row = call_row(alloc, rules, k, arrival, name)?;
    put_line(out, without_end_spaces(row.as_slice()))
}

/// Appends the lines of all calls: points of the line, with names in the same order. `times` are the arrivals at all points, ms.
#[tactic(auto, using(sheet_parts::proofs::FillLemmas::joins))]
pub(crate) fn put_calls(
    alloc: Global,
    out: &mut Vec<u8>,
    rules: &Rules,
    speeds: &[u16],
    times: &[u64],
    calls: &[u32],
    names: &NameList,
) -> Result<(), AllocError>
    requires times { AreArrivals rules.now speeds.now times.now }
    requires calls { All (λ k. k ≤ length rules.now.steps) calls.now }
    ensures { OnOk result (out.new.items ≡ out.old.items ++ call_lines rules.now speeds.now calls.now names.now) }
{
    for j in 0..calls.len() {
        let k = calls[j] as usize;
        put_call(alloc, out, rules, k, times[k], names.get(j))?;
    }
    Ok(())
}
