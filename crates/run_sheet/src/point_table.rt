//! The points of a drive as a table of comma-separated fields.

ghost use Rattle.std.specs.Prelude.{◌≡◌, ℕ, ◌<◌, ◌≤◌, ◌^◌, ◌++◌, length, IfOk, OnOk};
ghost use Rattle.std.specs.Int.RustNames.{unsigned_abs};
ghost use Rattle.rail_specs.specs.Rules.{IsDrive, work_at};
ghost use Rattle.run_sheet.specs.Points.{field_names, speed_fields, step_fields, next_fields, place_fields, point_line, points_text};

use drive_report::{phase_name, step_phase};
use drive_rules::Rules;
use rail_base::{StepCost, put_line};
use sheet_parts::{arrivals, kilowatt_hours_up, put_decimals, put_natural};
use std::alloc::{AllocError, Global};

/// Appends the names of the fields.
#[tactic(auto, unfolding(crate::specs::Points::field_names))]
fn put_field_names(out: &mut Vec<u8>) -> Result<(), AllocError>
    ensures { OnOk result (out.new.items ≡ out.old.items ++ field_names) }
{
    put_line(
        out,
        b"place_m,speed_cm_s,speed_km_h,time_s,limit_cm_s,limit_km_h,gradient_per_mille,phase,work_kwh",
    )
}

/// Appends a speed in cm/s and in km/h.
#[tactic(auto, unfolding(crate::specs::Points::speed_fields))]
fn put_speed(out: &mut Vec<u8>, v: u16) -> Result<(), AllocError>
    ensures { OnOk result (out.new.items ≡ out.old.items ++ speed_fields v) }
{
    put_natural(out, v as u128)?;
    out.push(b',')?;
    put_decimals(out, 3, 36 * v as i128)
}

/// Appends the limit of step i, its gradient and its phase.
#[tactic(auto, unfolding(crate::specs::Points::step_fields))]
fn put_step(out: &mut Vec<u8>, rules: &Rules, speeds: &[u16], i: usize) -> Result<(), AllocError>
    requires drive { IsDrive rules.now speeds.now }
    requires step { i < length rules.now.steps }
    ensures { OnOk result (out.new.items ≡ out.old.items ++ step_fields rules.now speeds.now i) }
{
    put_speed(out, rules.limit(i))?;
    out.push(b',')?;
    put_decimals(out, 1, rules.row(i).numbers().gradient as i128)?;
    out.push(b',')?;
    out.extend_from_slice(phase_name(step_phase(rules, speeds, i)))
}

/// Appends these of the step that begins at point k, and empty fields at the last point.
#[tactic(auto, unfolding(crate::specs::Points::next_fields))]
fn put_next(out: &mut Vec<u8>, rules: &Rules, speeds: &[u16], k: usize) -> Result<(), AllocError>
    requires { IsDrive rules.now speeds.now }
    ensures { OnOk result (out.new.items ≡ out.old.items ++ next_fields rules.now speeds.now k) }
{
    if k < rules.steps() {
        put_step(out, rules, speeds, k)
    } else {
        out.extend_from_slice(b",,,")
    }
}

/// Appends the place of point k, the speed there, and the time at which the train reaches it, ms.
#[tactic(auto, unfolding(crate::specs::Points::place_fields))]
fn put_place(
    out: &mut Vec<u8>,
    rules: &Rules,
    speeds: &[u16],
    k: usize,
    arrival: u64,
) -> Result<(), AllocError>
    requires drive { IsDrive rules.now speeds.now }
    requires point { k ≤ length rules.now.steps }
    ensures { OnOk result (out.new.items ≡ out.old.items ++ place_fields rules.now speeds.now k arrival) }
{
    put_natural(out, rules.place(k) as u128)?;
    out.push(b',')?;
    put_speed(out, speeds[k])?;
    out.push(b',')?;
    put_decimals(out, 3, arrival as i128)
}

/// Appends the line of point k, which the train reaches at this time, ms, and this energy, 0.5 microjoule.
#[tactic(auto, unfolding(crate::specs::Points::point_line))]
fn put_point(
    out: &mut Vec<u8>,
    rules: &Rules,
    speeds: &[u16],
    k: usize,
    arrival: u64,
    energy: i128,
) -> Result<(), AllocError>
    requires drive { IsDrive rules.now speeds.now }
    requires point { k ≤ length rules.now.steps }
    requires energy { unsigned_abs energy ≤ 2 ^ 100 }
    ensures { OnOk result (out.new.items ≡ out.old.items ++ point_line rules.now speeds.now k arrival energy) }
{
    put_place(out, rules, speeds, k, arrival)?;
    out.push(b',')?;
    put_next(out, rules, speeds, k)?;
    out.push(b',')?;
    put_decimals(out, 2, kilowatt_hours_up(energy))?;
    out.push(b'\n')?;
    Ok(())
}

/// The cost of the work of step i of a drive.
fn step_cost<C: StepCost>(rules: &Rules, speeds: &[u16], i: usize, cost: &C) -> i128
    requires drive { IsDrive rules.now speeds.now }
    requires step { i < length rules.now.steps }
    ensures value { result ≡ C.cost cost.now (work_at rules.now speeds.now i) }
    ensures small { unsigned_abs result ≤ 2 ^ 62 }
{
    rules.known_drive(speeds);
    cost.of(rules.row(i).work(speeds[i], speeds[i + 1]))
}

/// The points of a drive as a table of comma-separated fields: the names of the fields, and a line for each point with its place, the
/// speed, the time of arrival, the limit, the gradient and the phase of the step that begins there, and the cost of the steps before it.
///
/// `speeds` are in cm/s, one for each point. It looks at each step once. The only error is want of memory.
#[tactic(auto, using(sheet_parts::proofs::FillLemmas::joins, drive_rules::proofs::VerdictLemmas::sums), unfolding(crate::specs::Points::points_text))]
pub fn points<C: StepCost>(
    alloc: Global,
    rules: &Rules,
    speeds: &[u16],
    cost: &C,
) -> Result<Vec<u8>, AllocError>
    requires { IsDrive rules.now speeds.now }
    ensures { IfOk result (λ text. text.items ≡ points_text (C.cost cost.now) rules.now speeds.now) }
{
    let times = arrivals(alloc, rules, speeds)?;
    let mut out = Vec::new(alloc);
    put_field_names(&mut out)?;
    let mut energy = 0;
    for k in 0..rules.steps() {
        put_point(&mut out, rules, speeds, k, times[k], energy)?;
        energy += step_cost(rules, speeds, k, cost);
    }
    let last = rules.steps();
    put_point(&mut out, rules, speeds, last, times[last], energy)?;
    Ok(out)
}
