//! The report of a drive.

ghost use Rattle.std.specs.Prelude.{◌≡◌, ◌++◌, ◌∷◌, ℕ, ◌+◌, ◌<◌, ◌≤◌, ◌==◌, ◌^◌, List};
ghost use Rattle.std.specs.Prelude.{length, IfOk, OnOk, IsTrue, ◌↔◌, if◌then◌else◌, [], slice_index};
ghost use Rattle.std.specs.List.{flat_map};
ghost use Rattle.rail_specs.specs.Rules.{IsDrive};
ghost use Rattle.rail_specs.specs.Times.{arrival_up};
ghost use Rattle.drive_report.specs.Phase.{phase_at, phase_name};
ghost use Rattle.dual_certificate.specs.Contents.{speeds_of};
ghost use Rattle.dual_certificate.specs.Part.{IsPassed, certificate_part};
ghost use Rattle.dual_certificate.specs.Text.{IsCertificate, text_of};
ghost use Rattle.drive_report.specs.Report.{gap_line, ends_run, run_start};
ghost use Rattle.drive_report.specs.Report.{phase_line, phase_lines, time_line, count_lines, advice_text, report_text};

use crate::energies::{put_energy, put_regained};
use crate::figures::{Counts, Figures};
use crate::lines::put_head;
use crate::phases::{phase_name, step_phase};
use drive_rules::Rules;
use dual_certificate::{Certificate, put_certificate};
use rail_base::{put_line, put_number_line, put_spaced, put_word};
use rail_specs::Timing;
use std::alloc::{AllocError, Global};

/// Whether step i is the last of a run of steps of one phase.
#[tactic(auto, unfolding(crate::specs::Report::ends_run))]
fn ends_run(rules: &Rules, speeds: &[u16], i: usize) -> bool
    requires drive { IsDrive rules.now speeds.now }
    requires step { i < length rules.now.steps }
    ensures { result ≡ ends_run rules.now speeds.now i }
{
    i + 1 == rules.steps() || step_phase(rules, speeds, i) != step_phase(rules, speeds, i + 1)
}

/// Appends a space and the name of the phase of step i.
fn put_phase_name(
    out: &mut Vec<u8>,
    rules: &Rules,
    speeds: &[u16],
    i: usize,
) -> Result<(), AllocError>
    requires drive { IsDrive rules.now speeds.now }
    requires step { i < length rules.now.steps }
    ensures { OnOk result (out.new.items ≡ out.old.items ++ 32 ∷ phase_name (phase_at rules.now speeds.now i)) }
{
    put_word(out, phase_name(step_phase(rules, speeds, i)))
}

/// Appends the line of the run of steps of one phase that begins with step `from` and ends with step i.
#[tactic(auto, unfolding(crate::specs::Report::phase_line))]
fn put_phase(
    alloc: Global,
    out: &mut Vec<u8>,
    rules: &Rules,
    speeds: &[u16],
    from: usize,
    i: usize,
) -> Result<(), AllocError>
    requires drive { IsDrive rules.now speeds.now }
    requires from { from ≤ i }
    requires step { i < length rules.now.steps }
    ensures text { OnOk result (out.new.items ≡ out.old.items ++ phase_line rules.now speeds.now from i) }
    ensures passed { OnOk result (IsPassed (phase_line rules.now speeds.now from i)) }
{
    rules.known_drive(speeds);
    out.extend_from_slice(b"phase")?;
    put_spaced(alloc, out, rules.place(from) as i128)?;
    put_spaced(alloc, out, rules.place(i + 1) as i128)?;
    put_phase_name(out, rules, speeds, i)?;
    put_spaced(alloc, out, speeds[from] as i128)?;
    put_spaced(alloc, out, speeds[i + 1] as i128)?;
    out.push(b'\n')?;
    Ok(())
}

/// Appends the line of the run that begins with step `from`, where step i ends it, and gives the first step of the run
/// that the next step is in.
fn put_run(
    alloc: Global,
    out: &mut Vec<u8>,
    rules: &Rules,
    speeds: &[u16],
    from: usize,
    i: usize,
) -> Result<usize, AllocError>
    requires drive { IsDrive rules.now speeds.now }
    requires from { from ≤ i }
    requires step { i < length rules.now.steps }
    ensures text { OnOk result (out.new.items ≡ out.old.items ++
        (if ends_run rules.now speeds.now i then phase_line rules.now speeds.now from i else [])) }
    ensures passed { OnOk result (IsPassed (if ends_run rules.now speeds.now i then phase_line rules.now speeds.now from i else [])) }
    ensures next { IfOk result (λ next. next ≡ (if ends_run rules.now speeds.now i then i + 1 else from)) }
{
    if !ends_run(rules, speeds, i) {
        return Ok(from);
    }
    put_phase(alloc, out, rules, speeds, from, i)?;
    Ok(i + 1)
}

/// Appends a line for each longest run of steps of one phase.
fn put_phases(
    alloc: Global,
    out: &mut Vec<u8>,
    rules: &Rules,
    speeds: &[u16],
) -> Result<(), AllocError>
    requires { IsDrive rules.now speeds.now }
    ensures text { OnOk result (out.new.items ≡ out.old.items ++ phase_lines rules.now speeds.now (length rules.now.steps)) }
    ensures passed { OnOk result (IsPassed (phase_lines rules.now speeds.now (length rules.now.steps))) }
{
    let mut from = 0;
    for i in 0..rules.steps() {
        from = put_run(alloc, out, rules, speeds, from, i)?;
    }
    Ok(())
}

/// Appends the line of a timing point, where the drive arrives at this time.
#[tactic(auto, unfolding(crate::specs::Report::time_line))]
fn put_time(
    alloc: Global,
    out: &mut Vec<u8>,
    rules: &Rules,
    speeds: &[u16],
    at: Timing,
    arrival: u64,
) -> Result<(), AllocError>
    requires drive { IsDrive rules.now speeds.now }
    requires point { at.point ≤ length rules.now.steps }
    requires arrival { arrival ≡ arrival_up rules.now speeds.now at.point }
    ensures text { OnOk result (out.new.items ≡ out.old.items ++ time_line rules.now speeds.now at) }
    ensures passed { OnOk result (IsPassed (time_line rules.now speeds.now at)) }
{
    out.extend_from_slice(b"time")?;
    put_spaced(alloc, out, rules.place(at.point as usize) as i128)?;
    put_spaced(alloc, out, arrival as i128)?;
    put_spaced(alloc, out, at.latest as i128)?;
    out.push(b'\n')?;
    Ok(())
}

/// Appends a line for each timing point.
fn put_times(
    alloc: Global,
    out: &mut Vec<u8>,
    rules: &Rules,
    speeds: &[u16],
) -> Result<(), AllocError>
    requires { IsDrive rules.now speeds.now }
    ensures text { OnOk result (out.new.items ≡ out.old.items ++ flat_map (time_line rules.now speeds.now) rules.now.timings) }
    ensures passed { OnOk result (IsPassed (flat_map (time_line rules.now speeds.now) rules.now.timings)) }
{
    let timings = rules.timings();
    let mut point = 0;
    let mut time = 0;
    for j in 0..timings.len() {
        let at = timings[j];
        time = rules.arrival_from(speeds, point, time, at.point as usize);
        point = at.point as usize;
        put_time(alloc, out, rules, speeds, at, time)?;
    }
    Ok(())
}

/// Appends the line on the gap.
#[tactic(auto, unfolding(crate::specs::Report::gap_line))]
fn put_gap(out: &mut Vec<u8>, met: bool) -> Result<(), AllocError>
    ensures { OnOk result (out.new.items ≡ out.old.items ++ gap_line met) }
{
    put_line(out, if met { b"gap met" } else { b"gap open" })
}

/// Appends the lines of the cells and the splits, where the bound comes from cells.
fn put_counts(alloc: Global, out: &mut Vec<u8>, counts: Option<Counts>) -> Result<(), AllocError>
    ensures text { OnOk result (out.new.items ≡ out.old.items ++ count_lines counts) }
    ensures passed { OnOk result (IsPassed (count_lines counts)) }
{
    if let Some(counts) = counts {
        put_number_line(alloc, out, b"cells", counts.cells as i128)?;
        put_number_line(alloc, out, b"splits", counts.splits as i128)?;
    }
    Ok(())
}

/// Appends the advice part of a report: whether the gap is met, the energy, also in kilojoules, what the train regains where its file says
/// so, the bound, what the bound took, a line for each longest run of steps of one phase, and a line for each timing point.
///
/// The speeds are in cm/s, one for each point.
#[tactic(auto, unfolding(crate::specs::Report::advice_text))]
pub fn put_advice(
    alloc: Global,
    out: &mut Vec<u8>,
    rules: &Rules,
    speeds: &[u16],
    figures: &Figures,
) -> Result<(), AllocError>
    requires { IsDrive rules.now speeds.now }
    ensures text { OnOk result (out.new.items ≡ out.old.items ++ advice_text rules.now speeds.now figures.now) }
    ensures passed { OnOk result (IsPassed (advice_text rules.now speeds.now figures.now)) }
{
    put_head(out)?;
    put_gap(out, figures.met)?;
    put_energy(alloc, out, figures.energy)?;
    put_regained(alloc, out, rules, speeds, figures.regeneration)?;
    put_number_line(alloc, out, b"bound", figures.bound)?;
    put_counts(alloc, out, figures.counts)?;
    put_phases(alloc, out, rules, speeds)?;
    put_times(alloc, out, rules, speeds)?;
    Ok(())
}

/// The report of a certificate's drive: the advice part, and the certificate.
///
/// The only error is want of memory.
pub fn report(
    alloc: Global,
    rules: &Rules,
    certificate: &Certificate,
    met: bool,
    splits: u32,
    regeneration: Option<u16>,
) -> Result<Vec<u8>, AllocError>
    requires drive { IsDrive rules.now (speeds_of certificate.now) }
    requires certificate { IsCertificate certificate.now }
    ensures text { IfOk result (λ text. text.items ≡ report_text rules.now certificate.now met splits regeneration) }
    // Whoever looks for the certificate in it finds this one.
    ensures part { IfOk result (λ text. certificate_part text.items ≡ text_of certificate.now) }
{
    let counts = Counts {
        cells: certificate.cell_count() as u64,
        splits,
    };
    let figures = Figures {
        energy: certificate.energy,
        bound: certificate.bound,
        met,
        counts: Some(counts),
        regeneration,
    };
    let speeds = certificate.speeds(alloc)?;
    let mut out = Vec::new(alloc);
    put_advice(alloc, &mut out, rules, speeds.as_slice(), &figures)?;
    put_certificate(alloc, &mut out, certificate)?;
    Ok(out)
}
