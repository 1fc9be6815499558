//! The lines of a route before its steps.

ghost use Rattle.std.specs.Prelude.{◌≡◌, ◌∷◌, [], ℕ, ◌≤◌, pos, Some, None, length, drop, codes, IfOk, IfSome, if◌then◌else◌};
ghost use Rattle.rail_base.specs.First.{first_in};
ghost use Rattle.rail_base.specs.Lines.{is_line, line_at, numbers_at, size};
ghost use Rattle.route_file.specs.Route.{form_then_range, heading_faults, is_one, is_train, train_line, train_numbers, unless};
ghost use Rattle.rail_specs.specs.Step.{IsTrainInRange};
ghost use Rattle.route_file.specs.RouteParts.{heading_of, IsHeading};

use crate::data::Heading;
use crate::fault::RouteFault;
use crate::line::take_numbers;
use rail_base::{Lines, natural_within};
use rail_specs::TrainNumbers;

/// Takes the first line of a route.
fn read_title(lines: &mut Lines<'_>) -> Result<(), RouteFault>
    ensures title { result ≡ unless (if is_line (codes "route 1") (line_at lines.old 1) then None else Some (RouteFault.Form 1)) tt }
    ensures rest { lines.new ≡ drop 1 lines.old }
{
    match lines.next() {
        Some(line) => {
            if line == b"route 1".as_slice() {
                Ok(())
            } else {
                Err(RouteFault::Form(1))
            }
        }
        None => Err(RouteFault::Form(1)),
    }
}

/// The train of these numbers, where they are in range.
fn train_of(numbers: [i64; 5]) -> Option<TrainNumbers>
    ensures value { result ≡ (if is_train numbers then Some (train_numbers (Some numbers)) else None) }
    ensures train { IfSome result IsTrainInRange }
{
    let mass = natural_within(numbers[0], 1, 100_000)?;
    let inertia = natural_within(numbers[1], 1, 120_000)?;
    let a = natural_within(numbers[2], 0, 10_000_000)?;
    let b = natural_within(numbers[3], 0, 10_000_000)?;
    let c = natural_within(numbers[4], 0, 10_000_000)?;
    Some(TrainNumbers {
        mass,
        inertia,
        a,
        b,
        c,
    })
}

/// Takes the line of the train.
fn read_train_line(lines: &mut Lines<'_>) -> Result<TrainNumbers, RouteFault>
    ensures value { let ns = numbers_at lines.old 1 (codes "train ") 5 in result ≡ unless (form_then_range 2 ns is_train) (train_numbers ns) }
    ensures train { IfOk result IsTrainInRange }
    ensures rest { lines.new ≡ drop 1 lines.old }
{
    let mut numbers = [0i64; 5];
    if !take_numbers(lines, b"train ", &mut numbers) {
        return Err(RouteFault::Form(2));
    }
    match train_of(numbers) {
        Some(train) => Ok(train),
        None => Err(RouteFault::Range(2)),
    }
}

/// Takes line n, which has a word and one number in this range.
fn read_one(
    lines: &mut Lines<'_>,
    n: u32,
    word: &[u8],
    low: u32,
    high: u32,
) -> Result<u32, RouteFault>
    ensures value { let ns = numbers_at lines.old 1 word.now 1 in result ≡ unless (form_then_range n ns (is_one low high)) (size ns 0) }
    ensures least { IfOk result (λ number. low ≤ number) }
    ensures most { IfOk result (λ number. number ≤ high) }
    ensures rest { lines.new ≡ drop 1 lines.old }
{
    let mut numbers = [0i64; 1];
    if !take_numbers(lines, word, &mut numbers) {
        return Err(RouteFault::Form(n));
    }
    match natural_within(numbers[0], low, high) {
        Some(number) => Ok(number),
        None => Err(RouteFault::Range(n)),
    }
}

/// Takes the lines of a route before its steps.
pub(crate) fn read_heading(lines: &mut Lines<'_>) -> Result<Heading, RouteFault>
    ensures value { result ≡ unless (first_in (heading_faults lines.old)) (heading_of lines.old) }
    ensures heading { IfOk result IsHeading }
    ensures rest { IfOk result (λ _. lines.new ≡ drop 6 lines.old) }
{
    read_title(lines)?;
    let train = read_train_line(lines)?;
    let top = read_one(lines, 3, b"top ", 1, 12_000)?;
    let traction = read_one(lines, 4, b"traction ", 0, 2_000_000)?;
    let brake = read_one(lines, 5, b"brake ", 0, 2_000_000)?;
    let latest = read_one(lines, 6, b"latest ", 0, 172_800)?;
    Ok(Heading {
        train,
        top: top as u16,
        traction,
        brake,
        latest,
    })
}
