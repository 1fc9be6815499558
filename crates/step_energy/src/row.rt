//! One step of a line, ready for its work.
ghost use Rattle.std.specs.Prelude.{◌≡◌, ℕ, ◌+◌, ◌*◌, ◌^◌, ◌<◌, ◌≤◌, ◌↔◌, ℤ, pos, neg_ℤ, ◌-ℤ◌, ◌≤ℤ◌, IfOk, OnOk, IsErr, IsTrue};
ghost use Rattle.std.specs.Int.RustNames.{unsigned_abs};
ghost use Rattle.rail_specs.specs.Step.{work, work_up, work_down, gradient_work, IsInRange, HasSmallDrag};

use crate::counter::Steps;
use rail_specs::StepNumbers;
use std::marker::Model;
use std::sync::ledger::Ledger;

/// The drag `C v^2` over the step isn't below the kinetic energy, so that more speed at the entry would ask for more work.
#[derive(Clone, Copy, Debug)]
pub struct DragTooGreat;

/// One step of a line, ready for its work.
///
/// Contracts see it as the step's numbers. Beside these it keeps the products that no speed changes, so that the work of
/// a step takes four multiplications of 64 bits.
#[derive(Clone, Copy)]
pub struct StepRow {
    numbers: StepNumbers,
    /// The exit speed's part of the work is `(rise * v1 + slope) * v1 + base`.
    rise: u64,
    slope: u64,
    base: i64,
    /// The entry speed's part of the work is `fall * v0 * v0`.
    fall: u64,
    /// The work of a force of 1 N over the step.
    unit: u64,
}

impl Model for StepRow {
    ghost use Rattle.rail_specs.specs.declared.StepNumbers.{StepNumbers};

    ghost Value = { StepNumbers };

    ghost use Rattle.step_energy.specs.Row.{IsRow, row_of, row_of-numbers};

    ghost view = { λ r. r.numbers };

    ghost invariant = { IsRow };

    ghost inverse = { row_of };

    ghost inverse_ok = { row_of-numbers };
}

/// The work against the gradient.
fn climb(numbers: &StepNumbers) -> i64
    requires { IsInRange numbers.now }
    ensures value { result ≡ gradient_work numbers.now }
    ensures small { unsigned_abs result ≤ 19620000000000000 }
{
    (196_200 * numbers.mass as u64 * numbers.metres as u64) as i64 * numbers.gradient as i64
}

impl StepRow {
    /// The row of a step, or `DragTooGreat` exactly where `c * metres` is at least `10000 * inertia`, in the units of `StepNumbers`.
    /// It counts one step, on a refusal too, and takes no memory.
    pub fn make<L: Ledger>(
        numbers: StepNumbers,
        steps: &mut Steps<L>,
    ) -> Result<StepRow, DragTooGreat>
        requires { IsInRange numbers }
        ensures made { IfOk result (λ row. row ≡ numbers) }
        ensures small_drag { OnOk result (HasSmallDrag numbers) }
        ensures refused { IsErr result ↔ (10000 * numbers.inertia ≤ numbers.c * numbers.metres) }
        ensures counted { steps.new ≡ steps.old + 1 }
    {
        steps.tick();
        let metres = numbers.metres as u64;
        let drag = numbers.c as u64 * metres;
        let inertia = 10_000 * numbers.inertia as u64;
        if inertia <= drag {
            return Err(DragTooGreat);
        }
        let gradient_work = climb(&numbers);
        Ok(StepRow {
            numbers,
            rise: inertia + drag,
            slope: 2000 * numbers.b as u64 * metres,
            base: gradient_work + (2_000_000 * numbers.a as u64 * metres) as i64,
            fall: inertia - drag,
            unit: 2_000_000 * metres,
        })
    }

    /// The part of the work, in 0.5 microjoule, that the exit speed v1 in cm/s decides: the kinetic energy there, the gradient, and the
    /// resistance but for the drag at the entry.
    pub fn up(&self, v1: u16) -> i128
        requires { v1 ≤ 12001 }
        ensures value { result ≡ work_up self.now v1 }
        ensures small { unsigned_abs result ≤ 625297602400000000 }
    {
        self.exit_part(v1) as i128
    }

    /// The part of the work, in 0.5 microjoule, that the entry speed v0 in cm/s pays: the kinetic energy there, less the drag at the
    /// entry.
    pub fn down(&self, v0: u16) -> i128
        requires { v0 ≤ 12001 }
        ensures value { result ≡ pos (work_down self.now v0) }
        ensures small { unsigned_abs result ≤ 172828801200000000 }
    {
        self.entry_part(v0) as i128
    }

    /// The work, in 0.5 microjoule, from speed v0 to speed v1 in cm/s: `up(v1) - down(v0)`.
    pub fn work(&self, v0: u16, v1: u16) -> i128
        requires entry { v0 ≤ 12001 }
        requires exit { v1 ≤ 12001 }
        ensures value { result ≡ work self.now v0 v1 }
        ensures small { unsigned_abs result < 2 ^ 62 }
    {
        self.short_work(v0, v1) as i128
    }

    /// `work` in 64 bits, which it always fits: what inner loops compare and add.
    pub fn short_work(&self, v0: u16, v1: u16) -> i64
        requires entry { v0 ≤ 12001 }
        requires exit { v1 ≤ 12001 }
        ensures value { result ≡ work self.now v0 v1 }
        ensures small { unsigned_abs result < 2 ^ 62 }
    {
        let _ = &self.numbers;
        self.exit_part(v1) - self.entry_part(v0)
    }

    /// The work that a constant force does over the step, in 0.5 microjoule. The force is in N.
    pub fn force_work(&self, force: u32) -> i64
        requires { force ≤ 2000000 }
        ensures value { result ≡ pos (2000000 * self.now.metres * force) }
        ensures small { unsigned_abs result ≤ 4000000000000000 }
    {
        (self.unit * force as u64) as i64
    }

    /// Whether a traction of this force, in N, does the work over the step that is asked, in 0.5 microjoule.
    pub fn is_pulled(&self, work: i64, force: u32) -> bool
        requires { force ≤ 2000000 }
        ensures { IsTrue result ↔ (work ≤ℤ pos (2000000 * self.now.metres * force)) }
    {
        work <= self.force_work(force)
    }

    /// Whether brakes of this force, in N, hold the train where the step asks for this work, in 0.5 microjoule: they take what it is
    /// below 0.
    pub fn is_held(&self, work: i64, force: u32) -> bool
        requires work { unsigned_abs work < 2 ^ 62 }
        requires force { force ≤ 2000000 }
        ensures { IsTrue result ↔ (neg_ℤ (pos (2000000 * self.now.metres * force)) ≤ℤ work) }
    {
        work + self.force_work(force) >= 0
    }

    /// `up` in 64 bits.
    fn exit_part(&self, v1: u16) -> i64
        requires { v1 ≤ 12001 }
        ensures value { result ≡ work_up self.now v1 }
        ensures small { unsigned_abs result ≤ 625297602400000000 }
    {
        let v = v1 as u64;
        self.base + ((self.rise * v + self.slope) * v) as i64
    }

    /// `down` in 64 bits.
    fn entry_part(&self, v0: u16) -> i64
        requires { v0 ≤ 12001 }
        ensures value { result ≡ pos (work_down self.now v0) }
        ensures small { unsigned_abs result ≤ 172828801200000000 }
    {
        let v = v0 as u64;
        (self.fall * (v * v)) as i64
    }

    /// What holds of every row: its numbers are in range, its drag is below the kinetic energy, both parts of the work rise with speed,
    /// and the work is their difference.
    #[tactic(auto, using(rail_specs::proofs::WorkLemmas::work_parts, rail_specs::proofs::WorkLemmas::work_up_rises, rail_specs::proofs::WorkLemmas::work_down_rises))]
    pub fn laws(&self)
        ensures in_range { IsInRange self.now }
        ensures small_drag { HasSmallDrag self.now }
        ensures parts { (v0 v1 : ℕ) → work self.now v0 v1 ≡ work_up self.now v1 -ℤ pos (work_down self.now v0) }
        ensures up_rises { (v w : ℕ) → v ≤ w → work_up self.now v ≤ℤ work_up self.now w }
        ensures down_rises { (v w : ℕ) → v ≤ w → work_down self.now v ≤ work_down self.now w }
    {
        let _ = &self.numbers;
    }

    /// The numbers of the step, of which the row is made.
    pub fn numbers(&self) -> StepNumbers
        ensures { result ≡ self.now }
    {
        self.numbers
    }

    /// The length of the step, m.
    pub fn metres(&self) -> u16
        ensures value { result ≡ self.now.metres }
        ensures some { 1 ≤ result }
        ensures few { result ≤ 1000 }
    {
        self.numbers.metres
    }
}
