//! The rules of a sample: its texts, read by the readers of files and joined.
//!
//! None of them is refused, whatever the number: so the only failure is want of memory. The service and the train are always the same texts,
//! and what they say is computed. The line is the hardest of the three: its text is that of 81 rows of plain fields, which `csv` reads back;
//! each field is one of a few numbers, which are read back too; each row begins where the one before it ended. Then the joined rules: the
//! calls lie on the line, every mark is a multiple of the step, so the places are the multiples of the step; the stops are far apart; and the
//! drag is small.
#![tactic(auto)]

mod reading;

pub use reading::sample_rules;
