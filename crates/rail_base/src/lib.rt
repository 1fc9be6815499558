//! What several crates of the product share: numbers and lines of texts, lists, the costs of work and of links between cells, and
//! the test of a gap.
#![tactic(auto)]

mod cell_cost;
mod cost;
mod gap;
mod item_list;
mod lines;
mod number;
mod texts;

pub use bound_specs::Cell;
pub use cell_cost::CellCost;
pub use cost::{Regained, StepCost, Traction};
pub use gap::is_gap_met;
pub use item_list::ItemList;
pub use lines::{Fields, Lines, text_lines};
pub use number::{
    natural_within, put_number, read_count, read_digits, read_field, read_number, trim_spaces,
};
pub use texts::{put_line, put_number_line, put_spaced, put_word};
