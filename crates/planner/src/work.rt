//! What the search for a bound works on.

use potential_table::Valued;
use speed_cells::Cells;

/// Cells, and prices with the potentials and the chain value that they give.
#[derive(Drop)]
pub(crate) struct Work {
    pub(crate) cells: Cells,
    pub(crate) valued: Valued,
}
