//! Least chains of cells, and the bound that they give.
//!
//! `potentials` finds for each cell what the least chain from it costs, over any costs of links (`rail_base::CellCost`). `Priced` are
//! the costs of a run's steps with their times priced. `bound` is what the two give: no drive on time costs less (weak duality).
#![tactic(auto)]

mod front;
mod laws;
mod least;
mod lower_bound;
mod price_search;
mod renew;
mod table;
mod ways;

pub use front::Front;
pub use laws::finer_cells_bound_more;
pub use least::potentials;
pub use link_costs::{Priced, prices_for};
pub use lower_bound::bound;
pub use price_search::{Valued, best_price, best_valued, potentials_at};
pub use table::Potentials;
