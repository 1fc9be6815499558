//! The calls of a service.
use rail_base::ItemList;

/// A place that a service calls at or passes.
#[derive(Clone, Copy, Debug, PartialEq, Eq)]
pub struct Call {
    /// The place, m.
    pub place: u32,
    /// How long the train stands there, s. A call with a dwell is a stop; so are the first and the last call.
    pub dwell: Option<u32>,
    /// The latest time of arrival, s on the clock of the service, which is 0 at its start.
    pub latest: Option<u32>,
}

/// Calls in order.
pub type CallList = ItemList<Call>;
