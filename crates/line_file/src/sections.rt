//! The sections of a line.
use rail_base::ItemList;

/// A section of a line: the stretch from one place to another, and a value that holds there.
#[derive(Clone, Copy, Debug, PartialEq, Eq)]
pub struct Section {
    /// Where the section begins, m.
    pub from: u32,
    /// Where it ends, m; above `from`.
    pub to: u32,
    /// The speed limit in cm/s, or the gradient in 1/10 per mille, uphill positive.
    pub value: i32,
}

/// Sections in order.
pub type SectionList = ItemList<Section>;
