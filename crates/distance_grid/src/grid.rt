//! The places of a grid.
ghost use Rattle.std.specs.Prelude.{◌≡◌, ℕ, ◌+◌, ◌-◌, ◌*◌, ◌/◌, ◌%◌, ◌<◌, ◌≤◌, ◌↔◌, ◌⊎◌, List, length, Contains, OnOk, IfOk};
ghost use Rattle.rail_specs.specs.Grid.{IsPlace, IsGrid};
ghost use Rattle.distance_grid.specs.Answer.{Answers};

use crate::fault::GridFault;
use std::alloc::{AllocError, Global};
use std::marker::Model;

/// The places of a grid in metres, in rising order, each once: at most 4,001.
///
/// Contracts see the list of the places.
#[derive(Drop)]
pub struct Grid {
    places: Vec<u32>,
}

impl Model for Grid {
    ghost use Rattle.std.specs.Prelude.{List, ℕ};

    ghost Value = { List ℕ };

    ghost view = { λ g. g.places.items };
}

impl Grid {
    /// The grid from one place to another: both ends, and each mark and each multiple of the step that lies between them, all in metres.
    /// The marks may stand in any order.
    ///
    /// `BadSpan` comes exactly where the start isn't below the end, `TooManySteps` exactly where there are more than 4,001 places, and
    /// `NoMemory` for want of memory.
    pub fn make(
        alloc: Global,
        marks: &[u32],
        step: u16,
        from: u32,
        to: u32,
    ) -> Result<Grid, GridFault>
        requires long { 10 ≤ step }
        requires short { step ≤ 1000 }
        requires near { to ≤ 1000000 }
        ensures { Answers marks.now step from to result }
    {
        if from >= to {
            return Err(GridFault::BadSpan);
        }
        let places = places_between(alloc, marks, step as u32, from, to)?;
        if places.len() > 4001 {
            return Err(GridFault::TooManySteps);
        }
        Ok(Grid { places })
    }

    /// The places in metres, in rising order. It takes no memory.
    pub fn places(&self) -> &[u32]
        ensures { result.now ≡ self.now }
    {
        self.places.as_slice()
    }

    /// The places, as a list of the caller's own. It takes no memory.
    pub fn into_places(self) -> Vec<u32>
        ensures { result.items ≡ self }
    {
        self.places
    }
}

/// The places of the grid, however many they are.
fn places_between(
    alloc: Global,
    marks: &[u32],
    step: u32,
    from: u32,
    to: u32,
) -> Result<Vec<u32>, AllocError>
    requires some { 1 ≤ step }
    requires short { step ≤ 1000 }
    requires span { from < to }
    requires near { to ≤ 1000000 }
    ensures { IfOk result (λ places. IsGrid marks.now step from to places.items) }
{
    let mut places = Vec::new(alloc);
    places.push(from)?;
    push_multiples(&mut places, step, from, to)?;
    push_marks(&mut places, marks, from, to)?;
    places.push(to)?;
    places.sort_unstable();
    places.dedup();
    Ok(places)
}

/// Appends the multiples of the step that lie strictly between the ends.
fn push_multiples(places: &mut Vec<u32>, step: u32, from: u32, to: u32) -> Result<(), AllocError>
    requires some { 1 ≤ step }
    requires short { step ≤ 1000 }
    requires span { from < to }
    requires near { to ≤ 1000000 }
    ensures { OnOk result ((p : ℕ) → Contains places.new.items p ↔ (Contains places.old.items p ⊎ ((from < p) × (p < to) × (p % step ≡ 0)))) }
{
    for k in from / step + 1..to.div_ceil(step) {
        places.push(k * step)?;
    }
    Ok(())
}

/// Appends the marks that lie strictly between the ends.
fn push_marks(places: &mut Vec<u32>, marks: &[u32], from: u32, to: u32) -> Result<(), AllocError>
    ensures { OnOk result ((p : ℕ) → Contains places.new.items p ↔ (Contains places.old.items p ⊎ ((from < p) × (p < to) × Contains marks.now p))) }
{
    for mark in marks {
        if from < *mark && *mark < to {
            places.push(*mark)?;
        }
    }
    Ok(())
}
