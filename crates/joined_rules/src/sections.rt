//! What the sections of a line and the stretches say of each step.

ghost use Rattle.std.specs.Prelude.{◌≡◌, ◌+◌, ◌<◌, ◌≤◌, ◌⊎◌, ℕ, pos, ◌≤ℤ◌, [], length, slice_index, IfOk};
ghost use Rattle.line_file.specs.LineText.{last_to};
ghost use Rattle.line_file.specs.Shape.{section_at, AreSections};
ghost use Rattle.joined_rules.specs.JoinedParts.{Follow, AreCut, AreValues, AreLimits, IsFirstUnder, IsLeastFrom, IsLowered, LieAlong, Rising};

use crate::setup::Stretch;
use line_file::Section;
use std::alloc::{AllocError, Global};

/// The first section from this one on that ends above the place.
fn section_from(sections: &[Section], first: usize, place: u32) -> usize
    requires follow { Follow sections.now }
    requires there { first < length sections.now }
    requires begun { (section_at sections.now first).from ≤ place }
    requires ended { place < last_to sections.now }
    ensures there { result < length sections.now }
    ensures begun { (section_at sections.now result).from ≤ place }
    ensures ends { place < (section_at sections.now result).to }
{
    let mut k = first;
    while sections[k].to <= place {
        k += 1;
    }
    k
}

/// For each step between two places, the value of the section in which it lies.
pub(crate) fn values_of_steps(
    alloc: Global,
    sections: &[Section],
    places: &[u32],
) -> Result<Vec<i32>, AllocError>
    requires cut { AreCut sections.now places.now }
    requires some { 1 ≤ length places.now }
    ensures { IfOk result (λ values. AreValues sections.now places.now values.items) }
{
    let mut values = Vec::new(alloc);
    let mut k = 0;
    for i in 1..places.len() {
        k = section_from(sections, k, places[i - 1]);
        values.push(sections[k].value)?;
    }
    Ok(values)
}

/// The first section from this one on whose end the train's tail hasn't left when its head is at the place.
fn first_under(sections: &[Section], first: usize, metres: u32, place: u32) -> usize
    requires sections { AreSections (pos 1) (pos 12000) sections.now }
    requires there { first < length sections.now }
    requires behind { (j : ℕ) → j < first → (section_at sections.now j).to + metres ≤ place }
    requires ended { place < last_to sections.now }
    requires short { metres ≤ 1000 }
    ensures { IsFirstUnder sections.now metres place result }
{
    let mut k = first;
    while sections[k].to + metres <= place {
        k += 1;
    }
    k
}

/// A limit of a line as a speed.
fn speed_of(limit: i32) -> u16
    requires low { pos 1 ≤ℤ limit }
    requires high { limit ≤ℤ pos 12000 }
    ensures { pos result ≡ limit }
{
    limit as u16
}

/// The lesser of a speed and a limit of a line.
fn lesser(speed: u16, limit: i32) -> u16
    requires low { pos 1 ≤ℤ limit }
    requires high { limit ≤ℤ pos 12000 }
    ensures below { (result ≤ speed) × (pos result ≤ℤ limit) }
    ensures reached { (result ≡ speed) ⊎ (pos result ≡ limit) }
{
    let other = speed_of(limit);
    if other < speed { other } else { speed }
}

/// The least limit of the sections from this one on that begin before the end of a step.
fn least_from(sections: &[Section], first: usize, end: u32) -> u16
    requires sections { AreSections (pos 1) (pos 12000) sections.now }
    requires there { first < length sections.now }
    requires begun { (section_at sections.now first).from < end }
    ensures { IsLeastFrom sections.now first end result }
{
    let mut least = speed_of(sections[first].value);
    let mut k = first + 1;
    while k < sections.len() && sections[k].from < end {
        least = lesser(least, sections[k].value);
        k += 1;
    }
    least
}

/// Sets each limit to the least limit of the sections that meet a train of so many metres on its step. It goes over sections and steps
/// together, and looks at those sections alone that a step meets.
fn limit_by_sections(limits: &mut Vec<u16>, sections: &[Section], metres: u32, places: &[u32])
    requires sections { AreSections (pos 1) (pos 12000) sections.now }
    requires along { LieAlong sections.now places.now }
    requires short { metres ≤ 1000 }
    requires count { length limits.old.items + 1 ≡ length places.now }
    ensures { AreLimits sections.now [] metres places.now limits.new.items }
{
    let mut k = 0;
    for i in 0..limits.len() {
        let (start, end) = (places[i], places[i + 1]);
        k = first_under(sections, k, metres, start);
        limits[i] = least_from(sections, k, end);
    }
}

/// The first step that ends above a place, or the number of steps.
fn step_beyond(places: &[u32], place: u32) -> usize
    requires { Rising places.now }
    ensures before { (i : ℕ) → i < result → slice_index places.now (i + 1) ≤ place }
    ensures from { (i : ℕ) → result ≤ i → i + 1 < length places.now → place < slice_index places.now (i + 1) }
{
    let below = places.partition_point(|p| *p <= place);
    below.saturating_sub(1)
}

/// Lowers the limits of the steps on which a stretch meets a train of so many metres. It looks at these steps alone.
fn lower(limits: &mut Vec<u16>, stretch: &Stretch, metres: u32, places: &[u32])
    requires rising { Rising places.now }
    requires count { length limits.old.items + 1 ≡ length places.now }
    ensures count { length limits.new.items ≡ length limits.old.items }
    ensures each { (i : ℕ) → i < length limits.old.items → IsLowered stretch.now metres (slice_index places.now i) (slice_index places.now (i + 1)) (slice_index limits.old.items i) (slice_index limits.new.items i) }
{
    let tail_out = stretch.to as u64 + metres as u64;
    let mut i = step_beyond(places, stretch.from);
    while i < limits.len() && (places[i] as u64) < tail_out {
        limits[i] = limits[i].min(stretch.limit);
        i += 1;
    }
}

/// Sets for each step between two places the least limit of the sections and stretches that meet a train of so many metres there,
/// whatever stood there before. It takes no memory, and its cost is that of the steps, the sections, and for each stretch the steps on
/// which it meets the train.
pub fn set_step_limits(
    limits: &mut Vec<u16>,
    sections: &[Section],
    stretches: &[Stretch],
    metres: u32,
    places: &[u32],
)
    requires sections { AreSections (pos 1) (pos 12000) sections.now }
    requires along { LieAlong sections.now places.now }
    requires short { metres ≤ 1000 }
    requires count { length limits.old.items + 1 ≡ length places.now }
    ensures { AreLimits sections.now stretches.now metres places.now limits.new.items }
{
    limit_by_sections(limits, sections, metres, places);
    for stretch in stretches {
        lower(limits, stretch, metres, places);
    }
}

/// For each step between two places, the least limit of the sections and stretches that meet a train of so many metres there.
pub(crate) fn limits_of_steps(
    alloc: Global,
    sections: &[Section],
    stretches: &[Stretch],
    metres: u32,
    places: &[u32],
) -> Result<Vec<u16>, AllocError>
    requires sections { AreSections (pos 1) (pos 12000) sections.now }
    requires cut { AreCut sections.now places.now }
    requires short { metres ≤ 1000 }
    requires some { 1 ≤ length places.now }
    ensures { IfOk result (λ limits. AreLimits sections.now stretches.now metres places.now limits.items) }
{
    let mut limits = vec![in alloc; 0u16; places.len() - 1]?;
    set_step_limits(&mut limits, sections, stretches, metres, places);
    Ok(limits)
}
