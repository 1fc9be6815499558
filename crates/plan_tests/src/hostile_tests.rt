//! Boxes that offer nothing, what is no drive, the same again and again, or want memory.

use crate::listed::Listed;
use crate::plans::plan_with;
use crate::routes::{three_steps, two_steps};
use drive_rules::{Drive, Judged, Rules};
use proposers::{Proposer, ask_all, drop_silent};
use rail_base::Traction;
use std::alloc::{AllocError, Global};
use std::cell::Cell;
use std::rc::Rc;
use std::test::Fail;

/// The speeds of the drive that a plan over two steps finds without boxes.
const SAME: &[u16] = &[0, 800, 0];

/// What a plan with one box leaves.
#[derive(Debug, PartialEq, Eq, Drop)]
struct Left {
    energy: Option<i128>,
    /// How many boxes are left once those are dropped of which nothing was taken.
    boxes: usize,
    /// How many were dropped by then.
    drops: u32,
}

/// What a plan without splits leaves, with one box that has these offers and gives so many of them.
fn left_by(
    alloc: Global,
    rules: &Rules,
    offers: &[&[u16]],
    gives: usize,
) -> Result<Left, AllocError> {
    let drops = Rc::new(alloc, Cell::new(0))?;
    let mut boxes: Vec<Box<dyn Proposer>> = Vec::new(alloc);
    if let Some(listed) = Listed::make(alloc, offers, gives, &drops)? {
        boxes.push(Box::new(alloc, listed)?)?;
    }
    let plan = plan_with(alloc, rules, 0, 10, &mut boxes)?;
    drop_silent(&mut boxes);
    Ok(Left {
        energy: plan.map(|plan| plan.cost),
        boxes: boxes.len(),
        drops: drops.get(),
    })
}

/// Whether a plan over two steps stays as it is without boxes, and so many boxes are left of one that has these offers.
fn is_unchanged(
    alloc: Global,
    rules: &Rules,
    offers: &[&[u16]],
    boxes: usize,
) -> Result<bool, AllocError> {
    let left = left_by(alloc, rules, offers, usize::MAX)?;
    let dropped = if boxes == 0 { 1 } else { 0 };
    Ok(left.energy == Some(6_600_000_000_000) && left.boxes == boxes && left.drops == dropped)
}

#[test]
fn hostile_boxes_change_nothing(rt: HostRuntime) -> Result<(), Fail> {
    let alloc = rt.alloc();
    let rules = two_steps(alloc, 50)?.expect(&rt, "rules");
    const CASES: &[(&str, &[&[u16]], usize)] = &[
        ("silent", &[], 0),
        ("short", &[&[], &[0], &[0, 800]], 1),
        ("wild", &[&[65535, 65535, 65535], &[0, 65535, 0]], 1),
    ];
    for &(name, offers, boxes) in CASES {
        assert!(rt; is_unchanged(alloc, &rules, offers, boxes)?, "{name}");
    }
    let often = vec![in alloc; SAME; 4096]?;
    assert!(rt; is_unchanged(alloc, &rules, often.as_slice(), 1)?, "same");
    Ok(())
}

#[test]
fn a_box_that_wants_memory_ends_the_plan(rt: HostRuntime) -> Result<(), Fail> {
    let alloc = rt.alloc();
    let rules = two_steps(alloc, 50)?.expect(&rt, "rules");
    assert!(rt; left_by(alloc, &rules, &[SAME, SAME], 1) == Err(AllocError));
    Ok(())
}

/// The offer costs less than each member of the family, and a plan at most as much.
#[test]
fn a_better_offer_is_taken(rt: HostRuntime) -> Result<(), Fail> {
    let alloc = rt.alloc();
    let rules = three_steps(alloc)?.expect(&rt, "rules");
    let got = left_by(alloc, &rules, &[&[0, 840, 828, 0]], usize::MAX)?;
    assert!(rt; got.energy.is_some_and(|energy| energy <= 7_256_000_000_000));
    assert!(rt; got.boxes == 1);
    Ok(())
}

#[test]
fn a_box_is_asked_for_all(rt: HostRuntime) -> Result<(), Fail> {
    let alloc = rt.alloc();
    let rules = two_steps(alloc, 50)?.expect(&rt, "rules");
    let drops = Rc::new(alloc, Cell::new(0))?;
    const OFFERS: &[&[u16]] = &[&[0, 800, 0], &[0, 1], &[0, 700, 0]];
    let mut listed = Listed::make(alloc, OFFERS, 3, &drops)?.expect(&rt, "a box");
    let mut best = Drive::make(alloc, &[0, 1000, 0])?;
    let Judged::Kept { .. } = rules.judge(best.speeds(), &Traction) else {
        panic!(rt; "the drive isn't on time");
    };
    let asked = ask_all(alloc, &mut listed, &rules, &Traction, &mut best)?;
    assert!(rt; asked == 3);
    assert!(rt; best.speeds() == [0, 800, 0].as_slice());
    assert!(rt; listed.next(alloc)?.is_none());
    assert!(rt; listed.taken() == 3);
    Ok(())
}
