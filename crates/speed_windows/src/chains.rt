//! One pass over the steps: the cheapest chain of speeds in the windows round given ones.
use crate::course::{Course, StepShape, speed_of};
use crate::desk::{Desk, Onward};
use crate::links::{Exit, Links, NEVER, ROOM, SUMS, Tables, best_link};
use crate::window::{Look, Window};
use rail_base::StepCost;
use std::alloc::{AllocError, Global};

/// Fills the exits of a step, whose least costs to the end are known.
fn fill_exits(
    tables: &mut Tables,
    course: &Course,
    step: &StepShape,
    exit: &Window,
    costs: &[i64; ROOM],
) {
    tables.count = exit.count;
    for k in 0..exit.count {
        let speed = exit.speed(k);
        let up = step.up(speed);
        tables.exits[k as usize % ROOM] = Exit {
            up,
            unpulled: up.wrapping_sub(step.force(course.pull(speed))),
            rest: costs[k as usize % ROOM],
        };
    }
}

/// Fills the priced times of a step.
fn fill_times(
    tables: &mut Tables,
    step: &StepShape,
    entry: &Window,
    exit: &Window,
    price: u64,
    rounded: bool,
    most: i64,
) {
    let most = most.max(0) as u64;
    let first = entry.first as u64 + exit.first as u64;
    for k in 0..entry.count.saturating_add(exit.count) {
        let sum = first + k as u64 * entry.spacing as u64;
        let time = step.priced_time(price, sum, rounded).min(most);
        tables.times[k as usize % SUMS] = time as i64;
    }
}

/// Finds for each entry speed of a step the best link and what the chain costs from it on.
fn link_entries<C: StepCost>(
    desk: &mut Desk,
    course: &Course,
    cost: &C,
    index: usize,
    entry: &Window,
    exit: &Window,
    patience: u16,
) {
    let step = course.step(index);
    let mut onward = Onward { exits: [0; ROOM] };
    let mut links = Links {
        entry: 0,
        down: 0,
        from: 0,
        to: 0,
    };
    let mut guess = exit.middle;
    for k in 0..entry.count {
        let speed = entry.speed(k);
        let down = step.down(speed);
        let held = down.wrapping_sub(step.force(course.hold(speed)));
        links = Links {
            entry: k,
            down,
            from: desk.tables.first_held(links.from, held),
            to: desk.tables.first_unpulled(links.to, down),
        };
        let best = best_link(cost, course.scale, &desk.tables, &links, guess, patience);
        guess = best.exit;
        onward.exits[k as usize % ROOM] = (guess % 64) as u8;
        desk.costs[k as usize % ROOM] = best.cost;
    }
    if let Some(slot) = desk.onward.get_mut(index) {
        *slot = onward;
    }
}

/// What the cheapest chain in the windows round speeds costs with its time priced. The ways are left on the desk.
pub(crate) fn pass<C: StepCost>(
    desk: &mut Desk,
    course: &Course,
    cost: &C,
    prices: &[u64],
    speeds: &[u16],
    look: Look,
) -> i64 {
    let steps = course.steps.len();
    let mut exit = Window::new(course, steps, speed_of(speeds, steps), look);
    desk.costs[0] = 0;
    for i in (0..steps).rev() {
        let entry = Window::new(course, i, speed_of(speeds, i), look);
        let step = course.step(i);
        let price = course.price(prices, i);
        fill_exits(&mut desk.tables, course, &step, &exit, &desk.costs);
        fill_times(
            &mut desk.tables,
            &step,
            &entry,
            &exit,
            price,
            look.rounded,
            course.most_time,
        );
        link_entries(desk, course, cost, i, &entry, &exit, look.patience);
        exit = entry;
    }
    desk.costs[0].min(NEVER)
}

/// A chain that was found.
#[derive(Drop)]
pub(crate) struct Found {
    pub(crate) speeds: Vec<u16>,
    /// How far a speed lies from the middle of its window at most, in steps of the window.
    pub(crate) moved: u16,
}

/// The chain that the last pass over these windows found.
pub(crate) fn follow(
    alloc: Global,
    desk: &Desk,
    course: &Course,
    speeds: &[u16],
    look: Look,
) -> Result<Found, AllocError> {
    let steps = course.steps.len();
    let mut found = Vec::with_capacity(alloc, steps.saturating_add(1))?;
    found.push(Window::new(course, 0, speed_of(speeds, 0), look).speed(0))?;
    let mut moved = 0;
    let mut index: u16 = 0;
    for i in 0..steps {
        let point = i.saturating_add(1);
        index = match desk.onward.get(i) {
            Some(onward) => onward.exits[index as usize % ROOM] as u16,
            None => 0,
        };
        let window = Window::new(course, point, speed_of(speeds, point), look);
        moved = moved.max(index.abs_diff(window.middle));
        found.push(window.speed(index))?;
    }
    Ok(Found {
        speeds: found,
        moved,
    })
}

/// What speeds cost with their time priced, as a pass counts it, or `NEVER` where the forces don't allow them.
pub(crate) fn priced_cost<C: StepCost>(
    course: &Course,
    cost: &C,
    prices: &[u64],
    speeds: &[u16],
    rounded: bool,
) -> i64 {
    let most = course.most_time.max(0) as u64;
    let mut sum: i64 = 0;
    for i in 0..course.steps.len() {
        let entry = speed_of(speeds, i);
        let exit = speed_of(speeds, i.saturating_add(1));
        let Some(one) = course.step_cost(cost, i, entry, exit) else {
            return NEVER;
        };
        let both = entry as u64 + exit as u64;
        let time = course
            .step(i)
            .priced_time(course.price(prices, i), both, rounded);
        sum = sum.wrapping_add(one).wrapping_add(time.min(most) as i64);
    }
    sum
}
