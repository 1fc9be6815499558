//! The tables of one step, and the best link from each entry speed.
use crate::course::Scale;
use rail_base::StepCost;

/// Room for the speeds of a window: a power of two, so that an index is cut to it by a mask.
pub(crate) const ROOM: usize = 64;

/// Room for the sums of two windows' speeds.
pub(crate) const SUMS: usize = 128;

/// What a chain costs that is none.
pub(crate) const NEVER: i64 = 1 << 62;

/// What no chain costs. A chain that is none may cost less than `NEVER` where energy is given back, and never less than this.
pub(crate) const DEAR: i64 = 3 << 60;

/// What is known of one exit speed of a step.
#[derive(Clone, Copy, Debug)]
pub(crate) struct Exit {
    /// The exit's part of the work.
    pub(crate) up: i64,
    /// The same less the greatest work of the traction.
    pub(crate) unpulled: i64,
    /// The least cost from there to the end.
    pub(crate) rest: i64,
}

/// The exit behind the end.
pub(crate) const NO_EXIT: Exit = Exit {
    up: 0,
    unpulled: 0,
    rest: NEVER,
};

/// The tables of one step.
#[derive(Drop)]
pub(crate) struct Tables {
    pub(crate) exits: [Exit; ROOM],
    /// How many exits there are.
    pub(crate) count: u16,
    /// The priced time by the sum of the indices of both speeds.
    pub(crate) times: [i64; SUMS],
}

impl Tables {
    /// The exit of an index.
    fn exit(&self, index: u16) -> &Exit {
        &self.exits[index as usize % ROOM]
    }

    /// The first exit from `from` on whose part of the work is at least `need`.
    pub(crate) fn first_held(&self, from: u16, need: i64) -> u16 {
        for k in from..self.count {
            if self.exit(k).up >= need {
                return k;
            }
        }
        self.count
    }

    /// The first exit from `from` on that the traction can't reach, where the entry pays `down`.
    pub(crate) fn first_unpulled(&self, from: u16, down: i64) -> u16 {
        for k in from..self.count {
            if self.exit(k).unpulled > down {
                return k;
            }
        }
        self.count
    }
}

/// The links from one entry speed.
#[derive(Clone, Copy, Debug)]
pub(crate) struct Links {
    /// The index of the entry speed.
    pub(crate) entry: u16,
    /// Its part of the work.
    pub(crate) down: i64,
    /// The first exit that is kept.
    pub(crate) from: u16,
    /// The first behind the last that is kept.
    pub(crate) to: u16,
}

/// An exit, and what the chain costs from the link to it on.
#[derive(Clone, Copy, Debug)]
pub(crate) struct Choice {
    pub(crate) cost: i64,
    pub(crate) exit: u16,
}

/// What a chain costs from a link on.
fn link_cost<C: StepCost>(
    cost: &C,
    scale: Scale,
    tables: &Tables,
    links: &Links,
    exit: u16,
) -> i64 {
    let at = tables.exit(exit);
    let work = cost.of(at.up.wrapping_sub(links.down) as i128);
    let time = tables.times[links.entry.wrapping_add(exit) as usize % SUMS];
    scale.of(work).wrapping_add(time).wrapping_add(at.rest)
}

/// The best exit from `start` up, as far as the patience goes.
fn least_above<C: StepCost>(
    cost: &C,
    scale: Scale,
    tables: &Tables,
    links: &Links,
    start: u16,
    patience: u16,
) -> Choice {
    let mut best = Choice {
        cost: NEVER,
        exit: start,
    };
    for exit in start..links.to {
        if exit > best.exit.saturating_add(patience) {
            break;
        }
        let total = link_cost(cost, scale, tables, links, exit);
        if total < best.cost {
            best = Choice { cost: total, exit };
        }
    }
    best
}

/// The better of a choice and the best exit below `start`, as far as the patience goes.
fn least_below<C: StepCost>(
    cost: &C,
    scale: Scale,
    tables: &Tables,
    links: &Links,
    start: u16,
    patience: u16,
    above: Choice,
) -> Choice {
    let mut best = above;
    for exit in (links.from..start).rev() {
        if exit.saturating_add(patience) < best.exit.min(start) {
            break;
        }
        let total = link_cost(cost, scale, tables, links, exit);
        if total < best.cost {
            best = Choice { cost: total, exit };
        }
    }
    best
}

/// The best link from one entry speed, sought from a guess on both ways, and where that finds none among all.
pub(crate) fn best_link<C: StepCost>(
    cost: &C,
    scale: Scale,
    tables: &Tables,
    links: &Links,
    guess: u16,
    patience: u16,
) -> Choice {
    if links.to <= links.from {
        return Choice {
            cost: NEVER,
            exit: guess,
        };
    }
    let start = guess.max(links.from).min(links.to.saturating_sub(1));
    let above = least_above(cost, scale, tables, links, start, patience);
    let near = least_below(cost, scale, tables, links, start, patience, above);
    if near.cost < DEAR {
        return near;
    }
    let all = least_above(cost, scale, tables, links, links.from, u16::MAX);
    if all.cost < DEAR {
        all
    } else {
        Choice {
            cost: NEVER,
            exit: start,
        }
    }
}
