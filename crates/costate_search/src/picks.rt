//! The choice of three that a round has at each place: a stride down, as it is, or a stride up.
ghost use Rattle.std.specs.Prelude.{◌≡◌};
ghost use Rattle.costate_search.specs.Course.{within_range};

/// The greatest size of a costate.
const MOST: i32 = 1 << 22;

/// For each of the three choices at a place: what the points before it are charged at best, and which choice at the place before it that takes.
#[derive(Clone, Copy)]
pub(crate) struct Reached {
    pub(crate) value: [i128; 3],
    pub(crate) from: [u8; 3],
}

impl Reached {
    /// Which choice at the place before it this choice takes.
    pub(crate) fn before(&self, pick: u8) -> u8 {
        match pick {
            0 => self.from[0],
            2 => self.from[2],
            _ => self.from[1],
        }
    }
}

/// The greatest of the values of three choices, and which choice that is: where it can be, the one that leaves all as it is.
pub(crate) fn best_of(values: [i128; 3]) -> (i128, u8) {
    let [down, same, up] = values;
    if same >= down && same >= up {
        (same, 1)
    } else if down >= up {
        (down, 0)
    } else {
        (up, 2)
    }
}

/// What a choice adds to a costate.
pub(crate) fn shift(pick: u8, stride: i32) -> i32 {
    match pick {
        0 => 0i32.saturating_sub(stride),
        2 => stride,
        _ => 0,
    }
}

/// A costate, moved into its range.
pub(crate) fn moved(costate: i32) -> i32
    ensures { result ≡ within_range costate }
{
    (-MOST).max(MOST.min(costate))
}
