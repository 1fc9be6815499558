//! The best slowness before each timing point under a quadratic model: a weighted isotonic regression, by pooling neighbours that
//! are out of order.
use crate::levels::{ONE, within};
use std::alloc::{AllocError, Global};

/// What the steps before a timing point ask for: `slope` times their slowness is to be `target`.
#[derive(Clone, Copy, Debug)]
pub(crate) struct Ask {
    /// The time that there is, as the model has it from slowness 0 on, ms.
    pub(crate) target: i64,
    /// How the time grows with the slowness, ms for `ONE`.
    pub(crate) slope: i64,
}

/// Neighbours with one slowness.
#[derive(Clone, Copy, Debug)]
struct Pool {
    target: i128,
    slope: i128,
    /// How many there are.
    count: usize,
}

impl Pool {
    /// Whether the slowness isn't less than that of the pool behind.
    fn blocks(&self, behind: &Pool) -> bool {
        self.target.wrapping_mul(behind.slope) >= behind.target.wrapping_mul(self.slope)
    }

    /// Both as one.
    fn joined(&self, behind: &Pool) -> Pool {
        Pool {
            target: self.target.wrapping_add(behind.target),
            slope: self.slope.wrapping_add(behind.slope),
            count: self.count.saturating_add(behind.count),
        }
    }

    /// The slowness of all of them.
    fn slowness(&self) -> u64 {
        let whole = self.target.max(0).wrapping_mul(ONE as i128) / self.slope.max(1);
        within(whole.clamp(0, 1 << 40) as u64)
    }
}

/// Puts one more behind the pools, and joins it with those before it that it is out of order with.
fn add_pool(pools: &mut Vec<Pool>, last: Pool) -> Result<(), AllocError> {
    let mut last = last;
    for _ in 0..pools.len() {
        match pools.pop() {
            Some(before) if before.blocks(&last) => last = before.joined(&last),
            Some(before) => {
                pools.push(before)?;
                break;
            }
            None => break,
        }
    }
    pools.push(last)?;
    Ok(())
}

/// The best slowness for each: rising along the line, and else as near to what is asked for as can be.
pub(crate) fn pooled(alloc: Global, asks: &[Ask]) -> Result<Vec<u64>, AllocError> {
    let mut pools = Vec::with_capacity(alloc, asks.len())?;
    for ask in asks {
        let last = Pool {
            target: ask.target as i128,
            slope: ask.slope as i128,
            count: 1,
        };
        add_pool(&mut pools, last)?;
    }
    spread(alloc, pools.as_slice())
}

/// For each its pool's slowness.
fn spread(alloc: Global, pools: &[Pool]) -> Result<Vec<u64>, AllocError> {
    let mut slowness = Vec::new(alloc);
    for pool in pools {
        for _ in 0..pool.count {
            slowness.push(pool.slowness())?;
        }
    }
    Ok(slowness)
}
