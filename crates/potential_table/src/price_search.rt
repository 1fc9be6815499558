//! The price of one timing point that gives the greatest chain value.
ghost use Rattle.std.specs.Prelude.{◌≡◌, ℕ, ◌+◌, ◌^◌, ◌<◌, ◌≤◌, ℤ, length, IfOk, IfSome, IfNone, Option, None, Some};
ghost use Rattle.std.specs.Int.RustNames.{unsigned_abs};
ghost use Rattle.bound_specs.specs.Cells.{cells_of};
ghost use Rattle.bound_specs.specs.Chains.{ArePotentials, IsAtMost};
ghost use Rattle.bound_specs.specs.ChainValues.{IsChainValue, IsBestPrice, price_set, with_price};
ghost use Rattle.potential_table.specs.Searching.{HasChain};
ghost use Rattle.bound_specs.specs.Links.{low_cost};
ghost use Rattle.bound_specs.specs.Prices.{AreFor};

use crate::least::potentials;
use crate::lower_bound::bound;
use crate::table::Potentials;
use drive_rules::Rules;
use link_costs::{Priced, prices_for};
use rail_base::StepCost;
use speed_cells::Cells;
use std::alloc::{AllocError, Global};
use time_multipliers::Prices;

/// The greatest price of a ms, in 0.5 microjoule.
const MOST_PRICE: u64 = 1 << 50;

/// A price of a ms above what most trains ask for, in 0.5 microjoule: a power of 34 MW.
const HIGH_PRICE: u64 = 1 << 36;

/// Prices, the potentials of cells under them, and the chain value that the two give, in 0.5 microjoule: none where the start's cell
/// has no chain.
#[derive(Drop)]
pub struct Valued {
    /// What each timing point charges.
    pub prices: Prices,
    /// What the least chain from each cell costs at these prices.
    pub potentials: Potentials,
    /// The chain value.
    pub value: Option<i128>,
}

/// The potentials of cells under prices, and their chain value. Or want of memory.
pub fn potentials_at<C: StepCost>(
    alloc: Global,
    rules: &Rules,
    cost: &C,
    cells: &Cells,
    prices: Prices,
) -> Result<Valued, AllocError>
    requires prices { AreFor rules.now prices }
    requires points { length cells.now ≡ length rules.now.steps + 1 }
    requires start { length (cells_of cells.now 0) ≡ 1 }
    ensures prices { IfOk result (λ found. found.prices ≡ prices) }
    ensures potentials { IfOk result (λ found. ArePotentials (low_cost (record { cost = C.cost cost.now; rules = rules.now; prices = found.prices })) cells.now found.potentials) }
    ensures value { IfOk result (λ found. IsChainValue (record { cost = C.cost cost.now; rules = rules.now; prices = found.prices }) cells.now found.value) }
    ensures small { IfOk result (λ found. IfSome found.value (λ v. unsigned_abs v ≤ 2 ^ 99)) }
{
    rules.known();
    let priced = Priced::make(rules, cost, &prices);
    let potentials = potentials(alloc, cells, &priced)?;
    let value = bound(&potentials, &prices, rules);
    Ok(Valued {
        prices,
        potentials,
        value,
    })
}

/// The prices with that of one timing point replaced: by the least whole number from 0 to 2^50 whose chain value is greatest on these
/// cells. Where the start's cell has no chain, the prices as they were. Or want of memory.
pub fn best_price<C: StepCost>(
    alloc: Global,
    rules: &Rules,
    cost: &C,
    cells: &Cells,
    prices: &Prices,
    timing: usize,
) -> Result<Prices, AllocError>
    requires prices { AreFor rules.now prices.now }
    requires timing { timing < length rules.now.timings }
    requires points { length cells.now ≡ length rules.now.steps + 1 }
    requires start { length (cells_of cells.now 0) ≡ 1 }
    ensures alone { IfOk result (λ found. (q : ℕ) × (q ≤ 2 ^ 50) × (found ≡ price_set prices.now timing q)) }
    ensures best { IfOk result (λ found. IsBestPrice (record { cost = C.cost cost.now; rules = rules.now; prices = found }) cells.now timing) }
    ensures no_chain { IsChainValue (record { cost = C.cost cost.now; rules = rules.now; prices = prices.now }) cells.now None → IfOk result (λ found. found ≡ prices.now) }
{
    let best = best_valued(alloc, rules, cost, cells, prices, timing)?;
    Ok(best.prices)
}

/// The prices that `best_price` gives, with the potentials of the cells under them and their chain value, so that no table is made
/// again. Or want of memory.
pub fn best_valued<C: StepCost>(
    alloc: Global,
    rules: &Rules,
    cost: &C,
    cells: &Cells,
    prices: &Prices,
    timing: usize,
) -> Result<Valued, AllocError>
    requires prices { AreFor rules.now prices.now }
    requires timing { timing < length rules.now.timings }
    requires points { length cells.now ≡ length rules.now.steps + 1 }
    requires start { length (cells_of cells.now 0) ≡ 1 }
    ensures alone { IfOk result (λ found. (q : ℕ) × (q ≤ 2 ^ 50) × (found.prices ≡ price_set prices.now timing q)) }
    ensures best { IfOk result (λ found. IsBestPrice (record { cost = C.cost cost.now; rules = rules.now; prices = found.prices }) cells.now timing) }
    ensures no_chain { IsChainValue (record { cost = C.cost cost.now; rules = rules.now; prices = prices.now }) cells.now None → IfOk result (λ found. found.prices ≡ prices.now) }
    ensures potentials { IfOk result (λ found. ArePotentials (low_cost (record { cost = C.cost cost.now; rules = rules.now; prices = found.prices })) cells.now found.potentials) }
    ensures value { IfOk result (λ found. IsChainValue (record { cost = C.cost cost.now; rules = rules.now; prices = found.prices }) cells.now found.value) }
    ensures no_less { IfOk result (λ found. (v : Option ℤ) → IsChainValue (record { cost = C.cost cost.now; rules = rules.now; prices = prices.now }) cells.now v → IsAtMost v found.value) }
    ensures small { IfOk result (λ found. IfSome found.value (λ v. unsigned_abs v ≤ 2 ^ 99)) }
{
    rules.known();
    prices.known();
    let given = prices_for(alloc, rules, prices.values())?;
    let found = potentials_at(alloc, rules, cost, cells, given)?;
    match found.value {
        None => Ok(found),
        Some(_) => {
            let price = sought(alloc, rules, cost, cells, prices, timing)?;
            let changed = prices_with(alloc, rules, prices, timing, price)?;
            let best = potentials_at(alloc, rules, cost, cells, changed)?;
            Ok(best)
        }
    }
}

/// The least price of a timing point whose chain value is greatest, where there is a chain.
///
/// Below `low` the chain value is smaller than at `low`, and from `high` on it is no greater than at `high`.
fn sought<C: StepCost>(
    alloc: Global,
    rules: &Rules,
    cost: &C,
    cells: &Cells,
    prices: &Prices,
    timing: usize,
) -> Result<u64, AllocError>
    requires prices { AreFor rules.now prices.now }
    requires timing { timing < length rules.now.timings }
    requires points { length cells.now ≡ length rules.now.steps + 1 }
    requires start { length (cells_of cells.now 0) ≡ 1 }
    requires chain { HasChain (record { cost = C.cost cost.now; rules = rules.now; prices = prices.now }) cells.now }
    ensures most { IfOk result (λ q. q ≤ 2 ^ 50) }
    ensures best { IfOk result (λ q. IsBestPrice (with_price (record { cost = C.cost cost.now; rules = rules.now; prices = prices.now }) timing q) cells.now timing) }
{
    rules.known();
    prices.known();
    let mut low = 0;
    let mut high = MOST_PRICE;
    let mut sides = Sides {
        rising: None,
        falling: None,
        room: 2 * MOST_PRICE,
    };
    while low < high {
        let given = prices.values()[timing];
        let price = next_price(&sides, given, low, high);
        let Some(tried) = tried_at(alloc, rules, cost, cells, prices, timing, price)? else {
            return Ok(low);
        };
        sides = sides_with(&sides, tried);
        if tried.here < tried.above {
            low = price + 1;
        } else {
            high = price;
        }
    }
    Ok(low)
}

/// A price of the timing point, with the chain values at it and at the price above.
#[derive(Clone, Copy)]
struct Tried {
    price: u64,
    here: i128,
    above: i128,
}

/// The last price at which the chain value still rose, the last one at which it didn't, and how many prices the next try may leave.
///
/// The room is halved with each try, so that 52 tries always do: as many as both ends and then halves would take.
#[derive(Clone, Copy)]
struct Sides {
    rising: Option<Tried>,
    falling: Option<Tried>,
    room: u64,
}

/// The sides after one more try.
fn sides_with(sides: &Sides, tried: Tried) -> Sides {
    let room = (sides.room / 2).max(1);
    if tried.above > tried.here {
        Sides {
            rising: Some(tried),
            falling: sides.falling,
            room,
        }
    } else {
        Sides {
            rising: sides.rising,
            falling: Some(tried),
            room,
        }
    }
}

/// The chain values at a price of a timing point and at the price above, none where there is no chain.
fn tried_at<C: StepCost>(
    alloc: Global,
    rules: &Rules,
    cost: &C,
    cells: &Cells,
    prices: &Prices,
    timing: usize,
    price: u64,
) -> Result<Option<Tried>, AllocError>
    requires prices { AreFor rules.now prices.now }
    requires timing { timing < length rules.now.timings }
    requires points { length cells.now ≡ length rules.now.steps + 1 }
    requires start { length (cells_of cells.now 0) ≡ 1 }
    requires price { price < 2 ^ 50 }
    ensures here { IfOk result (λ found. IfSome found (λ tried. IsChainValue (with_price (record { cost = C.cost cost.now; rules = rules.now; prices = prices.now }) timing price) cells.now (Some tried.here))) }
    ensures above { IfOk result (λ found. IfSome found (λ tried. IsChainValue (with_price (record { cost = C.cost cost.now; rules = rules.now; prices = prices.now }) timing (price + 1)) cells.now (Some tried.above))) }
    ensures none { IfOk result (λ found. IfNone found (HasChain (record { cost = C.cost cost.now; rules = rules.now; prices = prices.now }) cells.now → ⊥)) }
{
    rules.known();
    prices.known();
    let here = value_with(alloc, rules, cost, cells, prices, timing, price)?;
    let above = value_with(alloc, rules, cost, cells, prices, timing, price + 1)?;
    match here {
        None => Ok(None),
        Some(here) => match above {
            None => Ok(None),
            Some(above) => Ok(Some(Tried { price, here, above })),
        },
    }
}

/// The chain value with the price of one timing point replaced.
fn value_with<C: StepCost>(
    alloc: Global,
    rules: &Rules,
    cost: &C,
    cells: &Cells,
    prices: &Prices,
    timing: usize,
    price: u64,
) -> Result<Option<i128>, AllocError>
    requires prices { AreFor rules.now prices.now }
    requires timing { timing < length rules.now.timings }
    requires points { length cells.now ≡ length rules.now.steps + 1 }
    requires start { length (cells_of cells.now 0) ≡ 1 }
    requires price { price ≤ 2 ^ 50 }
    ensures { IfOk result (λ value. IsChainValue (with_price (record { cost = C.cost cost.now; rules = rules.now; prices = prices.now }) timing price) cells.now value) }
{
    let changed = prices_with(alloc, rules, prices, timing, price)?;
    let found = potentials_at(alloc, rules, cost, cells, changed)?;
    Ok(found.value)
}

/// The price to be tried next, from `low` to `high - 1`: the guess, moved so that no more prices are left than the room allows.
fn next_price(sides: &Sides, given: u64, low: u64, high: u64) -> u64
    requires { low < high }
    ensures low { low ≤ result }
    ensures high { result < high }
{
    guess(sides, given)
        .max(high.saturating_sub(sides.room))
        .min(low.saturating_add(sides.room).saturating_sub(1))
        .max(low)
        .min(high - 1)
}

/// A guess at the best price: first the price that is given, then one on its other side, a high one or one that is an eighth less; then where
/// the tangents of the two sides cross.
fn guess(sides: &Sides, given: u64) -> u64 {
    match (sides.rising, sides.falling) {
        (Some(rising), Some(falling)) => crossing(rising, falling),
        (Some(rising), None) => rising.price.saturating_mul(2).max(HIGH_PRICE),
        (None, Some(falling)) => falling.price - falling.price / 8,
        (None, None) => given,
    }
}

/// Where the line through a rising try and the price above it crosses that of a falling one. It is a guess, so it may be rounded and
/// wrap as it comes.
fn crossing(rising: Tried, falling: Tried) -> u64 {
    let climb = slope(rising.here, rising.above);
    let drop = slope(falling.above, falling.here);
    let between = falling.price.saturating_sub(rising.price);
    let excess = (climb as i128)
        .wrapping_mul(between as i128)
        .wrapping_add(rising.here)
        .wrapping_sub(falling.here);
    falling.price.saturating_sub(quotient(excess, climb + drop))
}

/// How much greater a chain value is than another: cut to the range from 1 to 2^60.
fn slope(less: i128, more: i128) -> u64
    ensures some { 1 ≤ result }
    ensures most { result ≤ 2 ^ 60 }
{
    let rise = more.wrapping_sub(less);
    if rise < 1 {
        1
    } else if rise < 1 << 60 {
        rise as u64
    } else {
        1 << 60
    }
}

/// A number divided by the sum of two slopes, cut to the range of prices.
fn quotient(number: i128, slopes: u64) -> u64
    requires { 1 ≤ slopes }
{
    if number < 1 {
        return 0;
    }
    let quotient = number as u128 / slopes as u128;
    if quotient < MOST_PRICE as u128 {
        quotient as u64
    } else {
        MOST_PRICE
    }
}

/// The prices with that of one timing point replaced.
fn prices_with(
    alloc: Global,
    rules: &Rules,
    prices: &Prices,
    timing: usize,
    price: u64,
) -> Result<Prices, AllocError>
    requires prices { AreFor rules.now prices.now }
    requires timing { timing < length rules.now.timings }
    requires price { price ≤ 2 ^ 50 }
    ensures timings { IfOk result (λ found. AreFor rules.now found) }
    ensures value { IfOk result (λ found. found ≡ price_set prices.now timing price) }
{
    rules.known();
    prices.known();
    let mut values = Vec::from_slice(alloc, prices.values())?;
    values[timing] = price;
    prices_for(alloc, rules, values.as_slice())
}
