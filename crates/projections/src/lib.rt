// Costs pushed forward: the three equivalence-preserving transformations of soft arc consistency, over costs held in 32 bits: own costs (unary costs)
// unit by unit, then pair costs as in a stream. Document 02, job 8.
#![tactic(auto)]

mod all; // everything projected once
mod bound; // a lower bound of its least total
mod held; // the costs of a table
mod places; // where costs stand
mod runs; // the costs of a unit's values, alone or with a value of another unit

ghost use Rattle.std.specs.Prelude.{◌≡◌, true, IfOk, IfErr};
ghost use Rattle.base.specs.Refusal.{number_of, told};
ghost use Rattle.costs.specs.Instance.{dom_in};
ghost use Rattle.projections.specs.Moves.{held_by, row_there, refusal_by, answer_of, moved_by, project_of, unary_project_of, extend_of};
ghost use Rattle.projections.specs.Steps.{RowAt};

use crate::places::{cost_count, own_place, own_run, row_run, size_of, sum_sizes};
use crate::runs::{all_free, least_cost, raise_fits, shift};
pub use all::project_all;
use base::{Refusal, is_value};
pub use bound::lower_bound;
pub use held::hold;

// A forbidden cost (02: "barred").
pub const BARRED: u32 = 4294967295;

// The most costs that there are: 16 values of each of 16 units, and 256 of each of their 120 pairs.
pub const COSTS_ROOM: usize = 30976;

// What a move gives: the refusal, or 0, and the floor as the move leaves it. C is handed it as it is.
#[repr(C)]
#[derive(Clone, Copy, Debug, PartialEq, Eq)]
pub struct Moved {
    pub refusal: u8,
    pub floor: u32,
}

// What a move of a value's row finds first: the place of the value's own cost, and its costs with the other unit.
#[derive(Clone, Copy, Debug, PartialEq, Eq)]
struct Found {
    own: usize,
    row: Run,
}

// The costs of `count` values: the first stands at `start`, each next one `step` further.
#[derive(Clone, Copy, Debug, PartialEq, Eq)]
struct Run {
    start: usize,
    step: usize,
    count: usize,
}

// Binary projection: the least permitted cost of a unit's value with another unit is taken off all of these and added to the value's own cost.
pub fn project(
    costs: &mut [u32],
    n: u8,
    sizes: [u8; 16],
    floor: u32,
    unit: u8,
    value: u8,
    other: u8,
) -> Moved
    ensures { (result ≡ answer_of (project_of n sizes unit value other (held_by floor costs.old))) × (costs.new ≡ (project_of n sizes unit value other (held_by floor costs.old)).held.costs) }
{
    told_move(
        floor,
        project_row(costs, n, sizes, floor, unit, value, other),
    )
}

// Unary projection: the least own cost of a unit is taken off all its values and added to the floor.
pub fn project_unary(costs: &mut [u32], n: u8, sizes: [u8; 16], floor: u32, unit: u8) -> Moved
    ensures { (result ≡ answer_of (unary_project_of n sizes unit (held_by floor costs.old))) × (costs.new ≡ (unary_project_of n sizes unit (held_by floor costs.old)).held.costs) }
{
    told_move(floor, project_run(costs, n, sizes, floor, unit))
}

// Extension: a part of the own cost of a unit's value is moved into all its costs with another unit.
pub fn extend(
    costs: &mut [u32],
    n: u8,
    sizes: [u8; 16],
    floor: u32,
    unit: u8,
    value: u8,
    other: u8,
    part: u32,
) -> Moved
    ensures { (result ≡ answer_of (extend_of n sizes unit value other part (held_by floor costs.old))) × (costs.new ≡ (extend_of n sizes unit value other part (held_by floor costs.old)).held.costs) }
{
    told_move(
        floor,
        extend_row(costs, n, sizes, floor, unit, value, other, part),
    )
}

// ---- the moves: each gives the floor as it leaves it

// What C is told: refused, the floor as it was lent.
fn told_move(floor: u32, left: Result<u32, Refusal>) -> Moved
    ensures { result ≡ moved_by floor left }
{
    match left {
        Ok(floor) => Moved { refusal: 0, floor },
        Err(refusal) => Moved {
            refusal: refusal.number(),
            floor,
        },
    }
}

fn project_row(
    costs: &mut [u32],
    n: u8,
    sizes: [u8; 16],
    floor: u32,
    unit: u8,
    value: u8,
    other: u8,
) -> Result<u32, Refusal>
    ensures { (moved_by floor result ≡ answer_of (project_of n sizes unit value other (held_by floor costs.old))) × (costs.new ≡ (project_of n sizes unit value other (held_by floor costs.old)).held.costs) }
{
    let found = find_row(costs, n, sizes, floor, unit, value, other)?;
    let own = found.own;
    let row = found.row;
    let least = least_cost(costs, row).unwrap_or(0);
    let cost = costs[own];
    if BARRED - cost <= least {
        return Err(Refusal::TooLarge);
    }
    shift(costs, row, least, false);
    costs[own] = cost + least;
    Ok(floor)
}

fn project_run(
    costs: &mut [u32],
    n: u8,
    sizes: [u8; 16],
    floor: u32,
    unit: u8,
) -> Result<u32, Refusal>
    ensures { (moved_by floor result ≡ answer_of (unary_project_of n sizes unit (held_by floor costs.old))) × (costs.new ≡ (unary_project_of n sizes unit (held_by floor costs.old)).held.costs) }
{
    let there = is_value(usize::from(n), usize::from(unit));
    check_lent(costs, n, sizes, floor, there)?;
    let all = own_run(n, sizes, unit);
    let least = least_cost(costs, all).unwrap_or(0);
    if BARRED - floor <= least {
        return Err(Refusal::TooLarge);
    }
    shift(costs, all, least, false);
    Ok(floor + least)
}

fn extend_row(
    costs: &mut [u32],
    n: u8,
    sizes: [u8; 16],
    floor: u32,
    unit: u8,
    value: u8,
    other: u8,
    part: u32,
) -> Result<u32, Refusal>
    ensures { (moved_by floor result ≡ answer_of (extend_of n sizes unit value other part (held_by floor costs.old))) × (costs.new ≡ (extend_of n sizes unit value other part (held_by floor costs.old)).held.costs) }
{
    let found = find_row(costs, n, sizes, floor, unit, value, other)?;
    let own = found.own;
    let row = found.row;
    let cost = costs[own];
    if cost < part {
        return Err(Refusal::TooLarge);
    }
    if !raise_fits(costs, row, part) {
        return Err(Refusal::TooLarge);
    }
    shift(costs, row, part, true);
    costs[own] = cost - part;
    Ok(floor)
}

// ---- what is asked of the costs lent, whatever the move

// The row of a unit's value with another unit, or the first of 5, 6, 10 and 19 that applies, but for the amount that would be moved.
fn find_row(
    costs: &[u32],
    n: u8,
    sizes: [u8; 16],
    floor: u32,
    unit: u8,
    value: u8,
    other: u8,
) -> Result<Found, Refusal>
    ensures ok { IfOk result (λ found. RowAt n sizes unit value other (held_by floor costs.now) found) }
    ensures err { IfErr result (λ refusal. number_of refusal ≡ refusal_by n sizes (held_by floor costs.now) (row_there n (dom_in n sizes) unit value other) true) }
{
    let there = row_there(n, sizes, unit, value, other);
    check_lent(costs, n, sizes, floor, there)?;
    let own = own_place(n, sizes, unit, value);
    let row = row_run(n, sizes, unit, value, other);
    Ok(Found { own, row })
}

// Whether none of 5, 6, 10 and 19 applies, but for the amount that would be moved; `there` is whether the units and the value are.
fn check_lent(costs: &[u32], n: u8, sizes: [u8; 16], floor: u32, there: bool) -> Result<(), Refusal>
    ensures { told result ≡ refusal_by n sizes (held_by floor costs.now) there true }
{
    if !base::shape_good(n, sizes) {
        return Err(Refusal::OutOfRange);
    }
    if costs.len() != cost_count(n, sizes) {
        return Err(Refusal::BadLength);
    }
    if !there {
        return Err(Refusal::BadUnit);
    }
    if BARRED <= floor {
        return Err(Refusal::TooLarge);
    }
    if !all_free(&costs[..sum_sizes(n, sizes, 0, usize::from(n))]) {
        return Err(Refusal::TooLarge);
    }
    Ok(())
}

// Whether the unit, its value and the other unit are there, and two units.
fn row_there(n: u8, sizes: [u8; 16], unit: u8, value: u8, other: u8) -> bool
    ensures { result ≡ row_there n (dom_in n sizes) unit value other }
{
    let units = usize::from(n);
    is_value(units, usize::from(unit))
        && is_value(size_of(n, sizes, usize::from(unit) - 1), usize::from(value))
        && is_value(units, usize::from(other))
        && unit != other
}
