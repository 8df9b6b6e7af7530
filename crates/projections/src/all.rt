// Everything projected once: every value with every other unit, then every unit's own costs.

ghost use Rattle.std.specs.Prelude.{◌≡◌, ◌<◌};
ghost use Rattle.projections.specs.Moves.{held_by, answer_of};
ghost use Rattle.projections.specs.All.{project_with, project_value, project_unit, project_units, project_own, project_floor, project_all_of};
ghost use Rattle.projections.specs.Steps.{outcome_in};

use crate::places::size_of;
use crate::{Moved, check_lent, project, project_unary};

// All binary projections, for each unit, each of its values and each other unit, then the unary projection of each unit: a lower bound is added to the
// floor. It ends at the first refusal, and the moves before it stand.
pub fn project_all(costs: &mut [u32], n: u8, sizes: [u8; 16], floor: u32) -> Moved
    ensures { (result ≡ answer_of (project_all_of n sizes (held_by floor costs.old))) × (costs.new ≡ (project_all_of n sizes (held_by floor costs.old)).held.costs) }
{
    let refusal = base::told(check_lent(costs, n, sizes, floor, true));
    let start = Moved { refusal, floor };
    let moved = project_units(costs, n, sizes, start);
    project_floor(costs, n, sizes, moved)
}

// The values of every unit, projected; none once a move was refused.
fn project_units(costs: &mut [u32], n: u8, sizes: [u8; 16], start: Moved) -> Moved
    ensures { (result ≡ answer_of (project_units n sizes (outcome_in start costs.old))) × (costs.new ≡ (project_units n sizes (outcome_in start costs.old)).held.costs) }
{
    let count = usize::from(n);
    let mut moved = start;
    for i in 0..count {
        moved = project_unit(costs, n, sizes, moved, i);
    }
    moved
}

// The values of the unit at place i.
fn project_unit(costs: &mut [u32], n: u8, sizes: [u8; 16], start: Moved, i: usize) -> Moved
    requires { i < 255 }
    ensures { (result ≡ answer_of (project_unit n sizes i (outcome_in start costs.old))) × (costs.new ≡ (project_unit n sizes i (outcome_in start costs.old)).held.costs) }
{
    let unit = (i + 1) as u8;
    let count = size_of(n, sizes, i);
    let mut moved = start;
    for k in 0..count {
        let value = (k + 1) as u8;
        moved = project_value(costs, n, sizes, moved, unit, value);
    }
    moved
}

// A value of a unit, with every other unit.
fn project_value(
    costs: &mut [u32],
    n: u8,
    sizes: [u8; 16],
    start: Moved,
    unit: u8,
    value: u8,
) -> Moved
    ensures { (result ≡ answer_of (project_value n sizes unit value (outcome_in start costs.old))) × (costs.new ≡ (project_value n sizes unit value (outcome_in start costs.old)).held.costs) }
{
    let count = usize::from(n);
    let mut moved = start;
    for k in 0..count {
        let other = (k + 1) as u8;
        moved = project_with(costs, n, sizes, moved, unit, value, other);
    }
    moved
}

// A value of a unit with another, which may be the unit itself: then there is nothing to project.
#[tactic(auto, unfolding(crate::specs::All::project_with))]
fn project_with(
    costs: &mut [u32],
    n: u8,
    sizes: [u8; 16],
    start: Moved,
    unit: u8,
    value: u8,
    other: u8,
) -> Moved
    ensures { (result ≡ answer_of (project_with n sizes unit value other (outcome_in start costs.old))) × (costs.new ≡ (project_with n sizes unit value other (outcome_in start costs.old)).held.costs) }
{
    if unit == other || start.refusal != 0 {
        return start;
    }
    project(costs, n, sizes, start.floor, unit, value, other)
}

// The own costs of every unit.
fn project_floor(costs: &mut [u32], n: u8, sizes: [u8; 16], start: Moved) -> Moved
    ensures { (result ≡ answer_of (project_floor n sizes (outcome_in start costs.old))) × (costs.new ≡ (project_floor n sizes (outcome_in start costs.old)).held.costs) }
{
    let count = usize::from(n);
    let mut moved = start;
    for i in 0..count {
        let unit = (i + 1) as u8;
        moved = project_own(costs, n, sizes, moved, unit);
    }
    moved
}

// Of one unit.
#[tactic(auto, unfolding(crate::specs::All::project_own))]
fn project_own(costs: &mut [u32], n: u8, sizes: [u8; 16], start: Moved, unit: u8) -> Moved
    ensures { (result ≡ answer_of (project_own n sizes unit (outcome_in start costs.old))) × (costs.new ≡ (project_own n sizes unit (outcome_in start costs.old)).held.costs) }
{
    if start.refusal != 0 {
        return start;
    }
    project_unary(costs, n, sizes, start.floor, unit)
}
