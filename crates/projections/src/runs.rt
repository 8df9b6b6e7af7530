// The costs of a unit's values, alone or with a value of another unit: the least of them, and all of them lowered or raised.

ghost use Rattle.std.specs.Prelude.{◌≡◌, true, suc, ltb, get_or};
ghost use Rattle.std.specs.List.{list_all};
ghost use Rattle.base.specs.Every.{every};
ghost use Rattle.projections.specs.Held.{barred, held_cost};
ghost use Rattle.projections.specs.Moves.{least_at, lowered, raised, raise_fits, change_each};
ghost use Rattle.projections.specs.Steps.{run_place, Inside, Raisable, shifted};

use crate::{BARRED, Run};
use costs::Cost;

// The least cost of the run that is permitted, where one is. As numbers, of which a barred one is the largest: an Option from turn to turn takes
// more stack than the call for C says.
pub(crate) fn least_cost(costs: &[u32], run: Run) -> Cost
    requires { Inside run costs.now }
    ensures { result ≡ least_at (run_place run) run.count costs.now }
{
    let mut best = BARRED;
    for k in 0..run.count {
        best = best.min(costs[run.start + run.step * k]);
    }
    held_cost(best)
}

// The costs of the run, each raised by so much if `up`, else lowered; barred ones stay.
pub(crate) fn shift(costs: &mut [u32], run: Run, by: u32, up: bool)
    requires { Inside run costs.old × (up ≡ true → Raisable run by costs.old) }
    ensures { costs.new ≡ change_each (shifted up by) (run_place run) run.count costs.old }
{
    for k in 0..run.count {
        let at = run.start + run.step * k;
        costs[at] = shifted(costs[at], by, up);
    }
}

// Whether each of them, if permitted, is still a cost when raised by so much.
pub(crate) fn raise_fits(costs: &[u32], run: Run, by: u32) -> bool
    requires { Inside run costs.now }
    ensures { result ≡ every (λ k. raise_fits by (get_or costs.now (run_place run (suc k)) 0)) run.count }
{
    for k in 0..run.count {
        if !cost_fits(costs[run.start + run.step * k], by) {
            return false;
        }
    }
    true
}

// Whether none of the costs is barred.
pub(crate) fn all_free(costs: &[u32]) -> bool
    ensures { result ≡ list_all (λ x. ltb x barred) costs.now }
{
    costs.iter().all(|cost| *cost < BARRED)
}

// ---- one cost

fn shifted(cost: u32, by: u32, up: bool) -> u32
    requires { up ≡ true → raise_fits by cost ≡ true }
    ensures { result ≡ shifted up by cost }
{
    if up {
        raised(cost, by)
    } else {
        lowered(cost, by)
    }
}

fn lowered(cost: u32, by: u32) -> u32
    ensures { result ≡ lowered by cost }
{
    if cost == BARRED {
        return cost;
    }
    cost.saturating_sub(by)
}

fn raised(cost: u32, by: u32) -> u32
    requires { raise_fits by cost ≡ true }
    ensures { result ≡ raised by cost }
{
    if BARRED <= cost {
        return cost;
    }
    cost + by
}

fn cost_fits(cost: u32, by: u32) -> bool
    ensures { result ≡ raise_fits by cost }
{
    BARRED <= cost || by < BARRED - cost
}

fn held_cost(number: u32) -> Cost
    ensures { result ≡ held_cost number }
{
    if number < BARRED { Some(number) } else { None }
}
