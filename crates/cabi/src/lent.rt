// A unit's state, and a network over either pool, as C lends them, with a byte for the flag `stopped`: read, and handed back.

ghost use Rattle.std.specs.Prelude.{◌≡◌, cond, replicate};
ghost use Rattle.cabi.specs.Lent.{flag_good, unit_back, outcome_back, units_from, units_back, core_back, answer_back, slots_back};

use crate::{LentAnswer, LentCore, LentNetwork, LentOutcome, LentSlotsAnswer, LentUnit};
use network::{Answer, Core, Network};
use unit::{Outcome, Unit};

// The state that is lent, or where the byte is no flag, one out of range.
impl From<LentUnit> for Unit {
    ghost use Rattle.cabi.specs.Lent.{unit_from};

    ghost from_gives = { λ s u. u ≡ unit_from s };

    #[tactic(auto, unfolding(crate::specs::Lent::unit_from))]
    fn from(s: LentUnit) -> Unit {
        let threshold = threshold_from(s);
        let LentUnit {
            bound,
            best,
            estimates,
            stamp,
            values,
            cost,
            counter,
            stopped,
            ..
        } = s;
        Unit {
            threshold,
            bound,
            best,
            estimates,
            stamp,
            values,
            cost,
            counter,
            stopped: stopped == 1,
        }
    }
}

fn threshold_from(s: LentUnit) -> [u8; 16]
    ensures { result ≡ cond (flag_good s) s.threshold (replicate 16 255) }
{
    if s.stopped <= 1 {
        s.threshold
    } else {
        [255; 16]
    }
}

// A state with its flag as a byte.
impl From<Unit> for LentUnit {
    ghost use Rattle.cabi.specs.Lent.{lent_of};

    ghost from_gives = { λ u s. s ≡ lent_of u };

    fn from(u: Unit) -> LentUnit {
        let Unit {
            threshold,
            bound,
            best,
            estimates,
            stamp,
            values,
            cost,
            counter,
            stopped,
        } = u;
        LentUnit {
            threshold,
            bound,
            best,
            estimates,
            stamp,
            values,
            cost,
            counter,
            stopped: u8::from(stopped),
        }
    }
}

// What stands where s was lent, once a call leaves the unit u there.
#[tactic(auto, unfolding(crate::specs::Lent::unit_back))]
fn unit_back(s: LentUnit, u: Unit) -> LentUnit
    ensures { result ≡ unit_back s u }
{
    if s.stopped <= 1 { LentUnit::from(u) } else { s }
}

// What a step by value hands back.
pub(crate) fn outcome_back(s: LentUnit, r: Outcome) -> LentOutcome
    ensures { result ≡ outcome_back s r }
{
    LentOutcome {
        refusal: r.refusal,
        unit: unit_back(s, r.unit),
        sent: r.sent,
        records: r.records,
    }
}

fn units_from(ss: [LentUnit; 16]) -> [Unit; 16]
    ensures { result ≡ units_from ss }
{
    ss.map(|s| Unit::from(s))
}

fn units_back(ss: [LentUnit; 16], us: [Unit; 16]) -> [LentUnit; 16]
    ensures { result ≡ units_back ss us }
{
    // by index: `from_fn` with both arrays was tried, and its clause doesn't say that each call sees the same two
    let mut back = ss;
    for i in 0..16 {
        back[i] = unit_back(ss[i], us[i]);
    }
    back
}

// The units and counts that are lent.
impl From<LentCore> for Core {
    ghost use Rattle.cabi.specs.Lent.{core_from};

    ghost from_gives = { λ s t. t ≡ core_from s };

    fn from(s: LentCore) -> Core {
        Core {
            units: units_from(s.units),
            records: s.records,
            deliveries: s.deliveries,
        }
    }
}

// What stands where they were lent, once a call leaves these there.
fn core_back(s: LentCore, left: Core) -> LentCore
    ensures { result ≡ core_back s left }
{
    LentCore {
        units: units_back(s.units, left.units),
        records: left.records,
        deliveries: left.deliveries,
    }
}

// The network that is lent.
impl From<LentNetwork> for Network {
    ghost use Rattle.cabi.specs.Lent.{network_from};

    ghost from_gives = { λ s t. t ≡ network_from s };

    fn from(s: LentNetwork) -> Network {
        Network {
            core: Core::from(s.core),
            used: s.used,
        }
    }
}

// What a delivery or an echo hands back.
pub(crate) fn answer_back(s: LentNetwork, a: Answer) -> LentAnswer
    ensures { result ≡ answer_back s a }
{
    LentAnswer {
        refusal: a.refusal,
        network: LentNetwork {
            core: core_back(s.core, a.network.core),
            used: a.network.used,
        },
    }
}

// What a delivery over slots, or a replay, hands back.
pub(crate) fn slots_back(s: LentCore, a: slots::Answer) -> LentSlotsAnswer
    ensures { result ≡ slots_back s a }
{
    LentSlotsAnswer {
        refusal: a.refusal,
        core: core_back(s, a.core),
    }
}
