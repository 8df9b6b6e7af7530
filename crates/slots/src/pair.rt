// The newer of two lent messages that share sender, receiver and kind.

ghost use Rattle.std.specs.Prelude.{◌≡◌, IfOk, IfErr};
ghost use Rattle.base.specs.Refusal.{number_of, told};
ghost use Rattle.slots.specs.Newer.{same_slot, later_stamp, second_newer, choice_of, newer_refusal, which_newer, newer_of};

use base::Refusal;
use message::{Kind, Message};

// Which of two lent messages is handed back.
#[derive(Clone, Copy, Debug, PartialEq, Eq)]
enum Which {
    First,
    Second,
}

// The newer of the two, all of the buffer that held it. Refusals 5; 8, 10, 9 of the first, then of the second; 9 where they differ in sender,
// receiver or kind.
pub fn newer<'a>(
    n: u8,
    sizes: [u8; 16],
    first: &'a [u8],
    second: &'a [u8],
) -> Result<&'a [u8], Refusal>
    ensures ok { IfOk result (λ part. (newer_refusal n sizes first.now second.now ≡ 0) × (part.now ≡ newer_of n sizes first.now second.now)) }
    ensures err { IfErr result (λ refusal. number_of refusal ≡ newer_refusal n sizes first.now second.now) }
{
    match choose(n, sizes, first, second)? {
        Which::First => Ok(first),
        Which::Second => Ok(second),
    }
}

// Whether one of the two is handed back, with the same refusals.
pub fn check_newer(n: u8, sizes: [u8; 16], first: &[u8], second: &[u8]) -> Result<(), Refusal>
    ensures { told result ≡ newer_refusal n sizes first.now second.now }
{
    choose(n, sizes, first, second)?;
    Ok(())
}

// 1 where the first buffer is handed back, 2 where the second is, 0 where neither is: C can't be handed a part of a buffer.
pub fn which_newer(n: u8, sizes: [u8; 16], first: &[u8], second: &[u8]) -> u8
    ensures { result ≡ which_newer n sizes first.now second.now }
{
    match choose(n, sizes, first, second) {
        Ok(Which::First) => 1,
        Ok(Which::Second) => 2,
        Err(_) => 0,
    }
}

// Both are read, the first checked first.
#[tactic(auto, unfolding(crate::specs::Newer::choice_of))]
fn choose(n: u8, sizes: [u8; 16], first: &[u8], second: &[u8]) -> Result<Which, Refusal>
    ensures { result ≡ choice_of n sizes first.now second.now }
{
    let (kind, a) = message::parse(n, sizes, first)?;
    let (also, b) = message::parse(n, sizes, second)?;
    if !same_slot(kind, a, also, b) {
        return Err(Refusal::BadField);
    }
    if second_newer(kind, a, b) {
        Ok(Which::Second)
    } else {
        Ok(Which::First)
    }
}

// The same kind, sender and receiver.
fn same_slot(kind: Kind, a: Message, also: Kind, b: Message) -> bool
    ensures { result ≡ same_slot kind a also b }
{
    u8::from(kind) == u8::from(also) && a.sender == b.sender && a.receiver == b.receiver
}

// Whether the second of two of one kind is the newer: by its stamp, or a solution by its bound; two stops are a tie.
fn second_newer(kind: Kind, a: Message, b: Message) -> bool
    ensures { result ≡ second_newer kind a b }
{
    match kind {
        Kind::Cpa | Kind::Request | Kind::Estimate => later_stamp(a, b),
        Kind::Solution => b.bound < a.bound,
        Kind::Stop => false,
    }
}

// Whether b's stamp is the bigger.
fn later_stamp(a: Message, b: Message) -> bool
    ensures { result ≡ later_stamp a b }
{
    unit::compare_stamps(a.stamp, b.stamp).is_lt()
}
