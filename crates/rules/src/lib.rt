// What a unit is: its state, what it decides on a message and what a call hands back. What it does is defined in specs/; decide and unit do it.
#![tactic(auto)]

use message::Message;

// 01: "A unit's state keeps its threshold stamp, its best bound and lotting, its estimates, its paper, its own counter and
// whether it has stopped." The paper out is the cpa in stamp, values and cost; the own value 0 means that none is out.
// C lends it, with its arrays of 16 places and the numbers that stand for none.
#[repr(C)]
#[derive(Clone, Copy, Debug, PartialEq, Eq)]
pub struct Unit {
    pub threshold: [u8; 16],
    pub bound: u32,
    pub best: [u8; 16],
    pub estimates: [u32; 16],
    pub stamp: [u8; 16],
    pub values: [u8; 16],
    pub cost: u32,
    pub counter: u8,
    pub stopped: bool,
}

// A unit's state without its estimates, which assigning and backtracking clear. A cpa that comes in is worked on as this, as less is copied. Not a part of `Unit`, whose layout is C's.
#[derive(Clone, Copy, Debug, PartialEq, Eq)]
pub struct Held {
    pub threshold: [u8; 16],
    pub bound: u32,
    pub best: [u8; 16],
    pub stamp: [u8; 16],
    pub values: [u8; 16],
    pub cost: u32,
    pub counter: u8,
    pub stopped: bool,
}

// What a step sends: nothing; the cpa to the next unit with a request to every later one; the cpa to the unit before, or
// from unit 1 a stop to all others, and solutions behind it if unit n improved; an estimate.
#[derive(Clone, Copy, Debug, PartialEq, Eq)]
pub enum Plan {
    Nothing,
    Forward,
    Back,
    Reply,
}

// How a message goes where it changes little: the state stays; the same, and an estimate is sent; the threshold becomes the message's
// stamp, and an estimate is sent; its cost is stored as an estimate; its bound and best are taken. Or `Whole`: what it does is not said.
#[derive(Clone, Copy, Debug, PartialEq, Eq)]
pub enum Way {
    Quiet,
    Reply,
    Follow,
    Store,
    Lower,
    Whole,
}

// The fields that the messages of a plan carry, the plan, and whether unit n improved its bound in this step.
#[derive(Clone, Copy)]
pub struct Sending {
    pub message: Message,
    pub plan: Plan,
    pub improved: bool,
}

// What a unit decides: a refusal with the state as lent, or the new state, what is sent and how many records were written. As in
// `Sending`, what is large stands first, where a copy of it is quick. No Result: a refusal hands the state back too, and its number goes on into C's
// `Outcome`.
#[derive(Clone, Copy)]
pub struct Decided {
    pub unit: Unit,
    pub sending: Sending,
    pub refusal: u8,
    pub records: u8,
}

// What making a unit and a step hand back beside the bytes; C is handed it as it is, so what is refused is a number.
#[repr(C)]
#[derive(Clone, Copy, Debug, PartialEq, Eq)]
pub struct Outcome {
    pub refusal: u8,
    pub unit: Unit,
    pub sent: u8,
    pub records: u8,
}

// What a step in place hands back beside the state and the bytes, for C too.
#[repr(C)]
#[derive(Clone, Copy, Debug, PartialEq, Eq)]
pub struct Report {
    pub refusal: u8,
    pub sent: u8,
    pub records: u8,
}
