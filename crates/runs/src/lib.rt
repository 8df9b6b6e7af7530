// What a network of units is: its units and counts, and what its calls hand back. What these do, and what every run of them comes to, stands in
// specs/; network does it.
#![tactic(auto)]

use rules::Unit;

// A count in two words, the low one first.
#[repr(C)]
#[derive(Clone, Copy)]
pub struct Count {
    pub low: u64,
    pub high: u64,
}

// A count in decimal digits, as text: the bytes from `start` on. C is handed it as it is.
#[repr(C)]
#[derive(Clone, Copy)]
pub struct Text {
    pub text: [u8; 40],
    pub start: usize,
}

// The units, and how many records they wrote and deliveries were accepted.
#[repr(C)]
#[derive(Clone, Copy)]
pub struct Core {
    pub units: [Unit; 16],
    pub records: Count,
    pub deliveries: Count,
}

// The network, and how many cells of its pool are in use.
#[repr(C)]
#[derive(Clone, Copy)]
pub struct Network {
    pub core: Core,
    pub used: u64,
}

// What making and a delivery give beside the pool's bytes; C is handed it as it is.
#[repr(C)]
#[derive(Clone, Copy)]
pub struct Answer {
    pub refusal: u8,
    pub network: Network,
}

// What is known of a unit's values for a whole run: h of each as a number.
#[derive(Clone, Copy)]
pub struct Outlook {
    pub ahead: [u32; 16],
}
