// Pages: how the tables of the standards write numbers, registers and chips. What is written is a value that displays itself; no call of the engine is made
// here.
#![tactic(auto)]

use signals::Signal;

pub mod chips;
pub mod text;
pub mod values;

// The signals by their numbers, as the calls that are made with them take them: a `Signal` would be turned back at each.
pub const CA: u64 = Signal::Ca as u64;

pub const P: u64 = Signal::P as u64;

pub const CM: u64 = Signal::L2Cm as u64;

pub const CL: u64 = Signal::L2Cl as u64;

pub const I5: u64 = Signal::I5 as u64;

pub const Q5: u64 = Signal::Q5 as u64;
