// The channel of the stepped machine, by value. `specs/` says what it is: Generators, Signals and Machine, in this order.
#![tactic(auto)]

ghost use Rattle.machine.specs.RangeLaw.{OpenedInRange, SteppedInRange, ReachedInRange};

// Running, or held with a number of chips still to repeat.
#[derive(Clone, Copy, Debug, PartialEq, Eq)]
pub enum Mode {
    Running,
    Held(u32),
}

// A code generator.
#[derive(Clone, Copy, Debug, PartialEq, Eq)]
pub struct Generator {
    // Stage k is binary digit k - 1.
    pub register: u32,
    // The chip in its cycle, from 0.
    pub phase: u32,
    // The cycles finished in its run.
    pub cycles: u32,
    pub mode: Mode,
}

// A channel: a signal of a satellite at a place of the week. C/A has G1 and G2 as its generators, P has X1A, X1B, X2A and X2B, L2 CM has its
// one as the first and L2 CL as the second, I5 and Q5 have XA and XB. What a signal lacks is 0 and running.
#[derive(Clone, Copy, Debug, PartialEq, Eq)]
pub struct Channel {
    // 1 C/A, 2 P, 3 L2 CM, 4 L2 CL, 5 I5, 6 Q5. A number: a channel comes from any caller, with any fields, and is then judged.
    pub signal: u32,
    pub prn: u32,
    // Chips of this signal since the start of the week.
    pub place: u64,
    // P alone: X1 epochs of 1.5 seconds since the start of the week.
    pub epoch: u32,
    // P alone: the last 37 X2 chips, the latest in the lowest bit.
    pub delay: u64,
    pub first: Generator,
    pub second: Generator,
    pub third: Generator,
    pub fourth: Generator,
}

// W, the places of the week.
pub const WEEK_CA: u64 = 618_710_400_000;

pub const WEEK_P: u64 = 6_187_104_000_000;

pub const WEEK_L2: u64 = 309_355_200_000;

pub const WEEK_L5: u64 = 6_187_104_000_000;

// The place where X1A's last cycle of the week begins.
pub const LAST_CYCLE_X1A: u64 = 6_187_103_995_908;

// The week's last epoch of 1.5 seconds.
pub const LAST_EPOCH: u32 = 403_199;

// One past the highest number that the delay line holds, 2 to its 37 bits.
pub const LINE_LIMIT: u64 = 137_438_953_472;

// The last phase of a cycle, and the highest number of cycles finished where a generator counts them.
pub const LAST_G: u32 = 1_022;

pub const LAST_X1A: u32 = 4_091;

pub const HIGHEST_X1A: u32 = 3_749;

pub const LAST_X1B: u32 = 4_092;

pub const HIGHEST_X1B: u32 = 3_748;

pub const LAST_X2A: u32 = 4_091;

pub const HIGHEST_X2A: u32 = 3_749;

pub const LAST_X2B: u32 = 4_092;

pub const HIGHEST_X2B: u32 = 3_748;

pub const LAST_CM: u32 = 10_229;

pub const LAST_CL: u32 = 767_249;

pub const HIGHEST_XA: u32 = 1;

pub const HIGHEST_XB: u32 = 1;

// A law, with no code: the range law. An opened channel of any signal and PRN is in range, and every step of a channel in range leaves it there.
#[tactic(auto, using(crate::proofs::RangeLaw::opened_in, crate::proofs::RangeLaw::step_in_lem, crate::proofs::RangeLaw::reached_in))]
pub fn range_law()
    ensures opened { OpenedInRange }
    ensures stepped { SteppedInRange }
    ensures reached { ReachedInRange }
{}
