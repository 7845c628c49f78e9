// The families of signals: channels of a family are stepped alike, but for what their PRN decides.

ghost use Rattle.std.specs.Prelude.{ℕ, ◌≡◌, ⊤};
ghost use Rattle.starts.specs.Starts.{stages_of};
ghost use Rattle.machine.specs.Signals.{Signal, signal_ca, signal_p, from_l5};
ghost use Rattle.machine.specs.Machine.{step_as};
ghost use Rattle.steps.specs.Inner.{from_l2};
ghost use Rattle.stepped.specs.Inner.{Of};

use machine::Channel;
use starts::Stages;
use std::marker::PhantomData;
use steps::L2Code;

// A family. Its value holds what the PRN decides.
// That a channel is of the family, and the value its PRN's, are clauses: no type of a channel knows the family.
// One impl for each family: each names other functions of `steps`, and all but P's hold something else that the PRN decides.
pub trait Family: Copy {
    // The signal of each PRN, given that value.
    ghost signal: { Self → ℕ → Signal };

    // The value holds what this PRN decides.
    ghost decided: { Self → ℕ → Type 0 };

    // The present chip, 0 or 1.
    fn chip(self, ch: Channel) -> u8
        requires of { Of (signal self) ch }
        requires decided { decided self ch.prn }
        ensures { result ≡ (signal self ch.prn).chip ch };

    // The channel one step on.
    fn step(self, ch: Channel) -> Channel
        requires of { Of (signal self) ch }
        requires decided { decided self ch.prn }
        ensures { result ≡ step_as (signal self ch.prn) ch };
}

// C/A, with the two stages of G2 that its PRN adds.
#[derive(Clone, Copy, Debug, PartialEq, Eq)]
pub struct Ca {
    pub stages: Stages,
}

impl Family for Ca {
    ghost signal = { λ family prn. signal_ca prn };

    ghost decided = { λ family prn. family.stages ≡ stages_of prn };

    fn chip(self, ch: Channel) -> u8 {
        steps::chip_ca(ch, self.stages)
    }

    fn step(self, ch: Channel) -> Channel {
        steps::step_ca(ch)
    }
}

// P.
#[derive(Clone, Copy, Debug, PartialEq, Eq)]
pub struct P;

impl Family for P {
    ghost signal = { λ family prn. signal_p prn };

    ghost decided = { λ family prn. ⊤ };

    fn chip(self, ch: Channel) -> u8 {
        steps::chip_p(ch)
    }

    fn step(self, ch: Channel) -> Channel {
        steps::step_p(ch)
    }
}

// One of L2's codes, from its start.
#[derive(Clone, Copy, Debug, PartialEq, Eq)]
pub struct L2<C> {
    pub start: u32,
    code: PhantomData<C>,
}

pub type Cm = L2<generators::Cm>;

pub type Cl = L2<generators::Cl>;

impl<C> L2<C> {
    // From the start that the code has for a PRN.
    pub fn new(start: u32) -> L2<C>
        ensures { result.start ≡ start }
    {
        L2 {
            start,
            code: PhantomData,
        }
    }
}

impl<C: L2Code> Family for L2<C> {
    ghost signal = { λ family prn. from_l2 C.is_first C.cycle family.start };

    ghost decided = { λ family prn. ⊤ };

    fn chip(self, ch: Channel) -> u8 {
        steps::chip_l2::<C>(ch)
    }

    fn step(self, ch: Channel) -> Channel {
        steps::step_l2::<C>(ch, self.start)
    }
}

// I5 and Q5, from XB's start. Apart from `L2`: two generators are stepped, and both codes have the same two.
#[derive(Clone, Copy, Debug, PartialEq, Eq)]
pub struct L5 {
    pub start: u32,
}

impl Family for L5 {
    ghost signal = { λ family prn. from_l5 family.start };

    ghost decided = { λ family prn. ⊤ };

    fn chip(self, ch: Channel) -> u8 {
        steps::chip_l5(ch)
    }

    fn step(self, ch: Channel) -> Channel {
        steps::step_l5(ch, self.start)
    }
}
