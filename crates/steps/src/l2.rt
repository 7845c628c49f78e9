// L2 CM and L2 CL: each has one generator, CM a channel's first and CL its second, and lacks the other.

ghost use Rattle.std.specs.Prelude.{ℕ, Bool, true, false, ◌≡◌, ◌≤◌, ◌%◌, ◌^◌, refl};
ghost use lib.Dec.{lit≤};
ghost use Rattle.machine.specs.Generators.{Kind};
ghost use Rattle.machine.specs.Machine.{step_as};
ghost use Rattle.machine.specs.Ranged.{RangedAs};
ghost use Rattle.steps.specs.Inner.{l2, own_of, with_own, from_l2};

use generators::{Cl, Cm, Code};
use machine::{Channel, Generator};

// What the two codes differ in beside their starts.
pub trait L2Code: Code + Copy {
    // Whether its generator is a channel's first, and not its second.
    ghost is_first: { Bool };

    // The chips of its cycle.
    ghost cycle: { ℕ };

    // Its generator in a channel.
    fn own(ch: Channel) -> Generator
        ensures { result ≡ own_of is_first ch };

    // The channel with another in that one's place.
    fn with_own(ch: Channel, g: Generator) -> Channel
        ensures { result ≡ with_own is_first g ch };

    ghost kind_is: { Self.kind ≡ l2 cycle 0 };

    ghost cycle_in: { cycle ≤ 2 ^ 20 };
}

impl L2Code for Cm {
    ghost is_first = { true };

    ghost cycle = { 10230 };

    ghost kind_is = { refl };

    ghost cycle_in = { lit≤ tt };

    fn own(ch: Channel) -> Generator {
        ch.first
    }

    fn with_own(ch: Channel, g: Generator) -> Channel {
        Channel { first: g, ..ch }
    }
}

impl L2Code for Cl {
    ghost is_first = { false };

    ghost cycle = { 767250 };

    ghost kind_is = { refl };

    ghost cycle_in = { lit≤ tt };

    fn own(ch: Channel) -> Generator {
        ch.second
    }

    fn with_own(ch: Channel, g: Generator) -> Channel {
        Channel { second: g, ..ch }
    }
}

// The chip of either: the bit given.
pub fn chip_l2<C: L2Code>(ch: Channel) -> u8
    ensures { result ≡ (own_of C.is_first ch).register % 2 }
{
    (C::own(ch).register % 2) as u8
}

// The step of either, from its start.
pub fn step_l2<C: L2Code>(ch: Channel, start: u32) -> Channel
    requires { RangedAs (from_l2 C.is_first C.cycle start) ch }
    ensures { result ≡ step_as (from_l2 C.is_first C.cycle start) ch }
{
    let own = generators::step::<C>(C::own(ch), start, false);
    let after = C::with_own(ch, own);
    crate::plain_step(ch, machine::WEEK_L2, after.first, after.second)
}
