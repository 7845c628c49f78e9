// A generator at any place of the week: where it stands, by division and remainder, and its register, brought there from its start by leaps.
#![tactic(auto)]

ghost use Rattle.std.specs.Prelude.{◌≡◌, ◌<◌, ◌≤◌, ◌^◌};
ghost use Rattle.week.specs.Standing.{on, in_period, standing_at};
ghost use Rattle.signals.specs.Signals.{number_of};
ghost use Rattle.generators_at.specs.Inner.{Fits, at_standing, placed_as, brought, Asked, plain_channel};

use leaps::{Counted, Leaps};
use machine::{Channel, Generator, Mode};
use signals::{Prn, Signal};
use week::{Course, Coursed, Standing};

// ---- where a generator stands. A course's facts are clauses: it is reckoned from any code's numbers, and the law `fits` of `Coursed` tells them of each.

// n chips after its start, in a mode.
#[inline(always)]
fn on_cycle(cycle: u64, n: u64, mode: Mode) -> Standing
    requires cycle_some { 0 < cycle }
    requires n_in { n < 2 ^ 32 }
    ensures { result ≡ on cycle n mode }
{
    Standing {
        phase: (n % cycle) as u32,
        cycles: (n / cycle) as u32,
        mode,
    }
}

// n chips after its start, within a period.
#[inline(always)]
#[tactic(auto, unfolding(week::specs::Standing::in_period))]
fn in_period(c: Course, n: u64) -> Standing
    requires cycle_some { 0 < c.cycle }
    requires n_in { n < c.period }
    requires period_in { c.period < 2 ^ 32 }
    requires runs_in { c.runs ≤ c.period }
    ensures { result ≡ in_period c.cycle c.runs c.period n }
{
    if n < c.runs {
        return on_cycle(c.cycle, n, Mode::Running);
    }
    let left = (c.period - 1 - n) as u32;
    on_cycle(c.cycle, c.runs, Mode::Held(left))
}

// At a place of the week.
#[inline(always)]
#[tactic(auto, unfolding(week::specs::Standing::standing_at))]
fn standing(c: Course, place: u64) -> Standing
    requires { Fits c place }
    ensures { result ≡ standing_at c place }
{
    if place < c.stop {
        return in_period(c, place % c.period);
    }
    let left = (c.week - 1 - place) as u32;
    on_cycle(c.cycle, c.stop % c.period, Mode::Held(left))
}

// Where a generator stands at a place of its week. Inlined, like what it calls, so that it divides by constants.
#[inline(always)]
pub fn standing_of<C: Coursed>(place: u64) -> Standing
    requires { place < C.course.week }
    ensures { result ≡ standing_at C.course place }
{
    standing(C::course(), place)
}

// ---- a generator at a place

// A generator where it stands, with a register.
#[inline(always)]
pub fn with_register(at: Standing, register: u32) -> Generator
    ensures { result ≡ at_standing register at }
{
    Generator {
        register,
        phase: at.phase,
        cycles: at.cycles,
        mode: at.mode,
    }
}

// The same, with its register brought there.
fn placed(at: Standing, register: Counted<u32>) -> Counted<Generator>
    ensures { result ≡ placed_as at register }
{
    let value = with_register(at, register.value);
    Counted {
        value,
        count: register.count,
    }
}

// A generator at a place of its week, brought there by leaps from its start, which may depend on the PRN. The count goes on from the leaps made before. That a
// start is one of the register's is a clause here and in `seeks`: it comes as a number, from a constant or a table.
pub fn seek<C: Coursed>(start: u32, place: u64, count: Leaps) -> Counted<Generator>
    requires start_in { start < 2 ^ C.kind.width }
    requires asked { Asked C.course.week place count }
    ensures { result ≡ brought (record C.kind { start = start }) C.course place count }
{
    let at = standing(C::course(), place);
    let from = Counted {
        value: start,
        count,
    };
    placed(at, leap_tables::leap::<C::Stages>(from, at.phase))
}

// ---- a channel

// The channel of a signal with at most two generators, which are handed in. What it lacks is 0 and running.
#[inline(always)]
pub fn plain_channel(
    signal: Signal,
    prn: Prn,
    place: u64,
    first: Generator,
    second: Generator,
) -> Channel
    ensures { result ≡ plain_channel (number_of signal) prn.number place first second }
{
    Channel {
        signal: signal.number(),
        prn: prn.number,
        place,
        epoch: 0,
        delay: 0,
        first,
        second,
        third: generators::fresh_generator(0, 0),
        fourth: generators::fresh_generator(0, 0),
    }
}
