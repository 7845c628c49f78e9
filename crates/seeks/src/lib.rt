// A seek: the channel of a signal and PRN at any place of the week. Its generators are brought there by leaps, X2A and X2B to 37 places before, from where
// single steps of these two fill the delay line. Leaps and single steps are counted, and both counts are promised.
#![tactic(auto)]

ghost use Rattle.std.specs.Prelude.{◌≡◌, ◌+◌, ◌-◌, ◌<◌, ◌≤◌, ◌^◌, min};
ghost use Rattle.machine.specs.Signals.{week_ca, week_p, week_l2, week_l5, week_of};
ghost use Rattle.machine.specs.Signals.{x2a, x2b};
ghost use Rattle.machine.specs.Signals.{signal_ca, signal_p, from_l5};
ghost use Rattle.week.specs.Standing.{generator_at};
ghost use Rattle.week.specs.Week.{course_x2a, course_x2b};
ghost use Rattle.week.specs.Week.{courses_ca, courses_p, courses_l5};
ghost use Rattle.signals.specs.Signals.{number_of};
ghost use Rattle.steps.specs.Inner.{from_l2};
ghost use Rattle.seeks.specs.Leaps.{FewLeaps, AtMost44};
ghost use Rattle.seeks.specs.Steps.{single_steps};
ghost use Rattle.seeks.specs.Inner.{Filled, plain_landed, course_l2, courses_l2, landed, landed_at};

use generators::{Cl, Cm};
use leaps::Leaps;
use machine::{Channel, Generator};
use registers::{G1, G2, X1A, X1B, X2A, X2B, XA, XB};
use signals::{Prn, Signal};
use starts::FixedStart;
use steps::L2Code;
use week::Coursed;

mod fills;

use fills::Fill;
pub use fills::SingleSteps;

// E, the chips of an epoch of P.
const EPOCH_P: u64 = 15_345_000;

// The bits of the delay line, and so the single steps that fill it.
const LINE_BITS: u64 = 37;

// ---- the delay line

// The place from which the delay line is filled: as many places before as it has bits, or place 0.
fn filled_from(place: u64) -> u64
    ensures { result ≡ place - 37 }
{
    place.saturating_sub(LINE_BITS)
}

// The three at a place, by single steps of X2A and X2B, which are at place `from` as they come.
// Not inlined, so that its loop keeps to registers: inlined, a seek of P takes a sixth longer.
#[inline(never)]
fn fill_line(from: u64, place: u64, third: Generator, fourth: Generator) -> Fill
    requires from_first { from ≤ place }
    requires few { place ≤ from + 37 }
    requires place_in_week { place < week_p }
    requires third_there { third ≡ generator_at x2a course_x2a from }
    requires fourth_there { fourth ≡ generator_at x2b course_x2b from }
    ensures { Filled from place result }
{
    let mut fill = Fill {
        third,
        fourth,
        delay: machine::LINE_LIMIT - 1,
        steps: SingleSteps::none(),
    };
    for at in from..place {
        let week_end = machine::LAST_CYCLE_X1A <= at + 1;
        fill = fill.step(week_end);
    }
    fill
}

// ---- a channel at a place. That the place lies in the week is a clause of each that seeks: another signal has another week. Signal, PRN and
// place are handed on one beside the other: each is tested by itself, and C/A and P need no signal.

// The leaps made, and the channel at the place sought. No `Counted<Channel>`: it is what the call seek answers, and its fields are named as the call tells them.
#[derive(Clone, Copy, Debug, PartialEq, Eq)]
pub struct Sought {
    pub leaps: u32,
    pub channel: Channel,
}

// A signal with at most two generators, which are handed in.
fn plain_at(
    signal: Signal,
    prn: Prn,
    place: u64,
    first: Generator,
    second: Generator,
    leaps: u32,
) -> Sought
    ensures { result ≡ plain_landed (number_of signal) prn.number place first second leaps }
{
    let channel = generators_at::plain_channel(signal, prn, place, first, second);
    Sought { leaps, channel }
}

// C/A. Apart from L5's: one for both would be handed the signal, the week's courses and the second start, and take two types, for three lines.
fn land_ca(prn: Prn, place: u64) -> Sought
    requires { place < week_ca }
    ensures { result ≡ landed (signal_ca prn.number) courses_ca 1 prn.number place }
{
    let g1 = generators_at::seek::<G1>(G1::START, place, Leaps::none());
    let g2 = generators_at::seek::<G2>(G2::START, place, g1.count);
    plain_at(
        Signal::Ca,
        prn,
        place,
        g1.value,
        g2.value,
        g2.count.number(),
    )
}

// P, whose delay line is filled from the places before, by single steps that are told in `steps`.
fn land_p(prn: Prn, place: u64, steps: &mut SingleSteps) -> Sought
    requires { place < week_p }
    ensures sought { result ≡ landed (signal_p prn.number) courses_p 2 prn.number place }
    ensures steps { steps.new ≡ min 37 place }
{
    let from = filled_from(place);
    let x1a = generators_at::seek::<X1A>(X1A::START, place, Leaps::none());
    let x1b = generators_at::seek::<X1B>(X1B::START, place, x1a.count);
    let x2a = generators_at::seek::<X2A>(X2A::START, from, x1b.count);
    let x2b = generators_at::seek::<X2B>(X2B::START, from, x2a.count);
    let filled = fill_line(from, place, x2a.value, x2b.value);
    *steps = filled.steps;
    let channel = Channel {
        signal: Signal::P.number(),
        prn: prn.number,
        place,
        epoch: (place / EPOCH_P) as u32,
        delay: filled.delay,
        first: x1a.value,
        second: x1b.value,
        third: filled.third,
        fourth: filled.fourth,
    };
    Sought {
        leaps: x2b.count.number(),
        channel,
    }
}

// L2 CM and L2 CL, from the code's start.
fn land_l2<C: L2Code + Coursed>(signal: Signal, prn: Prn, start: u32, place: u64) -> Sought
    requires start_in_register { start < 2 ^ 27 }
    requires place_in_week { place < week_l2 }
    requires by_whole_cycles { C.course ≡ course_l2 C.cycle }
    ensures { result ≡ landed (from_l2 C.is_first C.cycle start) (courses_l2 C.is_first C.cycle) (number_of signal) prn.number place }
{
    let own = generators_at::seek::<C>(start, place, Leaps::none());
    let none = generators::fresh_generator(0, 0);
    let lacking = plain_at(signal, prn, place, none, none, own.count.number());
    Sought {
        channel: C::with_own(lacking.channel, own.value),
        ..lacking
    }
}

// I5 and Q5, from XB's start.
fn land_l5(signal: Signal, prn: Prn, start: u32, place: u64) -> Sought
    requires start_in_register { start < 2 ^ 13 }
    requires place_in_week { place < week_l5 }
    ensures { result ≡ landed (from_l5 start) courses_l5 (number_of signal) prn.number place }
{
    let xa = generators_at::seek::<XA>(XA::START, place, Leaps::none());
    let xb = generators_at::seek::<XB>(start, place, xa.count);
    plain_at(signal, prn, place, xa.value, xb.value, xb.count.number())
}

// The channel of a signal and a PRN at a place of the week, which has to lie below the signal's W, with its leaps counted, and in `steps` the single steps, of X2A
// and of X2B each. They are no part of the answer: the call seek does not tell them, and a channel that is handed on with them would be copied. An arm for each
// signal: the compiler names each `match` that lacks one.
pub fn land_counted(signal: Signal, prn: Prn, place: u64, steps: &mut SingleSteps) -> Sought
    requires { place < week_of (number_of signal) }
    ensures sought { result ≡ landed_at (number_of signal) prn.number place }
    ensures steps { steps.new ≡ single_steps (number_of signal) prn.number place }
{
    *steps = SingleSteps::none();
    match signal {
        Signal::Ca => land_ca(prn, place),
        Signal::P => land_p(prn, place, steps),
        Signal::L2Cm => land_l2::<Cm>(signal, prn, starts::start_cm(prn), place),
        Signal::L2Cl => land_l2::<Cl>(signal, prn, starts::start_cl(prn), place),
        Signal::I5 => land_l5(signal, prn, starts::start_i5(prn), place),
        Signal::Q5 => land_l5(signal, prn, starts::start_q5(prn), place),
    }
}

// The same, with the leaps alone told, as the call seek tells them.
#[inline(always)]
pub fn land(signal: Signal, prn: Prn, place: u64) -> Sought
    requires { place < week_of (number_of signal) }
    ensures { result ≡ landed_at (number_of signal) prn.number place }
{
    land_counted(signal, prn, place, &mut SingleSteps::none())
}

// ---- a law

// A seek makes at most 44 leaps, to whatever place: 18 for C/A, 44 for P, 13 for L2 CM, 19 for L2 CL, 24 for I5 and Q5.
#[tactic(auto, using(crate::proofs::FewLeaps::few_leaps, crate::proofs::FewLeaps::at_most_44))]
pub fn few_leaps()
    ensures by_signal { FewLeaps }
    ensures at_most_44 { AtMost44 }
{}
