// The channel of a signal and PRN at any place of the week: where each generator stands by
// division, its register from the table of its chips or, of L2, moved there from its start by a
// table of moves. No leap is made and no step.
#![tactic(auto)]

ghost use Rattle.std.specs.Prelude.{◌≡◌, ℕ, ◌+◌, ◌/◌, ◌<◌, ◌≤◌, ◌^◌, length};
ghost use Rattle.registers.specs.Times.{times};
ghost use Rattle.registers.specs.Register.{shift_l2, shift_xb};
ghost use Rattle.machine.specs.Generators.{Kind};
ghost use Rattle.machine.specs.Machine.{advance, opened};
ghost use Rattle.machine.specs.Signals.{week_ca, week_p, week_l2, week_l5, week_of, signal_ca, signal_p, signal_cm, signal_cl, from_l5};
ghost use Rattle.week.specs.Standing.{generator_at};
ghost use Rattle.week.specs.Week.{courses_ca, courses_p, courses_cm, courses_cl, courses_l5, channel_at};
ghost use Rattle.signals.specs.Signals.{number_of};
ghost use Rattle.channels_at.specs.Inner.{Tabled};

use generators::{Cl, Cm};
use machine::{Channel, Generator};
use registers::{G1, G2, X1A, X1B, X2A, X2B, XA, XB};
use sequences::Sequence;
use signals::{Prn, Signal};
use week::{Coursed, Standing};

mod lines;

// E, the chips of an epoch of P.
const EPOCH_P: u64 = 15_345_000;

// ---- a generator

// A generator at a place of its week, its register read from a table of its chips that begins
// `from` chips before phase 0.
#[inline(always)]
fn tabled<C: Coursed>(table: &[u64], from: usize, width: u32, place: u64) -> Generator
    requires place_in_week { place < C.course.week }
    requires table_begins_near { from ≤ 65536 }
    requires table_reaches { (from + C.course.cycle) / 64 + 1 < length table.now }
    requires some_stage { 1 ≤ width }
    requires stages_of_register { width ≤ 32 }
    ensures { (k : Kind) → Tabled k C.course.cycle table.now from width → result ≡ generator_at k C.course place }
{
    let at = generators_at::standing_of::<C>(place);
    let register = sequences::register_at(table, from + at.phase as usize, width);
    generators_at::with_register(at, register)
}

// One of L2's generators at a place, from the code's start.
#[inline(always)]
fn own<C: Coursed>(start: u32, place: u64) -> Generator
    requires place_in_week { place < C.course.week }
    requires start_in { start < 2 ^ 27 }
    requires phases_few { C.course.cycle ≤ 2 ^ 20 }
    requires of_l2 { C.kind.shift ≡ shift_l2 }
    ensures { result ≡ generator_at (record C.kind { start = start }) C.course place }
{
    let at = generators_at::standing_of::<C>(place);
    generators_at::with_register(at, l2_registers::register_at(start, at.phase))
}

// ---- a channel of each signal. That the place lies in the week is a clause of each: another signal has another week.

// C/A.
fn at_ca(prn: Prn, place: u64) -> Channel
    requires { place < week_ca }
    ensures { result ≡ channel_at (signal_ca prn.number) courses_ca 1 prn.number place place }
{
    let g1 = tabled::<G1>(G1::sequence(), 0, 10, place);
    let g2 = tabled::<G2>(G2::sequence(), 0, 10, place);
    generators_at::plain_channel(Signal::Ca, prn, place, g1, g2)
}

// P.
fn at_p(prn: Prn, place: u64) -> Channel
    requires { place < week_p }
    ensures { result ≡ channel_at (signal_p prn.number) courses_p 2 prn.number place place }
{
    Channel {
        signal: Signal::P.number(),
        prn: prn.number,
        place,
        epoch: (place / EPOCH_P) as u32,
        delay: lines::line_at(place),
        first: tabled::<X1A>(X1A::sequence(), 0, 12, place),
        second: tabled::<X1B>(X1B::sequence(), 0, 12, place),
        third: tabled::<X2A>(X2A::sequence(), 0, 12, place),
        fourth: tabled::<X2B>(X2B::sequence(), 0, 12, place),
    }
}

// L2 CM, whose generator is the first.
fn at_cm(prn: Prn, place: u64) -> Channel
    requires { place < week_l2 }
    ensures { result ≡ channel_at (signal_cm prn.number) courses_cm 3 prn.number place place }
{
    let cm = own::<Cm>(starts::start_cm(prn), place);
    let none = generators::fresh_generator(0, 0);
    generators_at::plain_channel(Signal::L2Cm, prn, place, cm, none)
}

// L2 CL, whose generator is the second.
fn at_cl(prn: Prn, place: u64) -> Channel
    requires { place < week_l2 }
    ensures { result ≡ channel_at (signal_cl prn.number) courses_cl 4 prn.number place place }
{
    let cl = own::<Cl>(starts::start_cl(prn), place);
    let none = generators::fresh_generator(0, 0);
    generators_at::plain_channel(Signal::L2Cl, prn, place, none, cl)
}

// I5 and Q5, given how far XB is advanced from all ones, with which its table begins.
fn at_l5(signal: Signal, prn: Prn, advance: u32, place: u64) -> Channel
    requires place_in_week { place < week_l5 }
    requires advance_in_cycle { advance < 8191 }
    ensures { result ≡ channel_at (from_l5 (times shift_xb advance 8191)) courses_l5 (number_of signal) prn.number place place }
{
    let xa = tabled::<XA>(XA::sequence(), 0, 13, place);
    let xb = tabled::<XB>(XB::sequence(), advance as usize, 13, place);
    generators_at::plain_channel(signal, prn, place, xa, xb)
}

// The channel of a signal and a PRN at a place of the week, which has to lie below the signal's W:
// the one that so many steps lead to from where it was opened. An arm for each signal: the compiler
// names each `match` that lacks one.
pub fn at(signal: Signal, prn: Prn, place: u64) -> Channel
    requires { place < week_of (number_of signal) }
    ensures { result ≡ advance place (opened (number_of signal) prn.number) }
{
    match signal {
        Signal::Ca => at_ca(prn, place),
        Signal::P => at_p(prn, place),
        Signal::L2Cm => at_cm(prn, place),
        Signal::L2Cl => at_cl(prn, place),
        Signal::I5 => at_l5(signal, prn, advances::of_i5(prn), place),
        Signal::Q5 => at_l5(signal, prn, advances::of_q5(prn), place),
    }
}
