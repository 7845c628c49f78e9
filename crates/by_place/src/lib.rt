// Chips by place: those of any signal and PRN from a place of the week on, written over a slice, by
// the signal's own crate. No channel is needed.
#![tactic(auto)]

ghost use Rattle.std.specs.Prelude.{◌≡◌, ◌<◌, length, map};
ghost use Rattle.machine.specs.Machine.{advance, opened, chips};
ghost use Rattle.machine.specs.Signals.{week_of, places_from};
ghost use Rattle.signals.specs.Signals.{number_of};
ghost use Rattle.standard.specs.Standard.{standard};

use signals::{Prn, Signal};

// The most chips that one call writes.
pub const MOST_CHIPS: u64 = 65_536;

// Writes the chips of a signal and a PRN from a place on, round the week, over a slice: those of
// the standards, and so those that the machine gives there. The place has to lie below the signal's
// W. An arm for each signal: the compiler names each `match` that lacks one.
pub fn write_chips(signal: Signal, prn: Prn, place: u64, out: &mut [u8])
    requires { place < week_of (number_of signal) }
    ensures by_the_standards { out.new ≡ map (standard (number_of signal) prn.number) (places_from (week_of (number_of signal)) place (length out.old)) }
    ensures by_the_machine { out.new ≡ chips (length out.old) (advance place (opened (number_of signal) prn.number)) }
{
    match signal {
        Signal::Ca => by_place_ca::write(prn, place, out),
        Signal::P => by_place_p::write(prn, place, out),
        Signal::L2Cm => by_place_l2::write_cm(prn, place, out),
        Signal::L2Cl => by_place_l2::write_cl(prn, place, out),
        Signal::I5 => by_place_l5::write_i5(prn, place, out),
        Signal::Q5 => by_place_l5::write_q5(prn, place, out),
    }
}
