// Windows step by step: the chips of so many steps of a channel in range, written over a slice, and
// the channel so many steps on. What a PRN decides is looked up once a window and not once a chip,
// and stands in the value of its family. So channels are written that are not the machine's at
// their place.
#![tactic(auto)]

ghost use Rattle.machine.specs.Ranged.{Ranged};
ghost use Rattle.signals.specs.Signals.{number_of};
ghost use Rattle.stepped.specs.Inner.{Of, WindowFrom};

use machine::Channel;
use signals::{Prn, Signal};

mod families;

use families::{Ca, Cl, Cm, Family, L5, P};

// Writes the chips of a channel of a family over a slice, and gives the channel after them.
fn write<F: Family>(family: F, ch: Channel, out: &mut [u8]) -> Channel
    requires of { Of (F.signal family) ch }
    requires decided { F.decided family ch.prn }
    ensures { WindowFrom ch out.old out.new result }
{
    let mut here = ch;
    for chip in out.iter_mut() {
        *chip = family.chip(here);
        here = family.step(here);
    }
    here
}

// Writes the chips of a channel in range, of any signal, over a slice, and gives the channel after
// them. That it is in range is a clause: an `InRange` would be made of the channel that a call
// gives, only to be taken apart here. An arm for each signal: the compiler names each `match` that
// lacks one.
#[inline(always)]
pub fn write_chips(ch: Channel, out: &mut [u8]) -> Channel
    requires { Ranged ch }
    ensures { WindowFrom ch out.old out.new result }
{
    let prn = Prn { number: ch.prn };
    match Signal::of(ch.signal) {
        Signal::Ca => {
            let stages = starts::stages_ca(prn);
            write(Ca { stages }, ch, out)
        }
        Signal::P => write(P, ch, out),
        Signal::L2Cm => write(Cm::new(starts::start_cm(prn)), ch, out),
        Signal::L2Cl => write(Cl::new(starts::start_cl(prn)), ch, out),
        Signal::I5 => {
            let start = starts::start_i5(prn);
            write(L5 { start }, ch, out)
        }
        Signal::Q5 => {
            let start = starts::start_q5(prn);
            write(L5 { start }, ch, out)
        }
    }
}
