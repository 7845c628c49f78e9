// Windows of any signal: the chips of so many steps of a channel in range, written to the front of
// a slice, and the channel so many steps on.
#![tactic(auto)]

ghost use Rattle.std.specs.Prelude.{◌≡◌, ◌↔◌, IsTrue, ◌++◌, ◌<◌, ◌≤◌, length, drop};
ghost use Rattle.machine.specs.Machine.{advance, opened, chips};
ghost use Rattle.machine.specs.Ranged.{Ranged};
ghost use Rattle.machine.specs.Signals.{week_of};
ghost use Rattle.signals.specs.Signals.{number_of};
ghost use Rattle.stepped.specs.Inner.{WindowFrom};

use machine::Channel;
use signals::{Prn, Signal};

// Whether two channels are the same, field by field.
fn same(a: Channel, b: Channel) -> bool
    ensures { IsTrue result ↔ (a ≡ b) }
{
    a == b
}

// The window of the machine's own channel at a place: its chips are those by place, and the channel
// after them is the one at the place so many chips on.
fn write_by_place(signal: Signal, prn: Prn, place: u64, out: &mut [u8]) -> Channel
    requires { place < week_of (number_of signal) }
    ensures { WindowFrom (advance place (opened (number_of signal) prn.number)) out.old out.new result }
{
    let next = (place + out.len() as u64) % signal.week();
    by_place::write_chips(signal, prn, place, out);
    channels_at::at(signal, prn, next)
}

// Writes the chips of `count` steps from a channel in range to the front of a slice, and gives the
// channel after them. Where the channel is the machine's at its place, every field compared, and so
// is one that calls led to, the chips are those by place. Any other is stepped. That it is in range
// is a clause: an `InRange` would be made of the channel that a call gives, only to be taken apart
// here. A count beside the slice: by a rule of the project `window` lends its buffer from `at`
// onward, and so up to its end.
#[inline(always)]
pub fn write_chips(ch: Channel, count: usize, out: &mut [u8]) -> Channel
    requires ranged { Ranged ch }
    requires count_in_bounds { count ≤ length out.old }
    ensures { (result ≡ advance count ch) × (out.new ≡ chips count ch ++ drop count out.old) }
{
    let part = &mut out[..count];
    let signal = Signal::of(ch.signal);
    let prn = Prn { number: ch.prn };
    if same(ch, channels_at::at(signal, prn, ch.place)) {
        write_by_place(signal, prn, ch.place, part)
    } else {
        stepped::write_chips(ch, part)
    }
}
