// C/A by place: at each place the sum modulo 2 of the chips of G1 and of G2, and G2 delayed for the
// PRN (IS-GPS-200 3.3.2.3). No register is stepped.
#![tactic(auto)]

ghost use Rattle.std.specs.Prelude.{◌≡◌, ◌<◌, length, map};
ghost use Rattle.machine.specs.Signals.{week_ca, places_from};
ghost use Rattle.standard.specs.Standard.{standard};

use columns::Two;
use starts::Prn;

mod delays;

// The chips after which G1 and G2 come again.
const CYCLE: usize = machine::LAST_G as usize + 1;

// Writes the chips of C/A of a PRN from a place on, round the week, over a slice: one chip a byte, 0
// or 1. A place is so many of these chips after the start of the week. To go back by the delay, round
// the cycle, is to go on by what the delay leaves of the cycle. A week is a whole number of cycles, so
// that its end is no event.
pub fn write(prn: Prn, place: u64, out: &mut [u8])
    requires within { place < week_ca }
    ensures { out.new ≡ map (standard 1 prn.number) (places_from week_ca place (length out.old)) }
{
    let here = place as usize;
    let delay = delays::of(prn) as usize;
    let from = Two {
        a: here % CYCLE,
        b: (here + (CYCLE - delay)) % CYCLE,
        cycle_a: CYCLE,
        cycle_b: CYCLE,
    };
    columns::write_two(columns::g1(), columns::g2(), from, out);
}
