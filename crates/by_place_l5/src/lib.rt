// I5 and Q5 by place: at each place the sum modulo 2 of the chips of XA and of XB, and XB advanced
// for the PRN (IS-GPS-705 3.3.2.2). No register is stepped.
#![tactic(auto)]

ghost use Rattle.std.specs.Prelude.{◌≡◌, ◌<◌, length, map};
ghost use Rattle.machine.specs.Signals.{week_l5, places_from};
ghost use Rattle.standard.specs.Standard.{standard};
ghost use Rattle.by_place_l5.specs.Codes.{code_l5};

use columns::Two;
use starts::Prn;

// The chips of a millisecond, after which XA and XB both begin anew.
const PERIOD: usize = 10_230;

// XA is cut short by one chip, and XB runs its natural course.
const CYCLE_XA: usize = 8_190;

const CYCLE_XB: usize = 8_191;

// Writes the chips of I5 of a PRN from a place on, round the week, over a slice: one chip a byte, 0
// or 1. A place is so many of these chips after the start of the week.
#[tactic(auto, using(crate::proofs::Sums::i5_same))]
pub fn write_i5(prn: Prn, place: u64, out: &mut [u8])
    requires within { place < week_l5 }
    ensures { out.new ≡ map (standard 5 prn.number) (places_from week_l5 place (length out.old)) }
{
    write(advances::of_i5(prn), place, out);
}

// The same of Q5.
#[tactic(auto, using(crate::proofs::Sums::q5_same))]
pub fn write_q5(prn: Prn, place: u64, out: &mut [u8])
    requires within { place < week_l5 }
    ensures { out.new ≡ map (standard 6 prn.number) (places_from week_l5 place (length out.old)) }
{
    write(advances::of_q5(prn), place, out);
}

// Writes them for an XB that is advanced by so many chips: up to the end of the period, and then
// period by period. In its cycle from all ones XB is as many chips on as it is advanced when a period
// begins. A week is a whole number of periods, so that its end is the end of one.
fn write(advance: u32, place: u64, out: &mut [u8])
    requires in_cycle { advance < 8191 }
    requires within { place < week_l5 }
    ensures { out.new ≡ map (code_l5 advance) (places_from week_l5 place (length out.old)) }
{
    let mut here = place as usize % PERIOD;
    let mut written = 0;
    while written < out.len() {
        let n = (PERIOD - here).min(out.len() - written);
        let from = Two {
            a: here % CYCLE_XA,
            b: (advance as usize + here) % CYCLE_XB,
            cycle_a: CYCLE_XA,
            cycle_b: CYCLE_XB,
        };
        let run = &mut out[written..written + n];
        columns::write_two(columns::xa(), columns::xb(), from, run);
        written += n;
        here = (here + n) % PERIOD;
    }
}
