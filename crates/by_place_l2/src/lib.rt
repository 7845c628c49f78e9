// The chips of L2 CM and L2 CL by their place in the week, IS-GPS-200 3.3.2.4: a register that
// begins anew at each end of its cycle, from the PRN's state of Table 3-IIa.
#![tactic(auto)]

ghost use Rattle.std.specs.Prelude.{◌≡◌, ◌+◌, ◌%◌, ◌<◌, ◌≤◌, ◌^◌, length, map};
ghost use Rattle.machine.specs.Signals.{week_l2, places_from};
ghost use Rattle.standard.specs.Standard.{standard};
ghost use Rattle.columns.specs.Rows.{row};
ghost use Rattle.turns.specs.Turns.{chip_from};

use starts::Prn;

// The chips of a cycle: "C_M,i(t) pattern is reset after 10230 chips", and C_L,i(t) after 767250.
const CYCLE_CM: usize = machine::LAST_CM as usize + 1;

const CYCLE_CL: usize = machine::LAST_CL as usize + 1;

// Writes the chips of L2 CM of a PRN from a place on, round the week, over a slice.
#[tactic(auto, using(crate::proofs::ByPlace::cm_in, crate::proofs::ByPlace::cm_placed))]
pub fn write_cm(prn: Prn, place: u64, out: &mut [u8])
    requires within { place < week_l2 }
    ensures { out.new ≡ map (standard 3 prn.number) (places_from week_l2 place (length out.old)) }
{
    let phase = (place % CYCLE_CM as u64) as u32;
    write_round(starts::start_cm(prn), CYCLE_CM, phase, out);
}

// Writes the chips of L2 CL of a PRN from a place on, round the week, over a slice.
#[tactic(auto, using(crate::proofs::ByPlace::cl_in, crate::proofs::ByPlace::cl_placed))]
pub fn write_cl(prn: Prn, place: u64, out: &mut [u8])
    requires within { place < week_l2 }
    ensures { out.new ≡ map (standard 4 prn.number) (places_from week_l2 place (length out.old)) }
{
    let phase = (place % CYCLE_CL as u64) as u32;
    write_round(starts::start_cl(prn), CYCLE_CL, phase, out);
}

// Writes the chips of a register from a phase of its cycle on, over a slice: a run to the cycle's
// next end, and there the start again. The end lies between runs, so that the turns of 128 chips
// need not look for it.
fn write_round(start: u32, cycle: usize, phase: u32, out: &mut [u8])
    requires start_in { start < 2 ^ 27 }
    requires cycle_in { cycle ≤ 767250 }
    requires phase_in { phase < cycle }
    ensures { out.new ≡ row (λ j. chip_from start ((phase + j) % cycle)) (length out.old) }
{
    let mut register = l2_registers::register_at(start, phase);
    let mut here = phase as usize;
    let mut written: usize = 0;
    while written < out.len() {
        let n = (cycle - here).min(out.len() - written);
        turns::write(register, &mut out[written..written + n]);
        written += n;
        register = start;
        here = 0;
    }
}
