// The chips as the standards write them, and that the stepped machine gives them: laws, each of them promised by a function that does nothing.
#![tactic(auto)]

ghost use Rattle.standard.specs.Laws.{SameRegisters, EveryChip, EveryWindow};

// The registers that the standards' polynomials, vectors and tables describe are those of the machine.
#[tactic(auto, using(crate::proofs::SameRegisters::same_registers))]
pub fn same_registers()
    ensures { SameRegisters }
{}

// Each chip of each signal, PRN 1 to 37, at each place of the week is that of IS-GPS-200 or IS-GPS-705.
#[tactic(auto, using(crate::proofs::EveryChip::every_chip))]
pub fn every_chip()
    ensures { EveryChip }
{}

// And so is each of any number of chips from any place on, round the week.
#[tactic(auto, using(crate::proofs::EveryChip::every_window))]
pub fn every_window()
    ensures { EveryWindow }
{}
