// Chips, the one call for C, which `gps_chips_c` exports.
#![tactic(auto)]

ghost use Rattle.std.specs.Prelude.{◌≡◌, length};
ghost use Rattle.gps_chips.specs.Chips.{of_chips, chips_answer, chips_buffer, by_the_machine, by_the_standards, AsAWindow};

use refusals::Refusal;
use signals::{Prn, Signal};

// Fills the whole buffer with the chips of a signal and a PRN from a place on, round the week. Numbers are tested whole before they are narrowed. Refused
// with 1, 2, 3, or 5 for the length, and then no byte changes.
#[tactic(auto, unfolding(crate::specs::Chips::chips_answer, crate::specs::Chips::chips_buffer))]
pub fn gps_chips(signal: u64, prn: u64, place: u64, buffer: &mut [u8]) -> Result<(), Refusal>
    ensures answer { of_chips result ≡ chips_answer signal prn place (length buffer.old) }
    ensures chips_by_the_machine { buffer.new ≡ chips_buffer by_the_machine signal prn place buffer.old }
    ensures chips_by_the_standards { buffer.new ≡ chips_buffer by_the_standards signal prn place buffer.old }
    ensures as_a_window { AsAWindow signal prn place buffer.old buffer.new }
{
    let signal = Signal::try_from(signal)?;
    let prn = Prn::try_from(prn)?;
    if signal.week() <= place {
        return Err(Refusal::Place);
    }
    if by_place::MOST_CHIPS < buffer.len() as u64 {
        return Err(Refusal::Count);
    }
    by_place::write_chips(signal, prn, place, buffer);
    Ok(())
}
