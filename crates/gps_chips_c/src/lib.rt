// The call for C: `include/gps_chips.h` declares it. The archive that `make lib` writes has no other global symbol and needs none.
#![tactic(auto)]

ghost use Rattle.std.specs.Prelude.{◌≡◌, length};
ghost use Rattle.gps_chips.specs.Chips.{chips_answer, chips_buffer, by_the_machine, by_the_standards, AsAWindow};

// Fills the whole buffer with the chips of a signal and a PRN from a place on, round the week. Answers 0, or the refusal: 1, 2, 3, or 5 for the
// length. Refused, no byte changes. A number and no `Result`: so C's header declares it.
#[unsafe(no_mangle)]
pub extern "C" fn gps_chips(signal: u64, prn: u64, place: u64, buffer: &mut [u8]) -> u32
    ensures answer { result ≡ chips_answer signal prn place (length buffer.old) }
    ensures chips_by_the_machine { buffer.new ≡ chips_buffer by_the_machine signal prn place buffer.old }
    ensures chips_by_the_standards { buffer.new ≡ chips_buffer by_the_standards signal prn place buffer.old }
    ensures as_a_window { AsAWindow signal prn place buffer.old buffer.new }
{
    match gps_chips::gps_chips(signal, prn, place, buffer) {
        Ok(()) => 0,
        Err(refusal) => refusal.number(),
    }
}
