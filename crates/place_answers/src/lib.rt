// The calls that hand back no channel as the console makes them: each appends its reply as a line of text, and asks for `ROOM`, as `answer_lines` says.
#![tactic(auto)]

ghost use Rattle.std.specs.Prelude.{◌≡◌, ◌≤◌, ◌+◌, ◌++◌, length};
ghost use Rattle.arrayvec.specs.ArrayVec.{array_vec_len};
ghost use Rattle.answer_lines.specs.Lines.{most_length};
ghost use Rattle.places.specs.Places.{reading_reply, place_of_reply, gap_reply};
ghost use Rattle.place_answers.specs.PlaceAnswers.{chips_line, reading_line, place_of_line, gap_line, chips_answered};

use answer_lines::{MOST_LENGTH, ROOM};
use arrayvec::ArrayVec;

fn chips_on<const N: usize>(
    signal: u64,
    prn: u64,
    place: u64,
    buffer: &mut [u8],
    out: &mut ArrayVec<u8, N>,
)
    requires { array_vec_len out.old + ROOM ≤ N }
    ensures { out.new.items ≡ out.old.items ++ chips_line signal prn place (length buffer.old) }
{
    match gps_chips::gps_chips(signal, prn, place, buffer) {
        Ok(()) => answer_lines::answer_chips(Ok(buffer), out),
        Err(refusal) => answer_lines::answer_chips(Err(refusal), out),
    }
}

// Chips on a buffer of so many bytes, the first of those that are lent: an answer shows what the call
// wrote, so it plays no part what stands there, and nothing is cleared.
pub fn chips_in<const N: usize>(
    signal: u64,
    prn: u64,
    place: u64,
    bytes: u64,
    lent: &mut [u8],
    out: &mut ArrayVec<u8, N>,
)
    requires room { array_vec_len out.old + ROOM ≤ N }
    requires lent { most_length ≤ length lent.old }
    ensures { out.new.items ≡ out.old.items ++ chips_answered signal prn place bytes }
{
    if answer_lines::too_long(bytes) {
        return answer_lines::error(out);
    }
    chips_on(signal, prn, place, &mut lent[..bytes as usize], out);
}

// The same on a buffer of its own, of zeros: for who has none to lend.
pub fn chips<const N: usize>(
    signal: u64,
    prn: u64,
    place: u64,
    bytes: u64,
    out: &mut ArrayVec<u8, N>,
)
    requires { array_vec_len out.old + ROOM ≤ N }
    ensures { out.new.items ≡ out.old.items ++ chips_answered signal prn place bytes }
{
    chips_in(signal, prn, place, bytes, &mut [0u8; MOST_LENGTH], out);
}

// The next three are of one shape: each names its call and its line, which one for all would be handed.

// The epoch of 1.5 seconds at a place of a signal's week, and the chip in it: `ok EPOCH CHIP`, or the refusal of the signal or the place. Any two numbers.
pub fn reading<const N: usize>(signal: u64, place: u64, out: &mut ArrayVec<u8, N>)
    requires { array_vec_len out.old + ROOM ≤ N }
    ensures { out.new.items ≡ out.old.items ++ reading_line (reading_reply signal place) }
{
    match places::reading(signal, place) {
        Ok(reading) => answer_lines::ok_numbers(reading.epoch, reading.chip, out),
        Err(refusal) => texts::append_refused(refusal, out),
    }
}

// The place of a chip of an epoch: `ok PLACE`, or the refusal of the signal, the epoch or the chip. Any three numbers.
pub fn place_of<const N: usize>(signal: u64, epoch: u64, chip: u64, out: &mut ArrayVec<u8, N>)
    requires { array_vec_len out.old + ROOM ≤ N }
    ensures { out.new.items ≡ out.old.items ++ place_of_line (place_of_reply signal epoch chip) }
{
    match places::place_of(signal, epoch, chip) {
        Ok(place) => answer_lines::ok_number(place, out),
        Err(refusal) => texts::append_refused(refusal, out),
    }
}

// The chips from place a to place b, the shorter way round the week: `ok SIGNED`, or the refusal of the signal or a place. Any three numbers.
pub fn gap<const N: usize>(signal: u64, a: u64, b: u64, out: &mut ArrayVec<u8, N>)
    requires { array_vec_len out.old + ROOM ≤ N }
    ensures { out.new.items ≡ out.old.items ++ gap_line (gap_reply signal a b) }
{
    match places::gap(signal, a, b) {
        Ok(chips) => answer_lines::ok_signed(chips, out),
        Err(refusal) => texts::append_refused(refusal, out),
    }
}
