// Text: bytes as they are, chips, a refusal. It is put behind what stands in a vector of fixed room. Functions and no `Display`, here and in the crates above: a
// contract says every byte that is appended, and who asks for the room in a clause has no error to handle. A type that carried the room would borrow the vector.
#![tactic(auto)]

ghost use Rattle.std.specs.Prelude.{◌≡◌, map, ◌≤◌, ◌+◌, ◌++◌, length};
ghost use Rattle.arrayvec.specs.ArrayVec.{array_vec_len};
ghost use Rattle.refusals.specs.Refusal.{number_of};
ghost use Rattle.texts.specs.Texts.{refused_line, chip_digit};

use arrayvec::ArrayVec;
use refusals::Refusal;

fn chip_digit(chip: u8) -> u8
    ensures { result ≡ chip_digit chip }
{
    if chip == 0 { b'0' } else { b'1' }
}

// Chips made a digit each, where they stand.
fn to_digits(chips: &mut [u8])
    ensures { chips.new ≡ map chip_digit chips.old }
{
    for chip in chips.iter_mut() {
        *chip = chip_digit(*chip);
    }
}

// Text behind what stands there.
pub fn append<const N: usize>(text: &[u8], out: &mut ArrayVec<u8, N>)
    requires room { array_vec_len out.old + length text.now ≤ N }
    ensures { out.new.items ≡ out.old.items ++ text.now }
{
    // It can't fail: the clause asks for the room.
    let _fits = out.try_extend_from_slice(text);
}

// Chips behind what stands there, a digit for each.
pub fn append_chips<const N: usize>(chips: &[u8], out: &mut ArrayVec<u8, N>)
    requires room { array_vec_len out.old + length chips.now ≤ N }
    ensures { out.new.items ≡ out.old.items ++ map chip_digit chips.now }
{
    let from = out.len();
    append(chips, out);
    to_digits(&mut out.as_mut_slice()[from..]);
}

// The reply `refused N` behind what stands there, of any number of one digit.
pub fn append_refused_number<const N: usize>(n: u32, out: &mut ArrayVec<u8, N>)
    requires digit { n ≤ 9 }
    requires room { array_vec_len out.old + 10 ≤ N }
    ensures { out.new.items ≡ out.old.items ++ refused_line n }
{
    append(b"refused ", out);
    out.push(b'0' + n as u8);
    out.push(b'\n');
}

// The same of a refusal.
pub fn append_refused<const N: usize>(refusal: Refusal, out: &mut ArrayVec<u8, N>)
    requires room { array_vec_len out.old + 10 ≤ N }
    ensures { out.new.items ≡ out.old.items ++ refused_line (number_of refusal) }
{
    append_refused_number(refusal.number(), out);
}
