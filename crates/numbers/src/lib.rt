// Numbers as words of text: written, and read back. Behind a word stands a mark. Room is asked for, and text appended, as `texts` says.
#![tactic(auto)]

ghost use Rattle.std.specs.Prelude.{◌≡◌, ◌≤◌, ◌+◌, ◌++◌, false, IfSome, drop};
ghost use Rattle.arrayvec.specs.ArrayVec.{array_vec_len};
ghost use Rattle.fields.specs.Fields.{digit};
ghost use Rattle.numbers.specs.Numbers.{number_word, most64, of_read, with_digit, digits_on, read_number, IsReadAs, unpadded, read_argument};

use arrayvec::ArrayVec;

// ---- written

// A number and the mark behind it, put behind what stands there: 21 bytes at most. Where the mark is no digit, what is put is read back as that number.
#[tactic(auto, using(crate::proofs::Numbers::word_put, crate::proofs::Numbers::number_short, crate::proofs::Numbers::put_read))]
pub fn put_number<const N: usize>(n: u64, mark: u8, out: &mut ArrayVec<u8, N>)
    requires room { array_vec_len out.old + 21 ≤ N }
    ensures appended { out.new.items ≡ out.old.items ++ number_word mark n }
    ensures short { array_vec_len out.new ≤ array_vec_len out.old + 21 }
    ensures fits { n ≤ most64 }
    ensures read_back { digit mark ≡ false → IsReadAs mark n (drop (array_vec_len out.old) out.new.items) }
{
    let mut digits = itoa::Buffer::new();
    texts::append(digits.format(n).as_bytes(), out);
    out.push(mark);
}

// ---- read, at the front of a text: the value, and what stands behind its mark

// The number with a digit more, where it may have one.
fn with_digit(n: u64, byte: u8, most: u64) -> Option<u64>
    ensures { result ≡ with_digit most n byte }
{
    if n == 0 || !fields::is_digit(byte) {
        return None;
    }
    let longer = n.checked_mul(10)?.checked_add(fields::digit_value(byte))?;
    if longer <= most { Some(longer) } else { None }
}

// The digits behind those of `first`, up to the mark. Apart from `number` of `fields`, which is handed a whole field: here the text goes on behind the number.
#[tactic(auto, using(crate::proofs::Bytes::on_mark, crate::proofs::Bytes::on_more))]
fn read_digits(text: &[u8], first: u64, most: u64, mark: u8) -> Option<(u64, &[u8])>
    requires { first ≤ most }
    ensures value { of_read result ≡ digits_on most mark first text.now }
    ensures at_most { IfSome result (λ p. p.0 ≤ most) }
{
    let mut n = first;
    for (i, byte) in text.iter().enumerate() {
        if *byte == mark {
            return Some((n, &text[i + 1..]));
        }
        n = with_digit(n, *byte, most)?;
    }
    None
}

// A number of at most `most`, up to its mark. What is read as a number is the word that `put_number` writes of it.
#[tactic(auto, using(crate::proofs::Bytes::nothing_there, crate::proofs::Bytes::no_first, crate::proofs::Bytes::first_digit))]
pub fn read_number(text: &[u8], most: u64, mark: u8) -> Option<(u64, &[u8])>
    requires { 9 ≤ most }
    ensures value { of_read result ≡ read_number most mark text.now }
    ensures at_most { IfSome result (λ p. p.0 ≤ most) }
    ensures back { IfSome result (λ p. text.now ≡ number_word mark p.0 ++ p.1.now) }
{
    match text {
        [first, rest @ ..] if fields::is_digit(*first) => {
            read_digits(rest, fields::digit_value(*first), most, mark)
        }
        _ => None,
    }
}

// What stands behind a number's leading zeros, of which up to 19 are passed over. Apart from `without_zeros` of `fields`, as above.
#[tactic(auto, using(crate::proofs::Bytes::none_left, crate::proofs::Bytes::too_short, crate::proofs::Bytes::no_zero, crate::proofs::Bytes::no_digit, crate::proofs::Bytes::one_passed))]
fn past_zeros(text: &[u8]) -> &[u8]
    ensures { result.now ≡ unpadded 19 text.now }
{
    let mut rest = text;
    for _ in 0..19_u32 {
        match rest {
            [b'0', next, ..] if fields::is_digit(*next) => rest = &rest[1..],
            _ => return rest,
        }
    }
    rest
}

// A number of 64 bits as an argument of a command, up to its mark.
#[tactic(auto, unfolding(crate::specs::Numbers::read_argument))]
pub fn read_argument(text: &[u8], mark: u8) -> Option<(u64, &[u8])>
    ensures { of_read result ≡ read_argument mark text.now }
{
    read_number(past_zeros(text), u64::MAX, mark)
}
