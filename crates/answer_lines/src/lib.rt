// The parts of an answer of the console: each appends a line of text, or the end of one, behind what stands in the vector that is lent for it.
#![tactic(auto)]

ghost use Rattle.std.specs.Prelude.{◌≡◌, [], ◌++◌, ◌≤◌, ◌+◌, ltb, length, MatchResult};
ghost use Rattle.arrayvec.specs.ArrayVec.{array_vec_len};
ghost use Rattle.refusals.specs.Refusal.{number_of};
ghost use Rattle.numbers.specs.Numbers.{number_word};
ghost use Rattle.words.specs.Words.{channel_word};
ghost use Rattle.answer_lines.specs.Lines.{ok, chips_word, signed_word, answered_line, error_line, most_length, handed_back};

use arrayvec::ArrayVec;
use machine::Channel;
use refusals::Refusal;

// The longest buffer that a line may ask for.
pub const MOST_LENGTH: usize = 131_072;

// Every answer fits in so many bytes: the longest has a channel and 65,536 chips. Who appends one asks for them in a clause: a type that carried the room
// would borrow the vector and be used up by each thing appended.
pub const ROOM: usize = 66_048;

// ---- the words of an answer

// Chips, a digit for each, or `-` for none, and a newline.
fn append_chips<const N: usize>(chips: &[u8], out: &mut ArrayVec<u8, N>)
    requires { array_vec_len out.old + length chips.now + 2 ≤ N }
    ensures { out.new.items ≡ out.old.items ++ chips_word chips.now }
{
    if chips.is_empty() {
        texts::append(b"-\n", out);
    } else {
        texts::append_chips(chips, out);
        out.push(b'\n');
    }
}

// The next six differ in the words behind `ok`. One function would be handed them as a list of an enum of four kinds (a channel, a number, one with its sign,
// chips), whose text and room its clauses would state for each kind: longer than the six.

// `ok CH`: a channel of any field values.
pub fn ok_channel<const N: usize>(ch: Channel, out: &mut ArrayVec<u8, N>)
    requires { array_vec_len out.old + ROOM ≤ N }
    ensures { out.new.items ≡ out.old.items ++ ok (channel_word 10 ch) }
{
    texts::append(b"ok ", out);
    words::put_channel(ch, b'\n', out);
}

// `ok N CH`: any number, and a channel of any field values.
pub fn ok_number_channel<const N: usize>(n: u64, ch: Channel, out: &mut ArrayVec<u8, N>)
    requires { array_vec_len out.old + ROOM ≤ N }
    ensures { out.new.items ≡ out.old.items ++ ok (number_word 32 n ++ channel_word 10 ch) }
{
    texts::append(b"ok ", out);
    numbers::put_number(n, b' ', out);
    words::put_channel(ch, b'\n', out);
}

// `ok CH CHIPS`: a channel of any field values, and as many chips as there is room for, `-` where there are none.
pub fn ok_channel_chips<const N: usize>(ch: Channel, chips: &[u8], out: &mut ArrayVec<u8, N>)
    requires { array_vec_len out.old + length chips.now + 450 ≤ N }
    ensures { out.new.items ≡ out.old.items ++ ok (channel_word 32 ch ++ chips_word chips.now) }
{
    texts::append(b"ok ", out);
    words::put_channel(ch, b' ', out);
    append_chips(chips, out);
}

// `ok N`: any number.
pub fn ok_number<const N: usize>(n: u64, out: &mut ArrayVec<u8, N>)
    requires { array_vec_len out.old + ROOM ≤ N }
    ensures { out.new.items ≡ out.old.items ++ ok (number_word 10 n) }
{
    texts::append(b"ok ", out);
    numbers::put_number(n, b'\n', out);
}

// `ok N M`: any two numbers.
pub fn ok_numbers<const N: usize>(n: u64, m: u64, out: &mut ArrayVec<u8, N>)
    requires { array_vec_len out.old + ROOM ≤ N }
    ensures { out.new.items ≡ out.old.items ++ ok (number_word 32 n ++ number_word 10 m) }
{
    texts::append(b"ok ", out);
    numbers::put_number(n, b' ', out);
    numbers::put_number(m, b'\n', out);
}

// `ok N`: any number of 64 bits with its sign, a `-` or nothing.
pub fn ok_signed<const N: usize>(n: i64, out: &mut ArrayVec<u8, N>)
    requires { array_vec_len out.old + ROOM ≤ N }
    ensures { out.new.items ≡ out.old.items ++ ok (signed_word n) }
{
    texts::append(b"ok ", out);
    if n < 0 {
        out.push(b'-');
    }
    numbers::put_number(places::size(n), b'\n', out);
}

// `answer N CHIPS`: what the call Chips answered. With its chips N is 0; a refused call has its number there, and no chips.
pub fn answer_chips<const N: usize>(answered: Result<&[u8], Refusal>, out: &mut ArrayVec<u8, N>)
    requires { MatchResult answered (λ chips. array_vec_len out.old + length chips.now + 30 ≤ N) (λ _. array_vec_len out.old + 30 ≤ N) }
    ensures { MatchResult answered.entry (λ chips. out.new.items ≡ out.old.items ++ answered_line 0 chips.now)
        (λ e. out.new.items ≡ out.old.items ++ answered_line (number_of e) []) }
{
    texts::append(b"answer ", out);
    match answered {
        Ok(chips) => {
            numbers::put_number(0, b' ', out);
            append_chips(chips, out);
        }
        Err(refusal) => {
            numbers::put_number(u64::from(refusal.number()), b' ', out);
            append_chips(b"", out);
        }
    }
}

// ---- what `.` stands for after an answer

// A call has handed back a channel.
pub fn hand_back(last: &mut Option<Channel>, ch: Channel)
    ensures { last.new ≡ handed_back last.old ch }
{
    *last = last.map(|_| ch);
}

// ---- what is no call

// A line that is no command, or asks for too long a buffer.
pub fn error<const N: usize>(out: &mut ArrayVec<u8, N>)
    requires { array_vec_len out.old + ROOM ≤ N }
    ensures { out.new.items ≡ out.old.items ++ error_line }
{
    texts::append(b"error\n", out);
}

// Whether a line asks for a buffer of more than 131,072 bytes, longer than any.
pub fn too_long(bytes: u64) -> bool
    ensures { result ≡ ltb most_length bytes }
{
    (MOST_LENGTH as u64) < bytes
}
