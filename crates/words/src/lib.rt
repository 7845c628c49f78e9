// Channels as words of text: written, and read back.
#![tactic(auto)]

ghost use Rattle.std.specs.Prelude.{◌≡◌, ◌≤◌, ◌+◌, ◌++◌, false, IfSome, drop};
ghost use Rattle.arrayvec.specs.ArrayVec.{array_vec_len};
ghost use Rattle.fields.specs.Fields.{digit};
ghost use Rattle.numbers.specs.Numbers.{number_word, of_read, most32, read_number};
ghost use Rattle.words.specs.Words.{mode_word, generator_word, generators_word, channel_word, ModeFits, GeneratorFits, read_running, read_held, read_mode, read_generator, read_channel, IsReadAs};

use arrayvec::ArrayVec;
use machine::{Channel, Generator, Mode};

// ---- words written: each behind what stands there, and its mark behind it. Room is asked for, and text appended, as `texts` says. `fits` says of the fields
// what their types do: they hold no number that their reader would refuse.

// A number that a field of 32 bits holds.
fn put_32<const N: usize>(n: u32, mark: u8, out: &mut ArrayVec<u8, N>)
    requires room { array_vec_len out.old + 21 ≤ N }
    ensures appended { out.new.items ≡ out.old.items ++ number_word mark n }
    ensures short { array_vec_len out.new ≤ array_vec_len out.old + 21 }
    ensures fits { n ≤ most32 }
{
    numbers::put_number(u64::from(n), mark, out);
}

#[tactic(auto, using(crate::proofs::Writing::running_put, crate::proofs::Writing::held_put))]
fn put_mode<const N: usize>(mode: Mode, mark: u8, out: &mut ArrayVec<u8, N>)
    requires room { array_vec_len out.old + 22 ≤ N }
    ensures appended { out.new.items ≡ out.old.items ++ mode_word mark mode }
    ensures short { array_vec_len out.new ≤ array_vec_len out.old + 22 }
    ensures fits { ModeFits mode }
{
    match mode {
        Mode::Running => {
            out.push(b'R');
            out.push(mark);
        }
        Mode::Held(n) => {
            out.push(b'H');
            put_32(n, mark, out);
        }
    }
}

#[tactic(auto, using(crate::proofs::Writing::generator_put, crate::proofs::Writing::generator_fits))]
fn put_generator<const N: usize>(g: Generator, mark: u8, out: &mut ArrayVec<u8, N>)
    requires room { array_vec_len out.old + 85 ≤ N }
    ensures appended { out.new.items ≡ out.old.items ++ generator_word mark g }
    ensures short { array_vec_len out.new ≤ array_vec_len out.old + 85 }
    ensures fits { GeneratorFits g }
{
    put_32(g.register, b'.', out);
    put_32(g.phase, b'.', out);
    put_32(g.cycles, b'.', out);
    put_mode(g.mode, mark, out);
}

#[tactic(auto, using(crate::proofs::Writing::generators_put))]
fn put_generators<const N: usize>(ch: Channel, mark: u8, out: &mut ArrayVec<u8, N>)
    requires room { array_vec_len out.old + 340 ≤ N }
    ensures appended { out.new.items ≡ out.old.items ++ generators_word mark ch }
    ensures short { array_vec_len out.new ≤ array_vec_len out.old + 340 }
    ensures fits { GeneratorFits ch.first × GeneratorFits ch.second × GeneratorFits ch.third × GeneratorFits ch.fourth }
{
    put_generator(ch.first, b'/', out);
    put_generator(ch.second, b'/', out);
    put_generator(ch.third, b'/', out);
    put_generator(ch.fourth, mark, out);
}

// A channel of any field values, `SIGNAL/PRN/PLACE/EPOCH/DELAY/A/B/C/D`: 445 bytes at most, its mark among them. Where that is no digit, what is put is read back.
#[tactic(auto, using(crate::proofs::Writing::channel_put, crate::proofs::Writing::channel_fits, crate::proofs::RoundTrip::put_read))]
pub fn put_channel<const N: usize>(ch: Channel, mark: u8, out: &mut ArrayVec<u8, N>)
    requires room { array_vec_len out.old + 445 ≤ N }
    ensures appended { out.new.items ≡ out.old.items ++ channel_word mark ch }
    ensures short { array_vec_len out.new ≤ array_vec_len out.old + 445 }
    ensures read_back { digit mark ≡ false → IsReadAs mark ch (drop (array_vec_len out.old) out.new.items) }
{
    put_32(ch.signal, b'/', out);
    put_32(ch.prn, b'/', out);
    numbers::put_number(ch.place, b'/', out);
    put_32(ch.epoch, b'/', out);
    numbers::put_number(ch.delay, b'/', out);
    put_generators(ch, mark, out);
}

// ---- words read, at the front of a text: the value, and what stands behind its mark

// A number that a field of 32 bits holds.
fn read_32(text: &[u8], mark: u8) -> Option<(u32, &[u8])>
    ensures { of_read result ≡ read_number most32 mark text.now }
{
    let (n, rest) = numbers::read_number(text, u64::from(u32::MAX), mark)?;
    Some((n as u32, rest))
}

// The mark behind `R`.
#[tactic(auto, using(crate::proofs::Modes::no_running, crate::proofs::Modes::other_mark, crate::proofs::Modes::runs))]
fn read_running(text: &[u8], mark: u8) -> Option<(Mode, &[u8])>
    ensures { of_read result ≡ read_running mark text.now }
{
    match text {
        [byte, rest @ ..] if *byte == mark => Some((Mode::Running, rest)),
        _ => None,
    }
}

// The number behind `H`.
fn read_held(text: &[u8], mark: u8) -> Option<(Mode, &[u8])>
    ensures { of_read result ≡ read_held mark text.now }
{
    let (n, rest) = read_32(text, mark)?;
    Some((Mode::Held(n), rest))
}

#[tactic(auto, using(crate::proofs::Modes::no_mode, crate::proofs::Modes::is_running, crate::proofs::Modes::is_held, crate::proofs::Modes::other_mode))]
fn read_mode(text: &[u8], mark: u8) -> Option<(Mode, &[u8])>
    ensures { of_read result ≡ read_mode mark text.now }
{
    match text {
        [b'R', rest @ ..] => read_running(rest, mark),
        [b'H', rest @ ..] => read_held(rest, mark),
        _ => None,
    }
}

#[tactic(auto, unfolding(crate::specs::Words::read_generator))]
fn read_generator(text: &[u8], mark: u8) -> Option<(Generator, &[u8])>
    ensures { of_read result ≡ read_generator mark text.now }
{
    let (register, rest) = read_32(text, b'.')?;
    let (phase, rest) = read_32(rest, b'.')?;
    let (cycles, rest) = read_32(rest, b'.')?;
    let (mode, rest) = read_mode(rest, mark)?;
    let generator = Generator {
        register,
        phase,
        cycles,
        mode,
    };
    Some((generator, rest))
}

// A channel of any field values, up to its mark. What is read as a channel is the word that `put_channel` writes of it.
#[tactic(auto, using(crate::proofs::RoundTrip::read_back), unfolding(crate::specs::Words::read_channel))]
pub fn read_channel(text: &[u8], mark: u8) -> Option<(Channel, &[u8])>
    ensures value { of_read result ≡ read_channel mark text.now }
    ensures back { IfSome result (λ p. text.now ≡ channel_word mark p.0 ++ p.1.now) }
{
    let (signal, rest) = read_32(text, b'/')?;
    let (prn, rest) = read_32(rest, b'/')?;
    let (place, rest) = numbers::read_number(rest, u64::MAX, b'/')?;
    let (epoch, rest) = read_32(rest, b'/')?;
    let (delay, rest) = numbers::read_number(rest, u64::MAX, b'/')?;
    let (first, rest) = read_generator(rest, b'/')?;
    let (second, rest) = read_generator(rest, b'/')?;
    let (third, rest) = read_generator(rest, b'/')?;
    let (fourth, rest) = read_generator(rest, mark)?;
    let channel = Channel {
        signal,
        prn,
        place,
        epoch,
        delay,
        first,
        second,
        third,
        fourth,
    };
    Some((channel, rest))
}
