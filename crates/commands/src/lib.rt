// A line of the console, and the command in it. A line is given with its newline.
#![tactic(auto)]

ghost use Rattle.std.specs.Prelude.{◌≡◌, true, false, length, drop, MatchOption};
ghost use Rattle.numbers.specs.Numbers.{of_read};
ghost use Rattle.commands.specs.Commands.{begins, two_arguments, three_arguments, read_named, read_seek, read_step, read_window, read_chips, command_of};
ghost use Rattle.commands.specs.LongLines.{LongLines};

use machine::Channel;

// A call with its arguments, in the call's order, or help.
#[derive(Clone, Copy, Debug, PartialEq, Eq)]
pub enum Command {
    Open(u64, u64),
    Seek(Channel, u64),
    Step(Channel),
    // The third argument is the buffer's length.
    Window(Channel, u64, u64, u64),
    // The fourth argument is the buffer's length.
    Chips(u64, u64, u64, u64),
    Reading(u64, u64),
    PlaceOf(u64, u64, u64),
    Gap(u64, u64, u64),
    Help,
}

// What stands behind a word, where a text begins with it.
fn behind<'a>(text: &'a [u8], word: &[u8]) -> Option<&'a [u8]>
    ensures { MatchOption result (begins word.now text.now ≡ false) (λ rest. (begins word.now text.now ≡ true) × (rest.now ≡ drop (length word.now) text.now)) }
{
    text.strip_prefix(word)
}

// A channel's word, or `.`, up to its mark.
#[tactic(auto, unfolding(crate::specs::Commands::read_named))]
fn read_named(text: &[u8], mark: u8, last: Option<Channel>) -> Option<(Channel, &[u8])>
    ensures { of_read result ≡ read_named last mark text.now }
{
    match behind(text, &[b'.', mark]) {
        Some(rest) => Some((last?, rest)),
        None => words::read_channel(text, mark),
    }
}

// ---- the arguments of each command, given the text behind its word

fn two_arguments(text: &[u8]) -> Option<(u64, u64)>
    ensures { result ≡ two_arguments text.now }
{
    let (first, rest) = numbers::read_argument(text, b' ')?;
    let (second, _) = numbers::read_argument(rest, b'\n')?;
    Some((first, second))
}

fn three_arguments(text: &[u8]) -> Option<(u64, u64, u64)>
    ensures { result ≡ three_arguments text.now }
{
    let (first, rest) = numbers::read_argument(text, b' ')?;
    let (second, third) = two_arguments(rest)?;
    Some((first, second, third))
}

#[tactic(auto, unfolding(crate::specs::Commands::read_seek))]
fn read_seek(text: &[u8], last: Option<Channel>) -> Option<Command>
    ensures { result ≡ read_seek last text.now }
{
    let (ch, rest) = read_named(text, b' ', last)?;
    let (place, _) = numbers::read_argument(rest, b'\n')?;
    Some(Command::Seek(ch, place))
}

#[tactic(auto, unfolding(crate::specs::Commands::read_step))]
fn read_step(text: &[u8], last: Option<Channel>) -> Option<Command>
    ensures { result ≡ read_step last text.now }
{
    let (ch, _) = read_named(text, b'\n', last)?;
    Some(Command::Step(ch))
}

#[tactic(auto, unfolding(crate::specs::Commands::read_window))]
fn read_window(text: &[u8], last: Option<Channel>) -> Option<Command>
    ensures { result ≡ read_window last text.now }
{
    let (ch, rest) = read_named(text, b' ', last)?;
    let (count, bytes, from) = three_arguments(rest)?;
    Some(Command::Window(ch, count, bytes, from))
}

#[tactic(auto, unfolding(crate::specs::Commands::read_chips))]
fn read_chips(text: &[u8]) -> Option<Command>
    ensures { result ≡ read_chips text.now }
{
    let (signal, rest) = numbers::read_argument(text, b' ')?;
    let (prn, place, bytes) = three_arguments(rest)?;
    Some(Command::Chips(signal, prn, place, bytes))
}

// ---- a line

// The command in a line, if it is one. `last` is the channel that `.` stands for. Test by test, for behind each word other arguments are read: a table of words
// would have functions of two types beside them.
#[tactic(auto, unfolding(crate::specs::Commands::command_of, crate::specs::Commands::read_open, crate::specs::Commands::read_reading, crate::specs::Commands::read_place_of, crate::specs::Commands::read_gap))]
pub fn command_in(line: &[u8], last: Option<Channel>) -> Option<Command>
    ensures { result ≡ command_of last line.now }
{
    if let Some(rest) = behind(line, b"open ") {
        let (signal, prn) = two_arguments(rest)?;
        return Some(Command::Open(signal, prn));
    }
    if let Some(rest) = behind(line, b"seek ") {
        return read_seek(rest, last);
    }
    if let Some(rest) = behind(line, b"step ") {
        return read_step(rest, last);
    }
    if let Some(rest) = behind(line, b"window ") {
        return read_window(rest, last);
    }
    if let Some(rest) = behind(line, b"chips ") {
        return read_chips(rest);
    }
    if let Some(rest) = behind(line, b"reading ") {
        let (signal, place) = two_arguments(rest)?;
        return Some(Command::Reading(signal, place));
    }
    if let Some(rest) = behind(line, b"placeof ") {
        let (signal, epoch, chip) = three_arguments(rest)?;
        return Some(Command::PlaceOf(signal, epoch, chip));
    }
    if let Some(rest) = behind(line, b"gap ") {
        let (signal, a, b) = three_arguments(rest)?;
        return Some(Command::Gap(signal, a, b));
    }
    behind(line, b"help\n")?;
    Some(Command::Help)
}

// The law of long lines: no command is longer than 640 bytes.
#[tactic(auto, using(crate::proofs::LongLines::late))]
pub fn long_lines()
    ensures { LongLines }
{}
