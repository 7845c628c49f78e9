// A session at the console: lines, fed in chunks of any size, and their answers. From line to line it keeps the channel that `.` stands for.
#![tactic(auto)]

ghost use Rattle.std.specs.Prelude.{◌≡◌, ◌++◌, ◌+◌, ◌≤◌, length, take};
ghost use Rattle.arrayvec.specs.ArrayVec.{array_vec_len};
ghost use Rattle.commands.specs.Commands.{command_of};
ghost use Rattle.sessions.specs.Sessions.{Talk as Standing, answer_of, last_of, talk, course, EverySession};
ghost use Rattle.sessions.specs.Scripts.{EveryScript, StepAsks};
ghost use Rattle.sessions.specs.Laws.{laws};
ghost use Rattle.answer_lines.specs.Lines.{most_length};
ghost use Rattle.answer_lines.specs.declared.TheConstants.{ROOM as longest};

use answer_lines::{MOST_LENGTH, ROOM};
use arrayvec::ArrayVec;
use commands::Command;
use line_programs::{Answers, Dialog, Talk};
use machine::Channel;

// So many bytes of answers are written at once: up to 65,024, and behind these one answer more of any length.
pub const OUT: usize = 131_072;

// So many bytes of a line are kept, its newline among them: more than any command has.
pub const KEPT: usize = 1024;

// Who answers commands. It knows what the command `help` is answered, 66,048 bytes at most.
#[derive(Clone, Copy, Debug, PartialEq, Eq)]
pub struct Console<'a> {
    pub help: &'a [u8],
    ghost brief: { length help.now ≤ longest },
}

// What a session has from line to line: what `.` stands for, nothing before any open was accepted,
// and the buffer of windows and chips. What a command left in that plays no part in later answers,
// so nothing of it is cleared.
#[derive(Clone, Copy)]
pub struct Remembered {
    pub last: Option<Channel>,
    pub buffer: [u8; MOST_LENGTH],
}

impl From<Option<Channel>> for Remembered {
    fn from(last: Option<Channel>) -> Remembered
        ensures { result.last ≡ last }
    {
        Remembered {
            last,
            buffer: [0u8; MOST_LENGTH],
        }
    }
}

pub type Session<'a> = Dialog<Console<'a>, KEPT>;

// Where a session stands, as a value that can be copied: a `Session` is only cloned.
#[derive(Clone, Copy, Debug, PartialEq, Eq)]
pub struct State {
    pub line: [u8; KEPT],
    pub len: usize,
    pub last: Option<Channel>,
}

impl<'a> From<&Session<'a>> for State {
    ghost from_gives = { λ session state. (take state.len state.line ≡ session.now.line.items)
        × (state.len ≡ length session.now.line.items) × (state.last ≡ session.now.memory.last) };

    fn from(session: &Session<'a>) -> State {
        let line = session.line.as_slice();
        let mut bytes = [0u8; KEPT];
        bytes[..line.len()].copy_from_slice(line);
        State {
            line: bytes,
            len: line.len(),
            last: session.memory.last,
        }
    }
}

impl State {
    // A session of a console that stands there. Of a `len` above KEPT all bytes are its line.
    pub fn session<'a>(self, console: Console<'a>) -> Session<'a>
        ensures line { result.line.items ≡ take self.len self.line }
        ensures last { result.memory.last ≡ self.last }
        ensures answerer { result.answerer ≡ console.entry }
    {
        let mut line = ArrayVec::from(self.line);
        line.truncate(self.len);
        Session {
            line,
            memory: Remembered::from(self.last),
            answerer: console,
        }
    }
}

impl<'a> Console<'a> {
    // The answer to a line that is given with its newline, behind what stands there. `last` is what `.` stands for, and `buffer` is lent to windows and chips.
    #[tactic(auto, unfolding(crate::specs::Sessions::answer_of, crate::specs::Sessions::last_of))]
    fn reply<const N: usize>(
        &self,
        line: &[u8],
        last: &mut Option<Channel>,
        buffer: &mut [u8],
        out: &mut ArrayVec<u8, N>,
    )
        requires room { array_vec_len out.old + ROOM ≤ N }
        requires buffer { most_length ≤ length buffer.old }
        ensures said { out.new.items ≡ out.old.items ++ answer_of self.now.help.now (command_of last.old line.now) }
        ensures last { last.new ≡ last_of last.old (command_of last.old line.now) }
    {
        let Some(command) = commands::command_in(line, *last) else {
            return answer_lines::error(out);
        };
        // An arm for each command: the compiler names the one that lacks an answer.
        match command {
            Command::Open(signal, prn) => channel_answers::open(signal, prn, last, out),
            Command::Seek(ch, place) => channel_answers::seek(ch, place, last, out),
            Command::Step(ch) => channel_answers::step(ch, last, out),
            Command::Window(ch, count, bytes, at) => {
                channel_answers::window_in(ch, count, bytes, at, buffer, last, out)
            }
            Command::Chips(signal, prn, place, bytes) => {
                place_answers::chips_in(signal, prn, place, bytes, buffer, out)
            }
            Command::Reading(signal, place) => place_answers::reading(signal, place, out),
            Command::PlaceOf(signal, epoch, chip) => {
                place_answers::place_of(signal, epoch, chip, out)
            }
            Command::Gap(signal, a, b) => place_answers::gap(signal, a, b, out),
            Command::Help => texts::append(self.help, out),
        }
    }
}

impl<'a> Talk<KEPT> for Console<'a> {
    type Memory = Remembered;

    ghost State = { Standing };

    ghost state = { λ line memory. talk line memory.last };

    ghost course = { λ console. course console.help.now };

    ghost room = { longest };

    ghost last_room = { longest };

    ghost laws = { λ console. laws console.help.now };

    fn room(&self) -> usize {
        ROOM
    }
}

impl<'a, const N: usize> Answers<KEPT, N> for Console<'a> {
    fn answer(&self, line: &[u8], memory: &mut Remembered, out: &mut ArrayVec<u8, N>) {
        // A command is read with its newline.
        let mut ended = ArrayVec::<u8, KEPT>::new();
        texts::append(line, &mut ended);
        line_programs::keep(&mut ended, b'\n');
        self.reply(ended.as_slice(), &mut memory.last, &mut memory.buffer, out);
    }

    // A last line that lacks its newline is answered as if it had one. Inlined, it would have every
    // byte of a session pay for the copy's stack.
    #[inline(never)]
    #[tactic(auto, using(crate::specs::Laws::begun_left))]
    fn answer_last(&self, line: &[u8], memory: &Remembered, out: &mut ArrayVec<u8, N>) {
        let mut memory = *memory;
        self.answer(line, &mut memory, out);
    }
}

// Every session: fed in any chunks, it says the answers to the input's lines, in order, however long a line is.
#[tactic(auto, using(crate::proofs::EverySession::every_session))]
pub fn every_session()
    ensures { EverySession }
{}

// Every script: lines that open a channel and then ask for calls on `.` are answered with the texts of that list of calls, and leave `.` at the channel that it
// hands back; and of these holds what holds of every list of calls.
pub fn every_script()
    ensures scripts { EveryScript }
    ensures asked { StepAsks }
{}
