// A stream of lines, fed in chunks of any size, and its replies.
#![tactic(auto)]

ghost use Rattle.std.specs.Prelude.{◌≡◌, ℕ, List, length};
ghost use Rattle.streams.specs.Stream.{course, held, InOrder, AnyChunks, ByTheStandards};
ghost use Rattle.streams.specs.Laws.{laws};
ghost use Rattle.lines.specs.declared.TheConstants.{ROOM as longest};

use arrayvec::ArrayVec;
use line_programs::{Answers, Dialog, Talk};
use refusals::Refusal;

// So many bytes of a line are kept, one more than the longest well-formed line has: four numbers of 13 digits and three spaces.
pub const KEPT: usize = 56;

// Who replies to a line, as `lines` does. From line to line nothing is remembered.
#[derive(Clone, Copy, Debug, PartialEq, Eq)]
pub struct Replies;

// A stream has the line that has no newline yet: where it stands is that line.
pub type Stream = Dialog<Replies, KEPT>;

impl Talk<KEPT> for Replies {
    type Memory = ();

    ghost State = { List ℕ };

    ghost state = { λ line _. line };

    ghost course = { λ _. course };

    ghost room = { longest };

    ghost last_room = { 10 };

    ghost laws = { λ _. laws };

    fn room(&self) -> usize {
        lines::ROOM
    }
}

impl<const N: usize> Answers<KEPT, N> for Replies {
    fn answer(&self, line: &[u8], _memory: &mut (), out: &mut ArrayVec<u8, N>) {
        lines::reply(line, out);
    }

    // The refusal of a line that lacks its newline.
    #[tactic(auto, using(crate::specs::Laws::begun_last))]
    fn answer_last(&self, _line: &[u8], _memory: &(), out: &mut ArrayVec<u8, N>) {
        texts::append_refused(Refusal::Line, out);
    }
}

// ---- a line half come, as a value

// The line that has no newline yet, or as much of it as is kept, as a value that can be copied: a
// `Stream` is only cloned.
#[derive(Clone, Copy, Debug, PartialEq, Eq)]
pub struct Pending {
    pub bytes: [u8; KEPT],
    pub len: usize,
}

// Where a stream stands.
impl From<&Stream> for Pending {
    ghost from_gives = { λ stream pending. (held pending ≡ stream.now.line.items)
        × (pending.len ≡ length stream.now.line.items) };

    fn from(stream: &Stream) -> Pending {
        let line = stream.line.as_slice();
        let mut bytes = [0u8; KEPT];
        bytes[..line.len()].copy_from_slice(line);
        Pending {
            bytes,
            len: line.len(),
        }
    }
}

// A stream that stands there. Of a `len` above KEPT all bytes are its line.
impl From<Pending> for Stream {
    ghost from_gives = { λ pending stream. stream.line.items ≡ held pending };

    fn from(pending: Pending) -> Stream {
        let mut line = ArrayVec::from(pending.bytes);
        line.truncate(pending.len);
        Stream {
            line,
            memory: (),
            answerer: Replies,
        }
    }
}

// ---- every input

// Every input: the output is the replies to its lines, in order, and `refused 9` for what follows the last newline, if that has a byte.
#[tactic(auto, using(crate::proofs::EveryInput::in_order))]
pub fn in_order()
    ensures { InOrder }
{}

// Every cut: fed in any chunks, a stream says what it says to the whole input.
#[tactic(auto, using(crate::proofs::EveryInput::any_chunks))]
pub fn any_chunks()
    ensures { AnyChunks }
{}

// By the standards: the chips in the replies are those of IS-GPS-200 and IS-GPS-705.
#[tactic(auto, using(crate::proofs::EveryInput::answers_by_the_standards))]
pub fn by_the_standards()
    ensures { ByTheStandards }
{}
