// What the programs that answer lines share: a line as it comes, the loop that reads, answers and writes, how they are called, and why one ends before its
// input does.
#![tactic(auto)]

ghost use Rattle.std.specs.Prelude.{◌≡◌, ◌≢◌, ◌↔◌, [], ◌∷◌, ◌++◌, ◌+◌, ◌≤◌, ◌<◌, ◌⊎◌, ℕ, List, length, take, ⊤, Option, None, IsTrue, IfSome, IfOk, OnOk, OnErr, IfErr};
ghost use Rattle.std.specs.Io.{ReadsAtMost, WritesAtMost};
ghost use Rattle.std.specs.Io.KnownBytes.{Appends, ReadConsumes, WriteAppends};
ghost use Rattle.std.specs.IoError.{error_kind};
ghost use Rattle.std.specs.declared.io.ErrorKind.TheVariants.{Interrupted};
ghost use Rattle.arrayvec.specs.ArrayVec.{array_vec_len};
ghost use Rattle.line_programs.specs.Dialogs.{Course, Laws, stands, says, saying};
ghost use Rattle.line_programs.specs.Lines.{LinesAndBack};
ghost use Rattle.line_programs.specs.Talks.{OneMore, HasFailed, Begins, AnswersRead, BeginsRead, IsEndless, OnInput, OnOutput, Answered};

use arrayvec::ArrayVec;
use std::env::{Env, FillError};
use std::io;
use std::io::{Read, Stdin, Stdout, Write};
use thiserror::Error;

// So many bytes are read at once.
pub const CHUNK: usize = 65_536;

// What ends a line.
const NEWLINE: u8 = b'\n';

// Why it ended before the input did.
#[derive(Debug, Drop, Error)]
pub enum Failed {
    #[error("standard input: {0}")]
    Input(io::Error),
    #[error("standard output: {0}")]
    Output(io::Error),
}

// The law of lines: cut at its newlines and joined again an input is the input, and joined and cut again lines are the lines.
#[tactic(auto, using(crate::proofs::Lines::lines_and_back))]
pub fn lines_and_back()
    ensures { LinesAndBack }
{}

// ---- a dialog

// One byte more of a line, or none where KEPT are kept.
pub fn keep<const KEPT: usize>(line: &mut ArrayVec<u8, KEPT>, b: u8)
    ensures { line.new.items ≡ take KEPT (line.old.items ++ b ∷ []) }
{
    if !line.is_full() {
        line.push(b);
    }
}

// How a dialog goes in which KEPT bytes of a line are kept at most.
pub trait Talk<const KEPT: usize> {
    // What is remembered from line to line.
    type Memory: Drop;

    // Where a dialog stands, by the line that has no newline yet and the memory, and what it does with bytes.
    ghost State: { Type 0 };

    ghost state: { List ℕ → Self.Memory → State };

    ghost course: { Self → Course State };

    // So many bytes has the longest answer, and the longest that the input's end brings.
    ghost room: { ℕ };

    ghost last_room: { ℕ };

    // The bytes of room that any answer fits in. A function, for no constant can be checked yet in an `impl` for a type with a lifetime, as the console has.
    fn room(&self) -> usize
        ensures { result ≡ room };

    ghost laws: { (a : Self) → Laws KEPT state (course a) };
}

// Who answers the lines, by a buffer of N bytes.
pub trait Answers<const KEPT: usize, const N: usize>: Talk<KEPT> {
    // The answer to a line, given without its newline, behind what stands there.
    fn answer(&self, line: &[u8], memory: &mut Self::Memory, out: &mut ArrayVec<u8, N>)
        requires short { length line.now ≤ KEPT }
        requires room { array_vec_len out.old + Self.room ≤ N }
        ensures state { Self.state [] memory.new ≡ (Self.course self.now).kept ((Self.course self.now).next (Self.state line.now memory.old) 10) }
        ensures said { out.new.items ≡ out.old.items ++ (Self.course self.now).said (Self.state line.now memory.old) 10 };

    // What the input's end says of a line that has begun and lacks its newline, behind what stands there.
    fn answer_last(&self, line: &[u8], memory: &Self::Memory, out: &mut ArrayVec<u8, N>)
        requires begun { 0 < length line.now }
        requires short { length line.now ≤ KEPT }
        requires room { array_vec_len out.old + Self.last_room ≤ N }
        ensures { out.new.items ≡ out.old.items ++ (Self.course self.now).last (Self.state line.now memory.now) };
}

// The line that has no newline yet, or as much of it as is kept, what is remembered from line to line, and who answers: a line of any length takes no more
// memory.
#[derive(Clone, Drop)]
pub struct Dialog<A: Talk<KEPT>, const KEPT: usize> {
    pub line: ArrayVec<u8, KEPT>,
    pub memory: A::Memory,
    pub answerer: A,
}

impl<A: Talk<KEPT>, const KEPT: usize> Dialog<A, KEPT> {
    // A dialog that nothing was fed to.
    pub fn new(answerer: A, memory: A::Memory) -> Self
        ensures line { result.line.items ≡ [] }
        ensures memory { result.memory ≡ memory }
        ensures answerer { result.answerer ≡ answerer }
    {
        Dialog {
            line: ArrayVec::new(),
            memory,
            answerer,
        }
    }

    // One byte of input: what it says, behind what stands there. That the answerer stays is a clause here and below: `&mut self` lends it too. So is the room, as
    // `texts` says.
    fn turn<const N: usize>(&mut self, b: u8, out: &mut ArrayVec<u8, N>)
    where
        A: Answers<KEPT, N>,
        requires room { array_vec_len out.old + A.room ≤ N }
        ensures answerer { self.new.answerer ≡ self.old.answerer }
        ensures state { A.state self.new.line.items self.new.memory
            ≡ (A.course self.old.answerer).kept ((A.course self.old.answerer).next (A.state self.old.line.items self.old.memory) b) }
        ensures said { out.new.items ≡ out.old.items ++ (A.course self.old.answerer).said (A.state self.old.line.items self.old.memory) b }
    {
        if b == NEWLINE {
            let line = self.line.as_slice();
            self.answerer.answer(line, &mut self.memory, out);
            self.line.clear();
        } else {
            keep(&mut self.line, b);
        }
    }

    // Takes bytes of a chunk as long as there is room for any answer, and puts their answers behind what stands there. Tells how many bytes it took.
    pub fn feed<const N: usize>(&mut self, input: &[u8], out: &mut ArrayVec<u8, N>) -> usize
    where
        A: Answers<KEPT, N>,
        ensures answerer { self.new.answerer ≡ self.old.answerer }
        ensures state { A.state self.new.line.items self.new.memory
            ≡ stands (A.course self.old.answerer) (A.state self.old.line.items self.old.memory) (take result input.now) }
        ensures said { out.new.items ≡ out.old.items ++ says (A.course self.old.answerer) (A.state self.old.line.items self.old.memory) (take result input.now) }
        ensures used { result ≤ length input.now }
        ensures full { result < length input.now → N < array_vec_len out.new + A.room }
    {
        // What its length promises tells a proof that all of the line is kept.
        let _ = self.line.len();
        for (i, b) in input.iter().enumerate() {
            if out.remaining_capacity() < self.answerer.room() {
                return i;
            }
            self.turn(*b, out);
        }
        input.len()
    }

    // What the end of the input says, behind what stands there: nothing, or what is said of a last line that lacks its newline.
    pub fn finish<const N: usize>(&self, out: &mut ArrayVec<u8, N>)
    where
        A: Answers<KEPT, N>,
        requires room { array_vec_len out.old + A.last_room ≤ N }
        ensures { out.new.items ≡ out.old.items ++ (A.course self.now.answerer).last (A.state self.now.line.items self.now.memory) }
    {
        if !self.line.is_empty() {
            let line = self.line.as_slice();
            self.answerer.answer_last(line, &self.memory, out);
        }
    }
}

// ---- what is read and written, and whether that has failed

// A reader, whether it has failed, and how many of its reads a signal interrupted, where that is known. `failed` of a reader that never fails is a fact that
// never holds.
pub trait Source: Read {
    ghost failed: { Self → Type 0 };

    ghost interrupted: { Self → Option ℕ };

    // As `read`. A read that a signal interrupted has not failed, and can be made again.
    fn fetch(&mut self, buffer: &mut [u8]) -> io::Result<usize>
        ensures bound { ReadsAtMost result buffer.new }
        ensures bytes { ReadConsumes (Self.remaining self.old) (Self.remaining self.new) result buffer.new }
        ensures again { IfErr result (λ e. error_kind e ≡ Interrupted → OneMore (interrupted self.old) (interrupted self.new)) }
        ensures err { IfErr result (λ e. error_kind e ≢ Interrupted → failed self.new) };
}

// A writer, whether it has failed, and how many of its writes a signal interrupted, where that is known. To take none of what it was given is to fail.
pub trait Sink: Write {
    ghost failed: { Self → Type 0 };

    ghost interrupted: { Self → Option ℕ };

    // As `write`. A write that a signal interrupted has not failed, and can be made again.
    fn put(&mut self, bytes: &[u8]) -> io::Result<usize>
        ensures bound { WritesAtMost result bytes.now }
        ensures bytes { WriteAppends (Self.contents self.old) (Self.contents self.new) result bytes.now }
        ensures none { IfOk result (λ n. n ≡ 0 → 0 < length bytes.now → failed self.new) }
        ensures again { IfErr result (λ e. error_kind e ≡ Interrupted → OneMore (interrupted self.old) (interrupted self.new)) }
        ensures err { IfErr result (λ e. error_kind e ≢ Interrupted → failed self.new) };
}

// Of the standard streams nothing can be said.
impl Source for Stdin {
    ghost failed = { λ _. ⊤ };

    ghost interrupted = { λ _. None };

    fn fetch(&mut self, buffer: &mut [u8]) -> io::Result<usize> {
        self.read(buffer)
    }
}

impl Sink for Stdout {
    ghost failed = { λ _. ⊤ };

    ghost interrupted = { λ _. None };

    fn put(&mut self, bytes: &[u8]) -> io::Result<usize> {
        self.write(bytes)
    }
}

// Of a reader or a writer that is lent nothing is said but what `Read` and `Write` say, so any can
// be lent.
impl<R: Read> Source for &mut R {
    ghost failed = { λ _. ⊤ };

    ghost interrupted = { λ _. None };

    fn fetch(&mut self, buffer: &mut [u8]) -> io::Result<usize> {
        Read::read(self, buffer)
    }
}

impl<W: Write> Sink for &mut W {
    ghost failed = { λ _. ⊤ };

    ghost interrupted = { λ _. None };

    fn put(&mut self, bytes: &[u8]) -> io::Result<usize> {
        Write::write(self, bytes)
    }
}

// The same of a reader or a writer that is owned: who lends this knows what it has come to.
#[derive(Debug, Drop)]
pub struct Plain<T> {
    pub inner: T,
}

impl<R: Read> Read for Plain<R> {
    ghost remaining = { λ r. R.remaining r.inner };

    fn read(&mut self, buffer: &mut [u8]) -> io::Result<usize> {
        self.inner.read(buffer)
    }
}

impl<W: Write> Write for Plain<W> {
    ghost contents = { λ w. W.contents w.inner };

    fn write(&mut self, bytes: &[u8]) -> io::Result<usize> {
        self.inner.write(bytes)
    }

    fn flush(&mut self) -> io::Result<()> {
        self.inner.flush()
    }
}

impl<R: Read> Source for Plain<R> {
    ghost failed = { λ _. ⊤ };

    ghost interrupted = { λ _. None };

    fn fetch(&mut self, buffer: &mut [u8]) -> io::Result<usize> {
        <Self as Read>::read(self, buffer)
    }
}

impl<W: Write> Sink for Plain<W> {
    ghost failed = { λ _. ⊤ };

    ghost interrupted = { λ _. None };

    fn put(&mut self, bytes: &[u8]) -> io::Result<usize> {
        <Self as Write>::write(self, bytes)
    }
}

// Whether a signal interrupted a call.
fn is_interrupted(error: &io::Error) -> bool
    ensures { IsTrue result ↔ (error_kind error.now ≡ Interrupted) }
{
    matches!(error.kind(), io::ErrorKind::Interrupted)
}

// A call that signals interrupt is made so often at most.
const MOST_TRIES: u64 = u64::MAX;

// A proved loop has to end, and nothing says that an input does, or that signals do: so a program gives up after more tries than any run makes.
fn too_many_tries() -> io::Error {
    io::Error::from(io::ErrorKind::TimedOut)
}

// As `fetch`, made again where a signal interrupted it.
fn fetch_again<R: Source>(input: &mut R, buffer: &mut [u8]) -> io::Result<usize>
    ensures bound { ReadsAtMost result buffer.new }
    ensures bytes { ReadConsumes (R.remaining input.old) (R.remaining input.new) result buffer.new }
    ensures err { OnErr result (HasFailed (R.failed input.new) (R.interrupted input.new)) }
{
    for _ in 0..MOST_TRIES {
        match input.fetch(buffer) {
            Ok(got) => return Ok(got),
            Err(unread) => {
                if !is_interrupted(&unread) {
                    return Err(unread);
                }
            }
        }
    }
    Err(too_many_tries())
}

// As `put`, made again where a signal interrupted it.
fn put_again<W: Sink>(output: &mut W, bytes: &[u8]) -> io::Result<usize>
    ensures bound { WritesAtMost result bytes.now }
    ensures bytes { WriteAppends (W.contents output.old) (W.contents output.new) result bytes.now }
    ensures none { IfOk result (λ n. n ≡ 0 → 0 < length bytes.now → W.failed output.new) }
    ensures err { OnErr result (HasFailed (W.failed output.new) (W.interrupted output.new)) }
{
    for _ in 0..MOST_TRIES {
        match output.put(bytes) {
            Ok(taken) => return Ok(taken),
            Err(unwritten) => {
                if !is_interrupted(&unwritten) {
                    return Err(unwritten);
                }
            }
        }
    }
    Err(too_many_tries())
}

// All of the bytes: std's `write_all` does not say what was written where it failed.
fn put_all<W: Sink>(output: &mut W, bytes: &[u8]) -> io::Result<()>
    ensures ok { OnOk result (Appends (W.contents output.old) (W.contents output.new) bytes.now) }
    ensures begun { Begins (W.contents output.old) (W.contents output.new) bytes.now }
    ensures err { OnErr result (HasFailed (W.failed output.new) (W.interrupted output.new)) }
{
    let mut rest = bytes;
    while !rest.is_empty() {
        let taken = put_again(output, rest)?;
        if taken == 0 {
            return Err(io::Error::new(io::ErrorKind::WriteZero, "failed to write whole buffer"));
        }
        rest = &rest[taken..];
    }
    Ok(())
}

// ---- a program. A dialog, a buffer and an output go along one beside the other: they are loans of different owners, and a struct would borrow all three.

// The answers to a chunk, written as the buffer fills and at the chunk's end, so that someone who types a line sees its answer.
fn answer<A: Answers<KEPT, N>, const KEPT: usize, const N: usize, W: Sink>(
    dialog: &mut Dialog<A, KEPT>,
    chunk: &[u8],
    out: &mut ArrayVec<u8, N>,
    output: &mut W,
) -> io::Result<()>
    requires room { A.room ≤ N }
    ensures answerer { dialog.new.answerer ≡ dialog.old.answerer }
    ensures said { OnOk result (Answered (A.course dialog.old.answerer) (A.state dialog.old.line.items dialog.old.memory)
        (A.state dialog.new.line.items dialog.new.memory) chunk.now (W.contents output.old) (W.contents output.new)) }
    ensures begun { Begins (W.contents output.old) (W.contents output.new)
        (says (A.course dialog.old.answerer) (A.state dialog.old.line.items dialog.old.memory) chunk.now) }
    ensures err { OnErr result (HasFailed (W.failed output.new) (W.interrupted output.new)) }
{
    let mut rest = chunk;
    // Not a `for`: each turn of the dialog says how far it came.
    while !rest.is_empty() {
        out.clear();
        let used = dialog.feed(rest, out);
        put_all(output, out.as_slice())?;
        rest = &rest[used..];
    }
    Ok(())
}

// The answer that the input's end brings: that of a last line lacking its newline, if there is one.
fn finish<A: Answers<KEPT, N>, const KEPT: usize, const N: usize, W: Sink>(
    dialog: &Dialog<A, KEPT>,
    out: &mut ArrayVec<u8, N>,
    output: &mut W,
) -> io::Result<()>
    requires room { A.last_room ≤ N }
    ensures said { OnOk result (Appends (W.contents output.old) (W.contents output.new)
        (saying (A.course dialog.now.answerer) (A.state dialog.now.line.items dialog.now.memory) [])) }
    ensures begun { Begins (W.contents output.old) (W.contents output.new)
        (saying (A.course dialog.now.answerer) (A.state dialog.now.line.items dialog.now.memory) []) }
    ensures err { OnErr result (HasFailed (W.failed output.new) (W.interrupted output.new)) }
{
    out.clear();
    dialog.finish(out);
    put_all(output, out.as_slice())
}

// Reads and answers a chunk at a time, as it comes, by the buffer lent. It ends early only where a read or a write failed, and whatever was written is a beginning
// of the answers. A read that fails is not the end of the input: all lines read by then are answered, and an unfinished one is left without an answer. After a
// write that failed nothing more is written.
pub fn answer_all<A: Answers<KEPT, N>, const KEPT: usize, const N: usize, R: Source, W: Sink>(
    dialog: &mut Dialog<A, KEPT>,
    out: &mut ArrayVec<u8, N>,
    input: &mut R,
    output: &mut W,
) -> Result<(), Failed>
    requires room { A.room ≤ N }
    requires last_room { A.last_room ≤ N }
    ensures ok { OnOk result (IfSome (R.remaining input.old) (λ bytes. Appends (W.contents output.old) (W.contents output.new)
        (saying (A.course dialog.old.answerer) (A.state dialog.old.line.items dialog.old.memory) bytes))) }
    ensures begun { IfSome (R.remaining input.old) (λ bytes. Begins (W.contents output.old) (W.contents output.new)
        (saying (A.course dialog.old.answerer) (A.state dialog.old.line.items dialog.old.memory) bytes)) }
    ensures read { IfErr result (λ e. OnInput e (AnswersRead (R.remaining input.old) (R.remaining input.new) (W.contents output.old) (W.contents output.new)
        (says (A.course dialog.old.answerer) (A.state dialog.old.line.items dialog.old.memory)))) }
    ensures written { IfErr result (λ e. OnOutput e (BeginsRead (R.remaining input.old) (R.remaining input.new) (W.contents output.old) (W.contents output.new)
        (says (A.course dialog.old.answerer) (A.state dialog.old.line.items dialog.old.memory))
        (saying (A.course dialog.old.answerer) (A.state dialog.old.line.items dialog.old.memory)))) }
    ensures input { IfErr result (λ e. OnInput e (HasFailed (R.failed input.new) (R.interrupted input.new) ⊎ IsEndless (R.remaining input.old))) }
    ensures output { IfErr result (λ e. OnOutput e (HasFailed (W.failed output.new) (W.interrupted output.new))) }
{
    let mut buffer = [0u8; CHUNK];
    for _ in 0..u64::MAX {
        let got = fetch_again(input, &mut buffer).map_err(Failed::Input)?;
        if got == 0 {
            return finish(dialog, out, output).map_err(Failed::Output);
        }
        answer(dialog, &buffer[..got], out, output).map_err(Failed::Output)?;
    }
    Err(Failed::Input(too_many_tries()))
}

// Whether the program was given any argument, be it text or not. It has no clause, since what `Env` promises of `arg` says nothing of which arguments there are.
pub fn has_arguments(rt: &impl Env) -> bool {
    !matches!(rt.arg(1, &mut [0u8; 1]), Err(FillError::NotPresent))
}
