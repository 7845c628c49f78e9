// The line program: reads lines of signal, PRN, place and count from standard input and writes a reply to each to standard output. `lines` says
// what a line is answered, `streams` what a stream of them is, and `line_programs` has the loop over that.
#![tactic(auto)]

ghost use Rattle.std.specs.Prelude.{◌⊎◌, IfSome, OnOk, IfErr};
ghost use Rattle.std.specs.Io.KnownBytes.{Appends};
ghost use Rattle.gps_chips.specs.Chips.{by_the_machine, by_the_standards};
ghost use Rattle.line_programs.specs.Talks.{HasFailed, Begins, AnswersRead, BeginsRead, IsEndless, OnInput, OnOutput};
ghost use Rattle.streams.specs.Stream.{answers, answers_so_far};

use arrayvec::ArrayVec;
use line_programs::{CHUNK, Dialog, Failed, Sink, Source};
use streams::{Replies, Stream};

// Reads and answers all of the input. The console has one like it: each ensures a definition of its own, and what is alike is in `line_programs`.
#[tactic(auto, using(streams::proofs::EveryInput::every_input))]
fn answer_all<R: Source, W: Sink>(input: &mut R, output: &mut W) -> Result<(), Failed>
    ensures ok { OnOk result (IfSome (R.remaining input.old) (λ bytes. Appends (W.contents output.old) (W.contents output.new) (answers by_the_machine bytes))) }
    ensures standards { OnOk result (IfSome (R.remaining input.old) (λ bytes. Appends (W.contents output.old) (W.contents output.new) (answers by_the_standards bytes))) }
    ensures begun { IfSome (R.remaining input.old) (λ bytes. Begins (W.contents output.old) (W.contents output.new) (answers by_the_machine bytes)) }
    ensures read { IfErr result (λ e. OnInput e (AnswersRead (R.remaining input.old) (R.remaining input.new) (W.contents output.old) (W.contents output.new)
        (answers_so_far by_the_machine))) }
    ensures written { IfErr result (λ e. OnOutput e (BeginsRead (R.remaining input.old) (R.remaining input.new) (W.contents output.old) (W.contents output.new)
        (answers_so_far by_the_machine) (answers by_the_machine))) }
    ensures input { IfErr result (λ e. OnInput e (HasFailed (R.failed input.new) (R.interrupted input.new) ⊎ IsEndless (R.remaining input.old))) }
    ensures output { IfErr result (λ e. OnOutput e (HasFailed (W.failed output.new) (W.interrupted output.new))) }
{
    let mut stream: Stream = Dialog::new(Replies, ());
    // It has room for a reply, and behind it for many more.
    let mut out = ArrayVec::<u8, CHUNK>::new();
    line_programs::answer_all(&mut stream, &mut out, input, output)
}

// Apart from the console's, which greets who types the lines. Who gives arguments, --help among them, is told what it does, and nothing is read. Where standard
// error can't be written either, nobody is told.
fn main(rt: HostRuntime) {
    if line_programs::has_arguments(&rt) {
        let _ = eprintln!(rt;
            "codes takes no arguments. It reads lines of SIGNAL PRN PLACE COUNT, as 2 1 0 12,\nfrom standard input and answers each on standard output."
        );
        return;
    }
    if let Err(failed) = answer_all(&mut rt.stdin(), &mut rt.stdout()) {
        let _ = eprintln!(rt; "codes: {failed}");
    }
}
