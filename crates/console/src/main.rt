// The console: reads commands from standard input, a line each, and answers each on standard output. `commands` says what a line asks for,
// `channel_answers` and `place_answers` what a call is answered, `sessions` what is said in a whole session, and `line_programs` has
// the loop over that.
#![tactic(auto)]

ghost use Rattle.std.specs.Prelude.{◌≤◌, ◌⊎◌, length, IfSome, OnOk, IfErr};
ghost use Rattle.std.specs.Io.KnownBytes.{Appends};
ghost use Rattle.line_programs.specs.Talks.{HasFailed, Begins, AnswersRead, BeginsRead, IsEndless, OnInput, OnOutput};
ghost use Rattle.sessions.specs.Sessions.{output as whole_output, output_so_far};

use arrayvec::ArrayVec;
use line_programs::{Dialog, Failed, Sink, Source};
use sessions::{Console, OUT, Remembered, Session};
use std::io::IsTerminal;

// What `help` is answered.
const HELP: &[u8] = b"open S P                    ok CH            a channel at place 0
seek CH PLACE               ok LEAPS CH      that channel at a place
step CH                     ok CHIP CH       its chip, and the channel one step on
window CH COUNT LENGTH AT   ok CH CHIPS      COUNT chips, written from AT on into LENGTH bytes
chips S P PLACE LENGTH      answer N CHIPS   LENGTH chips from a place on; N is 0 or the refusal
reading S PLACE             ok EPOCH CHIP    the epoch of 1.5 seconds, and the chip in it
placeof S EPOCH CHIP        ok PLACE         and back
gap S A B                   ok SIGNED        chips from place A to place B, the shorter way
help                                         these lines

S       signal: 1 C/A, 2 P, 3 L2 CM, 4 L2 CL, 5 I5, 6 Q5
P       PRN, 1 to 37
PLACE   chips since the start of the week, from 0
CH      . for the channel that the last call handed back, or a channel in full,
        SIGNAL/PRN/PLACE/EPOCH/DELAY/A/B/C/D, where A to D are its generators:
        REGISTER.PHASE.CYCLES.R running, REGISTER.PHASE.CYCLES.Hn held with n
CHIPS   digits 0 and 1, or - for none

refused N   1 signal, 2 PRN, 3 place, 4 channel out of range, 5 too many chips,
            6 no room from AT on, 7 epoch, 8 chip of the epoch
error       no such command: a word or a number is wrong, missing or too many

For example: open 2 1, then seek . 15344999, window . 10 10 0, step .
";

// Reads and answers all of the input. Apart from that of `codes`: each ensures a definition of its own.
#[tactic(auto, using(sessions::proofs::EverySession::every_input))]
fn answer_all<R: Source, W: Sink>(help: &[u8], input: &mut R, output: &mut W) -> Result<(), Failed>
    requires { length help.now ≤ 66048 }
    ensures ok { OnOk result (IfSome (R.remaining input.old) (λ bytes. Appends (W.contents output.old) (W.contents output.new) (whole_output help.now bytes))) }
    ensures begun { IfSome (R.remaining input.old) (λ bytes. Begins (W.contents output.old) (W.contents output.new) (whole_output help.now bytes)) }
    ensures read { IfErr result (λ e. OnInput e (AnswersRead (R.remaining input.old) (R.remaining input.new) (W.contents output.old) (W.contents output.new)
        (output_so_far help.now))) }
    ensures written { IfErr result (λ e. OnOutput e (BeginsRead (R.remaining input.old) (R.remaining input.new) (W.contents output.old) (W.contents output.new)
        (output_so_far help.now) (whole_output help.now))) }
    ensures input { IfErr result (λ e. OnInput e (HasFailed (R.failed input.new) (R.interrupted input.new) ⊎ IsEndless (R.remaining input.old))) }
    ensures output { IfErr result (λ e. OnOutput e (HasFailed (W.failed output.new) (W.interrupted output.new))) }
{
    let mut session: Session = Dialog::new(Console { help }, Remembered::from(None));
    let mut out = ArrayVec::<u8, OUT>::new();
    line_programs::answer_all(&mut session, &mut out, input, output)
}

// Who gives arguments, --help among them, is told what it does, and nothing is read. Who types the lines is told where to begin. Where standard error can't be
// written either, nobody is told.
fn main(rt: HostRuntime) {
    if line_programs::has_arguments(&rt) {
        let _ = eprintln!(rt;
            "console takes no arguments. It reads commands from standard input, a line each, and\nanswers each on standard output. The command help lists them."
        );
        return;
    }
    if rt.stdin().is_terminal() {
        let _ = eprintln!(rt;
            "One command a line: open 2 1, say, and then step . (help lists them, Ctrl-D ends)"
        );
    }
    if let Err(failed) = answer_all(HELP, &mut rt.stdin(), &mut rt.stdout()) {
        let _ = eprintln!(rt; "console: {failed}");
    }
}
