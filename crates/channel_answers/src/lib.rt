// The calls on a channel as the console makes them: each appends its reply as a line of text, and keeps what `.` stands for after it.
#![tactic(auto)]

ghost use Rattle.std.specs.Prelude.{◌≡◌, ◌≤◌, ◌+◌, ◌++◌, length};
ghost use Rattle.arrayvec.specs.ArrayVec.{array_vec_len};
ghost use Rattle.refusals.specs.Refusal.{number_of};
ghost use Rattle.call_open.specs.Open.{open_reply};
ghost use Rattle.call_seek.specs.Seek.{seek_reply};
ghost use Rattle.call_step.specs.Step.{step_reply};
ghost use Rattle.call_window.specs.Window.{window_reply};
ghost use Rattle.texts.specs.Texts.{refused_line};
ghost use Rattle.answer_lines.specs.Lines.{handed_back, most_length};
ghost use Rattle.channel_answers.specs.ChannelAnswers.{open_line, seek_line, step_line, window_line, window_answered, opened_last, window_last};

use answer_lines::{MOST_LENGTH, ROOM};
use arrayvec::ArrayVec;
use engine::Refused;
use machine::Channel;

// The calls are of one shape: each names its call and its line, which one for all would be handed. Each asks for `ROOM`, as `answer_lines` says. What `.` stands
// for and the text are two loans of different owners, which a struct of both would borrow for each call.

// Opens a channel, and `.` stands for it from then on: `ok CH`, or the refusal of a signal or a PRN. Any two numbers.
pub fn open<const N: usize>(
    signal: u64,
    prn: u64,
    last: &mut Option<Channel>,
    out: &mut ArrayVec<u8, N>,
)
    requires { array_vec_len out.old + ROOM ≤ N }
    ensures text { out.new.items ≡ out.old.items ++ open_line (open_reply signal prn) }
    ensures dot { last.new ≡ opened_last last.old (open_reply signal prn) }
{
    match engine::open(signal, prn) {
        Ok(ch) => {
            *last = Some(ch);
            answer_lines::ok_channel(ch, out);
        }
        Err(refusal) => texts::append_refused(refusal, out),
    }
}

// A refused call hands back the channel as it came.
fn refuse<const N: usize>(refused: Refused, last: &mut Option<Channel>, out: &mut ArrayVec<u8, N>)
    requires { array_vec_len out.old + ROOM ≤ N }
    ensures text { out.new.items ≡ out.old.items ++ refused_line (number_of refused.refusal) }
    ensures dot { last.new ≡ handed_back last.old refused.channel }
{
    answer_lines::hand_back(last, refused.channel);
    texts::append_refused(refused.refusal, out);
}

// A channel brought to a place: `ok LEAPS CH`, or the refusal of a channel out of range or of a place behind the signal's week. Any values.
pub fn seek<const N: usize>(
    ch: Channel,
    place: u64,
    last: &mut Option<Channel>,
    out: &mut ArrayVec<u8, N>,
)
    requires { array_vec_len out.old + ROOM ≤ N }
    ensures text { out.new.items ≡ out.old.items ++ seek_line (seek_reply ch place) }
    ensures dot { last.new ≡ handed_back last.old (seek_reply ch place).channel }
{
    match engine::seek(ch, place) {
        Ok(sought) => {
            answer_lines::hand_back(last, sought.channel);
            answer_lines::ok_number_channel(u64::from(sought.leaps), sought.channel, out);
        }
        Err(refused) => refuse(refused, last, out),
    }
}

// A channel's chip, and the channel one step on: `ok CHIP CH`, or the refusal of a channel out of range. Any field values.
pub fn step<const N: usize>(ch: Channel, last: &mut Option<Channel>, out: &mut ArrayVec<u8, N>)
    requires { array_vec_len out.old + ROOM ≤ N }
    ensures text { out.new.items ≡ out.old.items ++ step_line (step_reply ch) }
    ensures dot { last.new ≡ handed_back last.old (step_reply ch).channel }
{
    match engine::step(ch) {
        Ok(stepped) => {
            answer_lines::hand_back(last, stepped.channel);
            answer_lines::ok_number_channel(u64::from(stepped.chip), stepped.channel, out);
        }
        Err(refused) => refuse(refused, last, out),
    }
}

// Count, buffer and `at` are the call's own arguments.
fn window_on<const N: usize>(
    ch: Channel,
    count: u64,
    buffer: &mut [u8],
    at: u64,
    last: &mut Option<Channel>,
    out: &mut ArrayVec<u8, N>,
)
    requires { array_vec_len out.old + ROOM ≤ N }
    ensures text { out.new.items ≡ out.old.items ++ window_line (window_reply ch count buffer.old at) }
    ensures dot { last.new ≡ handed_back last.old (window_reply ch count buffer.old at).channel }
{
    match engine::window(ch, count, buffer, at) {
        Ok(next) => {
            answer_lines::hand_back(last, next);
            let chips = &buffer[at as usize..(at + count) as usize];
            answer_lines::ok_channel_chips(next, chips, out);
        }
        Err(unwritten) => refuse(unwritten, last, out),
    }
}

// A window on a buffer of so many bytes, the first of those that are lent: no answer shows a byte
// that the call has not written, so it plays no part what stands there, and nothing is cleared.
pub fn window_in<const N: usize>(
    ch: Channel,
    count: u64,
    bytes: u64,
    at: u64,
    lent: &mut [u8],
    last: &mut Option<Channel>,
    out: &mut ArrayVec<u8, N>,
)
    requires room { array_vec_len out.old + ROOM ≤ N }
    requires lent { most_length ≤ length lent.old }
    ensures text { out.new.items ≡ out.old.items ++ window_answered ch count bytes at }
    ensures dot { last.new ≡ window_last last.old ch count bytes at }
{
    if answer_lines::too_long(bytes) {
        return answer_lines::error(out);
    }
    window_on(ch, count, &mut lent[..bytes as usize], at, last, out);
}

// The same on a buffer of its own, of zeros: for who has none to lend.
pub fn window<const N: usize>(
    ch: Channel,
    count: u64,
    bytes: u64,
    at: u64,
    last: &mut Option<Channel>,
    out: &mut ArrayVec<u8, N>,
)
    requires { array_vec_len out.old + ROOM ≤ N }
    ensures text { out.new.items ≡ out.old.items ++ window_answered ch count bytes at }
    ensures dot { last.new ≡ window_last last.old ch count bytes at }
{
    window_in(ch, count, bytes, at, &mut [0u8; MOST_LENGTH], last, out);
}
