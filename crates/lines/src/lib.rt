// A line of the line program, and its reply. The four fields are cut first, and all else speaks of them.
#![tactic(auto)]

ghost use Rattle.std.specs.Prelude.{◌≡◌, true, false, ◌<◌, ◌≤◌, ◌+◌, ◌++◌, length, MatchResult};
ghost use Rattle.arrayvec.specs.ArrayVec.{array_vec_len};
ghost use Rattle.refusals.specs.Refusal.{number_of};
ghost use Rattle.refusals.specs.declared.Refusal.TheVariants as refusals;
ghost use Rattle.fields.specs.Fields.{is_number, value};
ghost use Rattle.texts.specs.Texts.{refused_line};
ghost use Rattle.lines.specs.Lines.{chips_asked, echoed, line_refusal, line_reply};
ghost use Rattle.gps_chips.specs.Chips.{by_the_machine, by_the_standards};
ghost use Rattle.lines.specs.Inner.{are_numbers_of, asked_of, answered_of, fields_reply_of, AreShort};

use arrayvec::ArrayVec;
use refusals::Refusal;

// The most chips that a line may ask for.
const MOST_COUNT: u64 = 64;

// Every reply fits in so many bytes: three numbers of 13 digits and 64 chips, or a refusal. Who appends one asks for them in a clause, as for the `ROOM` of
// answer_lines and for the reason there.
pub const ROOM: usize = 128;

// The four fields of a line.
#[derive(Clone, Copy, Debug, PartialEq, Eq)]
struct Fields<'a> {
    signal: &'a [u8],
    prn: &'a [u8],
    place: &'a [u8],
    count: &'a [u8],
}

// What a line asks for. Apart from `Fields`: one type over what a field is would have an `impl` for each of the two, and no function of both.
#[derive(Clone, Copy, Debug, PartialEq, Eq)]
struct Asked {
    signal: u64,
    prn: u64,
    place: u64,
    count: u64,
}

fn number(field: &[u8]) -> Result<u64, Refusal>
    ensures { MatchResult result (λ n. (is_number field.now ≡ true) × (n ≡ value field.now) × (length field.now ≤ 13))
        (λ e. (is_number field.now ≡ false) × (e ≡ refusals.Line)) }
{
    fields::number(field).ok_or(Refusal::Line)
}

impl<'a> Fields<'a> {
    // What stands before the first three spaces, and all that is left.
    #[tactic(auto, unfolding(crate::specs::Lines::line_reply))]
    fn of(line: &'a [u8]) -> Fields<'a>
        ensures { fields_reply_of result ≡ line_reply by_the_machine line.now }
    {
        let (signal, rest) = fields::split(line);
        let (prn, rest) = fields::split(rest);
        let (place, count) = fields::split(rest);
        Fields {
            signal,
            prn,
            place,
            count,
        }
    }

    // The four numbers.
    fn asked(self) -> Result<Asked, Refusal>
        ensures { MatchResult result (λ a. (are_numbers_of self.entry ≡ true) × AreShort self.entry × (a ≡ asked_of self.entry))
            (λ e. (are_numbers_of self.entry ≡ false) × (e ≡ refusals.Line)) }
    {
        Ok(Asked {
            signal: number(self.signal)?,
            prn: number(self.prn)?,
            place: number(self.place)?,
            count: number(self.count)?,
        })
    }
}

impl Asked {
    // How many chips Chips is asked for.
    #[tactic(auto, using(crate::proofs::LineReplies::few_asked, crate::proofs::LineReplies::none_asked))]
    fn chip_count(self) -> usize
        ensures value { result ≡ chips_asked self.count }
        ensures few { result ≤ 64 }
    {
        if self.count <= MOST_COUNT {
            self.count as usize
        } else {
            0
        }
    }

    // Fills a buffer of as many bytes as Chips is asked for with the chips. Where the line may not
    // ask for so many, that is refused last.
    fn chips(self, buffer: &mut [u8]) -> Result<(), Refusal>
        requires { length buffer.old ≡ chips_asked self.count }
        ensures { MatchResult result
            (λ _. (line_refusal self.signal self.prn self.place self.count ≡ 0) × (buffer.new ≡ by_the_machine self.signal self.prn self.place self.count))
            (λ e. line_refusal self.signal self.prn self.place self.count ≡ number_of e) }
    {
        gps_chips::gps_chips(self.signal, self.prn, self.place, buffer)?;
        if self.count == 0 || MOST_COUNT < self.count {
            return Err(Refusal::Count);
        }
        Ok(())
    }
}

// A number, leading zeros dropped, and a space, behind what stands there.
fn append_number<const N: usize>(field: &[u8], out: &mut ArrayVec<u8, N>)
    requires room { array_vec_len out.old + length field.now < N }
    ensures appended { out.new.items ≡ out.old.items ++ echoed field.now }
    ensures short { array_vec_len out.new ≤ array_vec_len out.old + length field.now + 1 }
{
    texts::append(fields::without_zeros(field), out);
    out.push(b' ');
}

// The first three numbers and the chips, behind what stands there.
fn append_answer<const N: usize>(fields: Fields, chips: &[u8], out: &mut ArrayVec<u8, N>)
    requires short { AreShort fields }
    requires few_chips { length chips.now ≤ 64 }
    requires room { array_vec_len out.old + ROOM ≤ N }
    ensures { out.new.items ≡ out.old.items ++ answered_of fields.entry chips.now }
{
    append_number(fields.signal, out);
    append_number(fields.prn, out);
    append_number(fields.place, out);
    texts::append_chips(chips, out);
    out.push(b'\n');
}

// The reply to four fields, behind what stands there, unless it is a refusal: then nothing is written.
#[tactic(auto, unfolding(crate::specs::Lines::fields_reply), using(crate::proofs::LineReplies::reply_refused))]
fn answer<const N: usize>(fields: Fields, out: &mut ArrayVec<u8, N>) -> Result<(), Refusal>
    requires room { array_vec_len out.old + ROOM ≤ N }
    ensures { MatchResult result (λ _. out.new.items ≡ out.old.items ++ fields_reply_of fields.entry)
        (λ e. (out.new ≡ out.old) × (fields_reply_of fields.entry ≡ refused_line (number_of e))) }
{
    let asked = fields.asked()?;
    let mut buffer = [0u8; MOST_COUNT as usize];
    let chips = &mut buffer[..asked.chip_count()];
    asked.chips(chips)?;
    append_answer(fields, chips, out);
    Ok(())
}

// The reply to a line, behind what stands there: its chips are the machine's, and the standards'.
#[tactic(auto, using(crate::proofs::ByTheStandards::reply_by_the_standards))]
pub fn reply<const N: usize>(line: &[u8], out: &mut ArrayVec<u8, N>)
    requires room { array_vec_len out.old + ROOM ≤ N }
    ensures by_the_machine { out.new.items ≡ out.old.items ++ line_reply by_the_machine line.now }
    ensures by_the_standards { out.new.items ≡ out.old.items ++ line_reply by_the_standards line.now }
{
    if let Err(refusal) = answer(Fields::of(line), out) {
        texts::append_refused(refusal, out);
    }
}
