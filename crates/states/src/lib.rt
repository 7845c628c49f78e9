// What the calls say of a channel: as open gives it, at a place that seek brings it to, and a step on. And what lies between two places.
#![tactic(auto)]

ghost use Rattle.std.specs.Prelude.{◌≡◌};
ghost use Rattle.call_open.specs.Open.{open_reply};
ghost use Rattle.call_step.specs.Step.{step_reply};
ghost use Rattle.places.specs.Places.{gap_reply};
ghost use Rattle.pages.specs.Cells.{of_shown};
ghost use Rattle.states.specs.States.{generator_of, field_of, opened_cell, of_reached, reach_reply, reached_cell, same_channel, step_cell, gap_cell};

use engine::{Refusal, Sought};
use layout::{Coder, Field};
use machine::{Channel, Generator};
use pages::values::Value;
use pages::{CA, P};

// ---- fields

fn generator(ch: Channel, coder: Coder) -> Generator
    ensures { result ≡ generator_of ch coder }
{
    match coder {
        Coder::X1a | Coder::L2Cm | Coder::Xa => ch.first,
        Coder::X1b | Coder::L2Cl => ch.second,
        Coder::X2a => ch.third,
        Coder::X2b => ch.fourth,
    }
}

fn seen(sought: Sought, field: Field) -> Value
    ensures { result ≡ field_of sought.leaps sought.channel field }
{
    let ch = sought.channel;
    match field {
        Field::Leaps => Value::Count(u64::from(sought.leaps)),
        Field::Epoch => Value::Count(u64::from(ch.epoch)),
        Field::Register(coder) => Value::Register {
            signal: u64::from(ch.signal),
            stages: generator(ch, coder).register,
        },
        Field::Chip(coder) => Value::Chip(u64::from(generator(ch, coder).phase) + 1),
        Field::Phase(coder) => Value::Count(u64::from(generator(ch, coder).phase)),
        Field::Cycles(coder) => Value::Count(u64::from(generator(ch, coder).cycles)),
        Field::Hold(coder) => Value::Mode(generator(ch, coder).mode),
    }
}

// ---- places

// Where open and seek lead, or the refusal of the one that refused. Here and below a signal, a PRN and a place are numbers, as `engine::open`, `engine::seek`
// and `places::gap` take them: a `Signal` would be turned back at each call, and ask more of callers than a number.
#[tactic(auto, unfolding(crate::specs::States::reach_reply))]
pub fn reach(signal: u64, prn: u64, place: u64) -> Result<Sought, Refusal>
    ensures { of_reached result ≡ reach_reply signal prn place }
{
    let opened = engine::open(signal, prn)?;
    Ok(engine::seek(opened, place)?)
}

// A field of a channel as open gives it, or open's refusal.
pub fn at_open(signal: u64, prn: u64, field: Field) -> Result<Value, Refusal>
    ensures { of_shown result ≡ opened_cell (open_reply signal prn) field }
{
    let channel = engine::open(signal, prn)?;
    Ok(seen(Sought { leaps: 0, channel }, field))
}

// A field of a channel that open and seek brought to a place, in chips of the week, or their refusal.
pub fn at_place(signal: u64, prn: u64, place: u64, field: Field) -> Result<Value, Refusal>
    ensures { of_shown result ≡ reached_cell (reach_reply signal prn place) field }
{
    let sought = reach(signal, prn, place)?;
    Ok(seen(sought, field))
}

// ---- a step

// Whether two channels are the same, field by field.
fn same(a: Channel, b: Channel) -> bool
    ensures { result ≡ same_channel a b }
{
    a == b
}

// Whether P's step from there gives the opened channel.
pub fn step_from(place: u64) -> Result<Value, Refusal>
    ensures { of_shown result ≡ step_cell (reach_reply 2 1 place) }
{
    let sought = reach(P, 1, place)?;
    let stepped = engine::step(sought.channel)?;
    if same(stepped.channel, engine::open(P, 1)?) {
        Ok(Value::Opened)
    } else {
        Ok(Value::Another)
    }
}

// ---- a gap

// Between two places of C/A.
pub fn ca_gap(a: u64, b: u64) -> Result<Value, Refusal>
    ensures { of_shown result ≡ gap_cell (gap_reply 1 a b) }
{
    let chips = places::gap(CA, a, b)?;
    Ok(Value::Gap(chips))
}
