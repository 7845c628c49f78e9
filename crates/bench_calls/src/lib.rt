// The calls on a channel for C, with a channel in plain numbers, for `make bench` alone: it times them through these. Nothing of it is installed.
#![tactic(auto)]

ghost use Rattle.std.specs.Prelude.{◌≡◌, [], ◌∷◌, length};
ghost use Rattle.call_open.specs.Open.{open_reply};
ghost use Rattle.call_seek.specs.Seek.{seek_reply};
ghost use Rattle.call_step.specs.Step.{step_reply};
ghost use Rattle.call_window.specs.Window.{window_reply};
ghost use Rattle.bench_calls.specs.Numbers.{mode_of, generator_of, channel_of, numbers_of_generator, numbers_of, told, opened_numbers, opened_refusal};

use machine::{Channel, Generator, Mode};

// A generator in numbers that C has too: `machine::Generator`.
#[repr(C)]
#[derive(Clone, Copy)]
pub struct GeneratorNumbers {
    pub register: u32,
    pub phase: u32,
    pub cycles: u32,
    // Whether it is held, and if so the chips still to repeat.
    pub held: bool,
    pub left: u32,
}

// A channel in numbers that C has too: `machine::Channel`. Any numbers are a channel, and the calls
// judge them; but each `held` is a `bool`, and C has to pass 0 or 1 there, for no other byte is one.
#[repr(C)]
#[derive(Clone, Copy)]
pub struct Numbers {
    pub signal: u32,
    pub prn: u32,
    pub place: u64,
    pub epoch: u32,
    pub delay: u64,
    pub first: GeneratorNumbers,
    pub second: GeneratorNumbers,
    pub third: GeneratorNumbers,
    pub fourth: GeneratorNumbers,
}

// ---- to and fro

fn mode(held: bool, left: u32) -> Mode
    ensures { result ≡ mode_of held left }
{
    if held {
        Mode::Held(left)
    } else {
        Mode::Running
    }
}

fn generator(n: GeneratorNumbers) -> Generator
    ensures { result ≡ generator_of n }
{
    Generator {
        register: n.register,
        phase: n.phase,
        cycles: n.cycles,
        mode: mode(n.held, n.left),
    }
}

fn channel(n: Numbers) -> Channel
    ensures { result ≡ channel_of n }
{
    Channel {
        signal: n.signal,
        prn: n.prn,
        place: n.place,
        epoch: n.epoch,
        delay: n.delay,
        first: generator(n.first),
        second: generator(n.second),
        third: generator(n.third),
        fourth: generator(n.fourth),
    }
}

fn generator_in_numbers(g: Generator) -> GeneratorNumbers
    ensures { result ≡ numbers_of_generator g }
{
    let (held, left) = match g.mode {
        Mode::Running => (false, 0),
        Mode::Held(left) => (true, left),
    };
    GeneratorNumbers {
        register: g.register,
        phase: g.phase,
        cycles: g.cycles,
        held,
        left,
    }
}

fn in_numbers(ch: Channel) -> Numbers
    ensures { result ≡ numbers_of ch }
{
    Numbers {
        signal: ch.signal,
        prn: ch.prn,
        place: ch.place,
        epoch: ch.epoch,
        delay: ch.delay,
        first: generator_in_numbers(ch.first),
        second: generator_in_numbers(ch.second),
        third: generator_in_numbers(ch.third),
        fourth: generator_in_numbers(ch.fourth),
    }
}

// ---- the calls

// The opened channel of a signal and a PRN. Answers 0, or the refusal, and then the numbers stay.
#[unsafe(no_mangle)]
pub extern "C" fn bench_open(signal: u64, prn: u64, ch: &mut Numbers) -> u32
    ensures opened { ch.new ≡ opened_numbers (open_reply signal prn) ch.old }
    ensures answer { result ≡ opened_refusal (open_reply signal prn) }
{
    match engine::open(signal, prn) {
        Ok(opened) => {
            *ch = in_numbers(opened);
            0
        }
        Err(refusal) => refusal.number(),
    }
}

// Brings the channel to a place of the week and answers the leaps that led there; 0 where it is refused.
#[unsafe(no_mangle)]
pub extern "C" fn bench_seek(ch: &mut Numbers, place: u64) -> u32
    ensures channel { ch.new ≡ numbers_of (seek_reply (channel_of ch.old) place).channel }
    ensures leaps { result ≡ told (seek_reply (channel_of ch.old) place).leaps }
{
    match engine::seek(channel(*ch), place) {
        Ok(sought) => {
            *ch = in_numbers(sought.channel);
            sought.leaps
        }
        Err(refused) => {
            *ch = in_numbers(refused.channel);
            0
        }
    }
}

// Moves the channel a step on and answers the chip it was at; 0 where it is refused.
#[unsafe(no_mangle)]
pub extern "C" fn bench_step(ch: &mut Numbers) -> u8
    ensures channel { ch.new ≡ numbers_of (step_reply (channel_of ch.old)).channel }
    ensures chip { result ≡ told (step_reply (channel_of ch.old)).chips }
{
    match engine::step(channel(*ch)) {
        Ok(stepped) => {
            *ch = in_numbers(stepped.channel);
            stepped.chip
        }
        Err(refused) => {
            *ch = in_numbers(refused.channel);
            0
        }
    }
}

// Fills the whole buffer with the channel's next chips and moves it by them. Answers 0, or the refusal.
#[unsafe(no_mangle)]
pub extern "C" fn bench_window(ch: &mut Numbers, buffer: &mut [u8]) -> u32
    ensures channel { ch.new ≡ numbers_of (window_reply (channel_of ch.old) (length buffer.old) buffer.old 0).channel }
    ensures buffer { buffer.new ∷ [] ≡ (window_reply (channel_of ch.old) (length buffer.old) buffer.old 0).buffers }
    ensures answer { result ≡ (window_reply (channel_of ch.old) (length buffer.old) buffer.old 0).refused }
{
    let length = buffer.len() as u64;
    match engine::window(channel(*ch), length, buffer, 0) {
        Ok(next) => {
            *ch = in_numbers(next);
            0
        }
        Err(refused) => {
            *ch = in_numbers(refused.channel);
            refused.refusal.number()
        }
    }
}
