// P by place: its chips from any place of the week on, with no register, no step and no delay line.
// IS-GPS-200 3.3.2.2: X1 is X1A plus X1B, X2 is X2A plus X2B, and P of PRN i is X1 plus the X2 of i
// chips before. So all that a place asks for is where each of the four generators stands.
#![tactic(auto)]

ghost use Rattle.std.specs.Prelude.{◌≡◌, ℕ, ◌+◌, ◌-◌, ◌%◌, ◌<◌, ◌≤◌, eqb, slice_index, length, map, min};
ghost use Rattle.machine.specs.Signals.{week_p, places_from};
ghost use Rattle.week.specs.Week.{course_x1a, course_x1b, course_x2a, course_x2b};
ghost use Rattle.standard.specs.Standard.{standard};
ghost use Rattle.columns.specs.Columns.{Round};
ghost use Rattle.by_place_p.specs.Feeds.{Plan, Feeds, Same, chip_x1a, chip_x1b, chip_x2a, chip_x2b};

use columns::Four;
use machine::WEEK_P;
use registers::{X1A, X1B, X2A, X2B};
use starts::Prn;
use week::{Course, Coursed};

// ---- a generator

// The chips of a generator from a place on: those of a table of columns from a phase on, round the
// cycle, for as many places as are left to the next hold, or to the end of the present one.
#[derive(Clone, Copy)]
struct Source {
    columns: &'static [u8],
    phase: usize,
    left: u64,
}

static ZEROS: [u8; 4108] = [0; 4108];

static ONES: [u8; 4108] = [255; 4108];

// The columns of the same chip over and over, in whatever cycle of the four.
#[inline(always)]
fn same(one: bool) -> &'static [u8]
    ensures { Same one result.now }
{
    if one { &ONES } else { &ZEROS }
}

// A generator that is held at a phase: it gives that phase's chip over and over.
#[inline(always)]
fn held(columns: &'static [u8], phase: u64, left: u64) -> Source
    requires { phase < length columns.now }
    ensures columns { Same (eqb (slice_index columns.now phase % 2) 1) result.columns.now }
    ensures phase { result.phase ≡ 0 }
    ensures left { result.left ≡ left }
{
    let one = columns[phase as usize] % 2 == 1;
    Source {
        columns: same(one),
        phase: 0,
        left,
    }
}

// A generator at a place of its week. In a period it runs through its cycles, and then it is held
// at the last of their chips until the period ends: X1B in its 3,749th cycle until X1A's 3,750th is
// finished, X2A and X2B until 37 chips later. In the week's last X1A cycle X2A and X2B are held from
// their stop on until the week ends. X1A itself is never held.
#[inline(always)]
fn standing(columns: &'static [u8], c: Course, place: u64) -> Source
    requires room { c.cycle + 15 ≤ length columns.now }
    requires plan { Plan c }
    requires within { place < c.week }
    ensures { (x : ℕ → ℕ) → Round columns.now c.cycle x → Feeds result c x place }
{
    if place < c.stop {
        let n = place % c.period;
        let stop = c.stop - place;
        if n < c.runs {
            Source {
                columns,
                phase: (n % c.cycle) as usize,
                left: (c.runs - n).min(stop),
            }
        } else {
            held(columns, c.runs % c.cycle, (c.period - n).min(stop))
        }
    } else {
        held(columns, c.stop % c.period % c.cycle, c.week - place)
    }
}

// ---- the four

// The place whose X2 chip a PRN adds at a place: as many chips before as its number says, round the
// week.
#[inline(always)]
fn place_of_x2(prn: Prn, place: u64) -> u64
    requires { place < week_p }
    ensures { result ≡ (place + (week_p - prn.number)) % week_p }
{
    (place + (WEEK_P - u64::from(prn.number))) % WEEK_P
}

// The four generators, each at the place that its chip is taken from.
#[derive(Clone, Copy)]
struct Sources {
    x1a: Source,
    x1b: Source,
    x2a: Source,
    x2b: Source,
}

// X1A and X1B at a place, X2A and X2B at the place that the PRN's delay leads back to.
#[inline(always)]
fn sources_at(prn: Prn, place: u64) -> Sources
    requires { place < week_p }
    ensures x1a { Feeds result.x1a course_x1a chip_x1a place }
    ensures x1b { Feeds result.x1b course_x1b chip_x1b place }
    ensures x2a { Feeds result.x2a course_x2a chip_x2a ((place + (week_p - prn.number)) % week_p) }
    ensures x2b { Feeds result.x2b course_x2b chip_x2b ((place + (week_p - prn.number)) % week_p) }
{
    let before = place_of_x2(prn, place);
    Sources {
        x1a: standing(columns::x1a(), X1A::course(), place),
        x1b: standing(columns::x1b(), X1B::course(), place),
        x2a: standing(columns::x2a(), X2A::course(), before),
        x2b: standing(columns::x2b(), X2B::course(), before),
    }
}

impl Sources {
    // For how many places all four go on as they do.
    #[inline(always)]
    fn left(&self) -> u64
        ensures { result ≡ min (min self.now.x1a.left self.now.x1b.left) (min self.now.x2a.left self.now.x2b.left) }
    {
        let x1 = self.x1a.left.min(self.x1b.left);
        let x2 = self.x2a.left.min(self.x2b.left);
        x1.min(x2)
    }

    // Their phases.
    #[inline(always)]
    fn phases(&self) -> Four
        ensures { result ≡ record { a = self.now.x1a.phase; b = self.now.x1b.phase; c = self.now.x2a.phase; d = self.now.x2b.phase } }
    {
        Four {
            a: self.x1a.phase,
            b: self.x1b.phase,
            c: self.x2a.phase,
            d: self.x2b.phase,
        }
    }
}

// ---- P

// Writes the chips of P of a PRN from a place on, round the week, over a slice: run by run, each up
// to where one of the generators is next held or let go, a few times in 15 million chips.
pub fn write(prn: Prn, place: u64, out: &mut [u8])
    requires { place < week_p }
    ensures { out.new ≡ map (standard 2 prn.number) (places_from week_p place (length out.old)) }
{
    let mut here = place;
    let mut written: usize = 0;
    while written < out.len() {
        let four = sources_at(prn, here);
        let rest = (out.len() - written) as u64;
        let n = four.left().min(rest) as usize;
        columns::write_four(
            four.x1a.columns,
            four.x1b.columns,
            four.x2a.columns,
            four.x2b.columns,
            four.phases(),
            &mut out[written..written + n],
        );
        written += n;
        here = (here + n as u64) % WEEK_P;
    }
}
