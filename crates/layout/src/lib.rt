// The layout of the tables and of the known places: what is seen of a channel, and of which PRNs or at which places a table has its rows, unless it has one
// for each PRN from 1 to 37. No call of the engine.
#![tactic(auto)]

ghost use Rattle.std.specs.Prelude.{◌≡◌, ◌+◌, ◌*◌, ◌%◌, ◌≤◌, Some};
ghost use Rattle.layout.specs.Coder.{name_of};

use arrayvec::ArrayString;
use machine::{LAST_CYCLE_X1A, WEEK_P};
use std::fmt;
use std::fmt::Write;

// ---- what is seen of a channel

// A code generator, by the name that the standards give it.
#[derive(Clone, Copy, Debug, PartialEq, Eq)]
pub enum Coder {
    X1a,
    X1b,
    X2a,
    X2b,
    L2Cm,
    L2Cl,
    Xa,
}

impl fmt::Display for Coder {
    ghost output = { λ coder. Some (name_of coder) };

    fn fmt<W: fmt::Write>(&self, f: &mut fmt::Formatter<W>) -> fmt::Result {
        f.pad(match self {
            Coder::X1a => "X1A",
            Coder::X1b => "X1B",
            Coder::X2a => "X2A",
            Coder::X2b => "X2B",
            Coder::L2Cm => "L2 CM",
            Coder::L2Cl => "L2 CL",
            Coder::Xa => "XA",
        })
    }
}

#[derive(Clone, Copy, Debug, PartialEq, Eq)]
pub enum Field {
    // The leaps that seek told.
    Leaps,
    Epoch,
    Register(Coder),
    // The number of the chip in its cycle. It counts from 1, where a phase counts from 0.
    Chip(Coder),
    Phase(Coder),
    Cycles(Coder),
    Hold(Coder),
}

// ---- rows

// Table 3-VI: the places of its rows, which are X1A's chips 1, 3,023, 3,127, 3,749 and 4,092 of its last cycle of the week.
pub const RESETS: [u64; 5] = [
    LAST_CYCLE_X1A,
    LAST_CYCLE_X1A + 3_022,
    LAST_CYCLE_X1A + 3_126,
    LAST_CYCLE_X1A + 3_748,
    LAST_CYCLE_X1A + 4_091,
];

// Table 3-VII: the places of the last two chips of each generator's first cycle, and where its next cycle begins.
pub const CYCLE_ENDS: [(Coder, u64, u64); 8] = [
    (Coder::X1a, 4_090, 4_092),
    (Coder::X1a, 4_091, 4_092),
    (Coder::X1b, 4_091, 4_093),
    (Coder::X1b, 4_092, 4_093),
    (Coder::X2a, 4_090, 4_092),
    (Coder::X2a, 4_091, 4_092),
    (Coder::X2b, 4_091, 4_093),
    (Coder::X2b, 4_092, 4_093),
];

// Tables 6-III and 6-IV: the PRNs of their rows.
pub const SELECTED: [u8; 13] = [1, 2, 37, 38, 74, 75, 111, 112, 148, 149, 185, 186, 210];

// Chips of P of a day.
const DAY: u64 = 883_872_000_000;

// Whose P-code a PRN has. One above 37 has that of another, whole days on.
#[derive(Clone, Copy, Debug, PartialEq, Eq)]
pub struct Selected {
    pub prn: u64,
    pub days: u64,
    ghost within_a_week: { days ≤ 6 },
}

// By its number, 1 to 210 in the tables: PRN 38 has the code of PRN 1 a day on. Any number is taken; 0 gives 0.
impl From<u8> for Selected {
    ghost from_gives = { λ prn s. (s.prn + 37 * s.days ≡ prn) × (s.prn ≤ 37) × (1 ≤ prn → 1 ≤ s.prn) };

    fn from(prn: u8) -> Selected {
        let number = u64::from(prn);
        let days = number.saturating_sub(1) / 37;
        Selected {
            prn: number - 37 * days,
            days,
        }
    }
}

impl Selected {
    // The place of that P-code where its own week begins.
    pub fn first(self) -> u64
        ensures { result ≡ self.days * 883872000000 }
    {
        self.days * DAY
    }

    // The place of the 1,024th chip before that one, round the week.
    pub fn last_1024(self) -> u64
        ensures { result ≡ (self.days * 883872000000 + 6187103998976) % 6187104000000 }
    {
        (self.first() + (WEEK_P - 1_024)) % WEEK_P
    }
}

// Its name: P37(t+24) is the P-code of PRN 37, 24 hours on. No `ghost output`: of the tables' text contracts
// tell the generators' names alone, and the gate compares all of it.
impl fmt::Display for Selected {
    fn fmt<W: fmt::Write>(&self, f: &mut fmt::Formatter<W>) -> fmt::Result {
        // A number of up to 20 digits, one of up to 3, and five signs.
        let mut name = ArrayString::<28>::new();
        write!(name, "P{}(t", self.prn)?;
        if 0 < self.days {
            write!(name, "+{}", self.days * 24)?;
        }
        write!(name, ")")?;
        f.pad(name.as_str())
    }
}
