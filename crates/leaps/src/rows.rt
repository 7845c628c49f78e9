// One row of a table applied to a register, and the count of rows applied.

ghost use Rattle.std.specs.Prelude.{◌≡◌, ◌<◌, ◌/◌, length};
ghost use Rattle.registers.specs.Row.{combine};
ghost use Rattle.leaps.specs.Leaps.{Room, rows_of, row_at, row_applied};
ghost use Rattle.leaps.specs.Digits.{WhereByDigits, at_digits};

use crate::Table;
use std::marker::Model;

// How many rows were applied. The number is private, so that outside this file a count can be begun at none, carried on and read, and nothing else: it
// rises by one in `apply_row`, and nowhere else. A caller that added up counts, or made one up, would not compile.
#[derive(Clone, Copy, Debug, PartialEq, Eq)]
pub struct Leaps {
    made: u32,
}

impl Model for Leaps {
    ghost use Rattle.std.specs.Prelude.{ℕ};

    ghost Value = { ℕ };

    ghost view = { λ l. l.made };

    ghost inverse = { λ n. record { made = n } };
}

impl Leaps {
    // None yet.
    pub fn none() -> Leaps
        ensures { result ≡ 0 }
    {
        Leaps { made: 0 }
    }

    // How many they are.
    pub fn number(self) -> u32
        ensures { result ≡ self }
    {
        self.made
    }
}

// A value, and how many rows were applied to bring it, and those before it, where they are. That a count has room for more is a clause of each function: it
// rises with each row, so what one type says of it another would have to say.
#[derive(Clone, Copy, Debug, PartialEq, Eq)]
pub struct Counted<T> {
    pub value: T,
    pub count: Leaps,
}

impl Counted<u32> {
    // Applies row k of a table to a register, however the row is kept, and is the one place where
    // the count rises.
    #[inline(always)]
    pub(crate) fn apply_row(self, table: Table<'_>, k: u32) -> Counted<u32>
        requires room { Room self }
        requires row_there { k < rows_of table.width table.entries.now }
        requires as_the_rows { WhereByDigits table.width table.entries.now table.by_digits.now }
        ensures { result ≡ row_applied (row_at table.entry.width table.entry.entries.now k) self }
    {
        let value = applied(table, k, self.value);
        let made = self.count.made + 1;
        Counted {
            value,
            count: Leaps { made },
        }
    }
}

// Row k applied to a register: by digits of the register where the table has its rows so, else by
// the row's numbers.
#[inline(always)]
fn applied(table: Table<'_>, k: u32, register: u32) -> u32
    requires row_there { k < rows_of table.width table.entries.now }
    requires as_the_rows { WhereByDigits table.width table.entries.now table.by_digits.now }
    ensures { result ≡ combine (row_at table.entry.width table.entry.entries.now k) register }
{
    if table.by_digits.is_empty() {
        let at = k as usize * table.width;
        return combined(&table.entries[at..at + table.width], register);
    }
    let long = (table.width + 3) / 4 * 16;
    let at = k as usize * long;
    combined_by_digits(&table.by_digits[at..at + long], register)
}

// The numbers of a row that stand where the register has a 1, added bit by bit modulo 2. Each is multiplied by the register's digit: a branch on it would be
// guessed wrong every other time.
#[inline(always)]
fn combined(row: &[u32], register: u32) -> u32
    ensures { result ≡ combine row.now register }
{
    let mut sum: u32 = 0;
    let mut rest = register;
    for entry in row {
        sum = sum ^ (rest % 2) * *entry;
        rest = rest / 2;
    }
    sum
}

// Of a row by digits, sixteen numbers a digit, those that stand at the register's digits to base
// 16, added bit by bit modulo 2.
#[inline(always)]
fn combined_by_digits(row: &[u16], register: u32) -> u32
    ensures { result ≡ at_digits (length row.now / 16) row.now register }
{
    let mut sum: u32 = 0;
    let mut rest = register;
    for digit in row.chunks_exact(16) {
        sum = sum ^ u32::from(digit[(rest % 16) as usize]);
        rest = rest / 16;
    }
    sum
}
