// A trial's step over the columns: some rows of a word are set aside, others may be wrong, and the word of the column code is found that
// agrees with the rest. A word has row r in byte r, so the columns are solved all eight at a time, a whole row each.
//
// specs/Columns.antt says what a caller gets, specs/Steps.antt what the steps in between compute. A row that is wrong shows in the four
// checks of the columns (grid_code::column_checks): its error stands in each check that the row takes part in. No two rows take part in the
// same checks.
#![tactic(auto)]

ghost use Rattle.std.specs.Prelude.{◌≡◌, ◌≢◌, suc, ◌*◌, ◌^◌, ◌<◌, get_or, IfNone, IfSome};
ghost use Rattle.std.specs.Int.Bits.{bit_and, bit_xor};
ghost use Rattle.words.specs.Word.{bit, picked, sum_to};
ghost use Rattle.words.specs.Digits.{digits};
ghost use Rattle.grid_columns.specs.Columns.{Held, Solved};
ghost use Rattle.grid_columns.specs.Steps.{parts, rows_by_halves, parity_of, OneByte, Asides, Taken, One, Paired, Beside, Mends, Tested};

// For each row: bit k is set where the row takes part in check k.
const PARTS: [u8; 8] = [11, 13, 14, 7, 1, 2, 4, 8];

// The rows by these numbers without bit 0: all have an odd count of bits, so the others tell it.
const ROWS: [u8; 8] = [4, 5, 6, 3, 7, 0, 1, 2];

// One of the four checks.
#[derive(Clone, Copy)]
struct Check {
    index: u32,
    ghost below: { index < 4 },
}

impl Check {
    // What stands in it. By `to_le_bytes` a clean grid misses its bar, 51 of 50.
    fn of(self, checks: u32) -> u8
        ensures { result ≡ get_or (digits 8 4 checks) self.index 0 }
    {
        ((checks >> (8 * self.index)) & 255) as u8
    }
}

// A row of a word.
#[derive(Clone, Copy)]
struct Row {
    index: u32,
    ghost below: { index < 8 },
}

impl Row {
    // The row that takes part in these of checks 1 to 3: bit 0 is set for check 1, and so on.
    fn in_checks(half: u32) -> Row
        requires { half < 8 }
        ensures { result.index ≡ get_or rows_by_halves half 0 }
    {
        Row {
            index: u32::from(ROWS[half as usize]),
        }
    }

    // The checks that it takes part in: bit k is set for check k.
    fn parts(self) -> u32
        ensures { result ≡ get_or parts self.index 0 }
    {
        u32::from(PARTS[self.index as usize])
    }

    // A check in which only one of two rows takes part.
    fn check_apart(self, other: Row) -> Check
        requires { self.index ≢ other.index }
        ensures { bit (bit_xor (get_or parts self.index 0) (get_or parts other.index 0)) result.index ≡ 1 }
    {
        Check {
            index: (self.parts() ^ other.parts()).trailing_zeros(),
        }
    }
}

// The rows that are set aside: place 0 of each is set, and no other place.
#[derive(Drop)]
struct Aside {
    marks: u64,
    ghost only_marks: { Asides marks },
}

impl Aside {
    fn new(marks: u64) -> Aside
        ensures { result.marks ≡ bit_and marks 0x0101_0101_0101_0101 }
    {
        Aside {
            marks: marks & 0x0101_0101_0101_0101,
        }
    }

    // Takes the first row out.
    fn pop_first(&mut self) -> Option<Row>
        ensures some { IfSome result (λ row. Taken self.old.marks row.index self.new.marks) }
        ensures none { IfNone result (self.old.marks ≡ 0) }
    {
        if self.marks == 0 {
            return None;
        }
        let row = Row {
            index: self.marks.trailing_zeros() / 8,
        };
        self.marks = flipped(self.marks, 1, row);
        Some(row)
    }
}

// The word with `error` added to a row.
fn flipped(w: u64, error: u8, row: Row) -> u64
    ensures { result ≡ bit_xor w (error * 2 ^ (8 * row.index)) }
{
    w ^ (u64::from(error) << (8 * row.index))
}

// All rows added up. In the column code that is 0.
fn parity(w: u64) -> u8
    ensures { result ≡ parity_of w }
{
    let halves = w ^ (w >> 32);
    let quarters = halves ^ (halves >> 16);
    ((quarters ^ (quarters >> 8)) & 255) as u8
}

// The word with `error` added to two rows.
fn both_flipped(w: u64, error: u8, i: Row, j: Row) -> u64
    ensures { result ≡ bit_xor (bit_xor w (error * 2 ^ (8 * i.index))) (error * 2 ^ (8 * j.index)) }
{
    flipped(flipped(w, error, i), error, j)
}

// The rows with all errors added to one row, so that the errors that are left add up to 0.
fn evened(rows: u64, row: Row) -> u64
    ensures { result ≡ bit_xor rows (parity_of rows * 2 ^ (8 * row.index)) }
{
    flipped(rows, parity(rows), row)
}

// A check that is not 0, the lowest one, or 0 where all are.
fn lowest(checks: u32) -> u8
    ensures { OneByte checks result }
{
    let first = Check {
        index: checks.trailing_zeros() / 8 % 4,
    };
    first.of(checks)
}

// Which of checks 1 to 3 are not 0: bit 0 for check 1, and so on.
fn nonzero(checks: u32) -> u32
    ensures { result ≡ sum_to 3 (λ k. picked (get_or (digits 8 4 checks) (suc k) 0) (2 ^ k)) }
{
    let [_, first, second, third] = checks.to_le_bytes();
    u32::from(first != 0) + 2 * u32::from(second != 0) + 4 * u32::from(third != 0)
}

// No row is set aside, and one is wrong: the checks that are not 0 say which.
fn one(rows: u64) -> u64
    ensures { One rows result }
{
    evened(
        rows,
        Row::in_checks(nonzero(grid_code::column_checks(rows))),
    )
}

// Rows i and j have the same error. It stands in the checks in which one of the two takes part.
fn paired(even: u64, i: Row, j: Row) -> u64
    ensures { Paired even i.index j.index result }
{
    both_flipped(even, lowest(grid_code::column_checks(even)), i, j)
}

// Rows i and j are set aside. Evened out, they have the same error.
fn two(rows: u64, i: Row, j: Row) -> u64
    requires { i.index ≢ j.index }
    ensures { Mends (λ q. (q ≢ i.index) × (q ≢ j.index)) rows result }
{
    paired(evened(rows, i), i, j)
}

// Row i is set aside, and one more is wrong: evened out, the checks that are not 0 say which.
fn beside(rows: u64, i: Row) -> u64
    ensures { Beside rows i.index result }
{
    let even = evened(rows, i);
    let found = nonzero(grid_code::column_checks(even));
    paired(even, i, Row::in_checks(found ^ (i.parts() >> 1)))
}

// Rows i, j and k are set aside. Evened out, row i has the errors of both others, and a check in which one of those takes part has one of
// their errors: row j's if one of rows i and j takes part in it, and else row k's. With that undone, two rows have the same error.
fn three(rows: u64, i: Row, j: Row, k: Row) -> u64
    requires { (i.index ≢ j.index) × (i.index ≢ k.index) × (j.index ≢ k.index) }
    ensures { Mends (λ q. (q ≢ i.index) × (q ≢ j.index) × (q ≢ k.index)) rows result }
{
    let even = evened(rows, i);
    let at = j.check_apart(k);
    let error = at.of(grid_code::column_checks(even));
    // One test for both rows: with one for each a clean grid misses its bar, 51 of 50.
    if ((i.parts() ^ j.parts()) >> at.index) & 1 == 1 {
        return paired(both_flipped(even, error, i, j), i, k);
    }
    paired(both_flipped(even, error, i, k), i, j)
}

// Whether each column is in the column code.
pub fn hold(rows: u64) -> bool
    ensures { Held rows result }
{
    grid_code::column_checks(rows) == 0
}

// The word, if its columns hold.
fn tested(rows: u64) -> Option<u64>
    ensures { Tested rows result }
{
    hold(rows).then_some(rows)
}

// The rows that have place 0 marked are set aside. With one of them or none, one other row may be wrong; with more than three there is no
// answer. A step changes no rows but those that may be wrong, so it is enough to test the columns at the end.
pub fn solved(rows: u64, marks: u64) -> Option<u64>
    ensures { Solved rows marks result }
{
    let mut aside = Aside::new(marks);
    let Some(i) = aside.pop_first() else {
        return tested(one(rows));
    };
    let Some(j) = aside.pop_first() else {
        return tested(beside(rows, i));
    };
    let Some(k) = aside.pop_first() else {
        return tested(two(rows, i, j));
    };
    match aside.pop_first() {
        None => tested(three(rows, i, j, k)),
        Some(_) => None,
    }
}
