// The code of the grid, over numbers: its data places, as one number with row r in byte r, and the grid that has them.
//
// specs/Equations.antt has the parities of docs/FORMAT.md, specs/Code.antt their one solution for each data value, specs/Verdict.antt the
// verdict on a grid, in which an erased one is blank, and specs/Promises.antt what is proved of the code. The type and its calls are in the
// crate grid; the functions here are steps of them (specs/Steps.antt).
#![tactic(auto)]

ghost use Rattle.std.specs.Prelude.{◌≡◌, ◌%◌, ◌^◌};
ghost use Rattle.grid_code.specs.Equations.{data_of};
ghost use Rattle.grid_code.specs.Code.{codeword};
ghost use Rattle.grid_code.specs.Steps.{Arranged, RowChecks, Checks, Completed, Masked, Gathered, Coded};

// How far from the word read a codeword may be: the grid's radius.
pub const RADIUS: u32 = 7;

// The value that no number has: its grid is all ones, as Flash comes erased.
pub const ERASED: u16 = 65535;

pub const ALL_ONES: u64 = 0xFFFF_FFFF_FFFF_FFFF;

// The data places: data bit k goes to row k / 4, place k mod 4, of rows 0 to 3 as one number.
pub fn data_places(value: u16) -> u32
    ensures { Arranged value result }
{
    let v = u32::from(value);
    let pairs = (v ^ (v << 8)) & 0x00FF_00FF;
    (pairs ^ (pairs << 4)) & 0x0F0F_0F0F
}

// Rows 0 to 3 from their data places, all four rows at a time: each data place, set once more wherever it counts. Place 4 is the parity of
// places 0, 1, 2, place 5 that of 0, 2, 3, place 6 that of 1, 2, 3; so place 7, that of all before it, is that of 0, 1, 3. No two of the
// places set meet, so a sum sets them, and the compiler makes one product of it. Places 0 and 1 are taken where they stand, and places 2
// and 3 after one shift, the same for both.
fn upper(places: u32) -> u32
    ensures { result ≡ codeword (data_of places) % 2 ^ 32 }
{
    let a = places & 0x0101_0101;
    let b = places & 0x0202_0202;
    let moved = places >> 1;
    let c = moved & 0x0202_0202;
    let d = moved & 0x0404_0404;
    (a + (a << 4) + (a << 5) + (a << 7))
        ^ (b + (b << 3) + (b << 5) + (b << 6))
        ^ ((c << 1) + (c << 3) + (c << 4) + (c << 5))
        ^ ((d << 1) + (d << 3) + (d << 4) + (d << 5))
}

// Rows 4 to 7 from rows 0 to 3: the checks of rows that have nothing below them. Each of the four is the parity of all rows but one: row 4
// leaves out row 2, row 5 row 1, row 6 row 0, and row 7, since rows 4 to 6 add up to row 3, leaves out row 3. So each row takes the row two
// further on and the one opposite, and all move up by one. As one term, the rows in the other order are one instruction.
fn lower(rows: u32) -> u32
    ensures { Checks rows result }
{
    let pairs = rows ^ (rows << 16) ^ (rows >> 16);
    let turned = (rows << 24)
        ^ ((rows << 8) & 0x00FF_0000)
        ^ ((rows >> 8) & 0x0000_FF00)
        ^ (rows >> 24);
    let mixed = pairs ^ turned;
    (mixed << 8) ^ (mixed >> 24)
}

// The checks of each row, all eight rows at a time: what places 4 to 7 have beyond those of the row's data places, in places 0 to 3. The
// rows are made of their data places as `upper` makes four. One function for both misses the bar of `clean`: 52 instructions of 50.
pub fn row_checks(w: u64) -> u64
    ensures { RowChecks w result }
{
    let lowest = 0x0101_0101_0101_0101;
    let p0 = w & lowest;
    let p1 = (w >> 1) & lowest;
    let p2 = (w >> 2) & lowest;
    let p3 = (w >> 3) & lowest;
    let rows = (p0 + (p0 << 4) + (p0 << 5) + (p0 << 7))
        ^ ((p1 << 1) + (p1 << 4) + (p1 << 6) + (p1 << 7))
        ^ ((p2 << 2) + (p2 << 4) + (p2 << 5) + (p2 << 6))
        ^ ((p3 << 3) + (p3 << 5) + (p3 << 6) + (p3 << 7));
    (w ^ rows) >> 4
}

// The checks of each column: what rows 4 to 7 should be, and what they are. They are 0 where each column is in the column code.
pub fn column_checks(w: u64) -> u32
    ensures { Checks w result }
{
    lower((w & 0xFFFF_FFFF) as u32) ^ ((w >> 32) as u32)
}

// The grid with these data places. What else `places` has set counts for nothing.
pub fn completed(places: u32) -> u64
    ensures { Completed places result }
{
    let rows = upper(places);
    (u64::from(lower(rows)) << 32) | u64::from(rows)
}

// The data places of a grid.
pub fn places_of(w: u64) -> u32
    ensures { Masked w result }
{
    (w & 0x0F0F_0F0F) as u32
}

// The data that stands in the data places. What else `places` has set counts for nothing.
pub fn data_of(places: u32) -> u16
    ensures { Gathered places result }
{
    let nibbles = places & 0x0F0F_0F0F;
    let pairs = (nibbles ^ (nibbles >> 4)) & 0x00FF_00FF;
    ((pairs ^ (pairs >> 8)) & 0xFFFF) as u16
}

// The grid of a data value, also of 65,535, which is all ones.
pub fn encoded(value: u16) -> u64
    ensures { Coded value result }
{
    completed(data_places(value))
}
