// The rows of a grid: as one number, row r in byte r, lowest byte first; and each row repaired by itself. The row code has distance 4: one
// flip is undone, and of two it is known that there are two.
//
// specs/Rows.antt says what each public function computes, and what a repaired row is.
#![tactic(auto)]

ghost use Rattle.std.specs.Prelude.{◌≡◌};
ghost use Rattle.grid_rows.specs.Rows.{Packed, Unpacked, RepairedRows};

// The rows as a number, ..
pub fn number(rows: [u8; 8]) -> u64
    ensures { Packed rows result }
{
    u64::from_le_bytes(rows)
}

// .. and the rows of a number.
pub fn of_number(w: u64) -> [u8; 8]
    ensures { Unpacked w result }
{
    w.to_le_bytes()
}

// For the checks of a row: the flips that make a row of the row code, two at most. Where there are two, one is place 7.
const FLIPS: [u8; 16] = [
    0x00, 0x10, 0x20, 0x81, 0x40, 0x82, 0x88, 0x04, 0x80, 0x90, 0xA0, 0x01, 0xC0, 0x02, 0x08, 0x84,
];

// The rows copied, and each repaired to a row of the row code. By number: of a zip with `iter_mut` no proof knows what it leaves.
pub fn repaired(rows: [u8; 8]) -> [u8; 8]
    ensures { RepairedRows rows result }
{
    let checks = of_number(grid_code::row_checks(number(rows)));
    let mut copy = rows;
    for r in 0..8 {
        copy[r] = rows[r] ^ FLIPS[usize::from(checks[r])];
    }
    copy
}
