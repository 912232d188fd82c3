// The library's calls on plain numbers, for the tests and for counting instructions. No part of the product.
#![tactic(auto)]

ghost use Rattle.std.specs.Prelude.{◌≡◌, get_or};
ghost use Rattle.words.specs.Digits.{digits};
ghost use Rattle.grid_code.specs.Code.{code_of_grid};
ghost use Rattle.grid.specs.Answer.{verdict_of};
ghost use Rattle.harness.specs.Exports.{GridEncoded, packed, Decoding};

use grid::{Grid, Verdict};
use refusals::Refusal;

mod blocks;

// The grid of `value`: its number goes to `grid`, and 0 where it is refused. The number of the refusal is returned, and 0 where there is
// none.
#[unsafe(no_mangle)]
pub extern "C" fn grid_encode(value: u16, grid: &mut u64) -> u32
    ensures { GridEncoded value result grid.new }
{
    let encoding = Grid::encode(value);
    *grid = u64::from(encoding.unwrap_or_default());
    match encoding {
        Ok(_) => 0,
        Err(why) => why.number(),
    }
}

// To rows and back.
#[unsafe(no_mangle)]
pub extern "C" fn grid_there_and_back(w: u64) -> u64
    ensures { result ≡ w }
{
    u64::from(Grid::from(w))
}

// Row `r` of the grid with the number `w`, and 0 where there is no such row.
#[unsafe(no_mangle)]
pub extern "C" fn grid_row(w: u64, r: u64) -> u8
    ensures { result ≡ get_or (digits 8 8 w) r 0 }
{
    let rows = Grid::from(w).rows;
    if r < 8 { rows[r as usize] } else { 0 }
}

#[unsafe(no_mangle)]
pub extern "C" fn grid_radius() -> u32
    ensures { result ≡ code_of_grid.radius }
{
    Grid::RADIUS
}

#[unsafe(no_mangle)]
pub extern "C" fn grid_length() -> u32
    ensures { result ≡ code_of_grid.places }
{
    Grid::LENGTH
}

#[unsafe(no_mangle)]
pub extern "C" fn grid_distance() -> u32
    ensures { result ≡ 16 }
{
    Grid::DISTANCE
}

// An answer as one number: the data, the flips from bit 16 on, the number of a refusal from bit 24 on, the trials from bit 28 on, and bit 32
// where the grid is blank.
fn packed(verdict: Verdict, trials: u32) -> u64
    ensures { result ≡ packed (verdict_of verdict) trials }
{
    let made = u64::from(trials) * 0x1000_0000;
    match verdict {
        Verdict::Clean(data) => u64::from(data) + made,
        Verdict::Blank { flips } => u64::from(flips) * 65536 + 0x0001_0000_0000 + made,
        Verdict::Mended { data, flips } => u64::from(data) + u64::from(flips) * 65536 + made,
        Verdict::Lost => u64::from(Refusal::LostGrid.number()) * 0x0100_0000 + made,
    }
}

// The answers on the grids with the numbers `words`: each verdict as one number, and beside it the number of the grid and the pattern. Four
// slices of one length, as C lends them, or nothing is done.
#[unsafe(no_mangle)]
pub extern "C" fn grid_decode(
    words: &[u64],
    verdicts: &mut [u64],
    repaired: &mut [u64],
    patterns: &mut [u64],
)
    ensures { Decoding words.now verdicts.old repaired.old patterns.old verdicts.new repaired.new patterns.new }
{
    let n = words.len();
    if verdicts.len() != n {
        return;
    }
    if repaired.len() != n {
        return;
    }
    if patterns.len() != n {
        return;
    }
    for i in 0..n {
        let answer = Grid::from(words[i]).decode();
        repaired[i] = u64::from(answer.grid);
        patterns[i] = answer.pattern;
        verdicts[i] = packed(answer.verdict, answer.trials);
    }
}
