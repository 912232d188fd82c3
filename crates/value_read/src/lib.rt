// The grids of a field's value read back: the data and the flips of each.
//
// specs/Shown.antt says what is shown of a grid. The public function accepts every input, and does nothing where there is no room;
// specs/Steps.antt says so.
#![tactic(auto)]

ghost use Rattle.std.specs.Prelude.{◌≡◌};
ghost use Rattle.words.specs.Digits.{joined};
ghost use Rattle.value_read.specs.Shown.{data_of_grid, flips_of_grid};
ghost use Rattle.value_read.specs.Steps.{ReadValue};

use grid::{Grid, Verdict};

// What is shown of a grid. No Option: 0 and 255 of a lost grid, and 128 more of a blank one, are the order's (docs/FORMAT.md, Reading
// back).
#[derive(Drop)]
struct Shown {
    pub number: u16,
    pub flips: u8,
}

fn show(grid: Grid) -> Shown
    ensures number_value { result.number ≡ data_of_grid (joined 8 grid.rows) }
    ensures flips { result.flips ≡ flips_of_grid (joined 8 grid.rows) }
{
    match grid.decode().verdict {
        Verdict::Clean(data) => Shown {
            number: data,
            flips: 0,
        },
        Verdict::Blank { flips } => Shown {
            number: grid_code::ERASED,
            flips: (flips as u8) + 128,
        },
        Verdict::Mended { data, flips } => Shown {
            number: data,
            flips: flips as u8,
        },
        Verdict::Lost => Shown {
            number: 0,
            flips: 255,
        },
    }
}

// The grids of a value, to the front of the two slices.
pub fn grids(value: &[u8], numbers: &mut [u16], flips: &mut [u8])
    ensures { ReadValue value.now numbers.old flips.old numbers.new flips.new }
{
    let (grids, _) = value.as_chunks::<8>();
    if numbers.len() < grids.len() {
        return;
    }
    if flips.len() < grids.len() {
        return;
    }
    // By index: no proof knows what a slice holds after a zip on `iter_mut`.
    for (i, rows) in grids.iter().enumerate() {
        let shown = show(values::grid(rows));
        numbers[i] = shown.number;
        flips[i] = shown.flips;
    }
}
