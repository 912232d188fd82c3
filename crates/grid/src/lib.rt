// The grid: eight rows of eight places, by value; its encoder and its decoder.
//
//     place   0 1 2 3   4 5 6   7
//     row 0   d d d d   r r r   p     d  data: bit k at row k / 4, place k mod 4
//     row 1   d d d d   r r r   p     r  parity of places 0 1 2, of 0 2 3, of 1 2 3 of its row
//     row 2   d d d d   r r r   p     c  parity of rows 0 1 3, of 0 2 3, of 1 2 3 of its column
//     row 3   d d d d   r r r   p     p  parity of places 0 to 6 of its row
//     row 4   c c c c   c c c   p     q  parity of rows 0 to 6 of its column
//     row 5   c c c c   c c c   p
//     row 6   c c c c   c c c   p
//     row 7   q q q q   q q q   q
//
// Each row and each column is a word of a code in which two words differ in at least four places. So the grids of two data values differ in
// four rows or more, in four places or more of each: in 16 places at least, and up to seven flips leave a grid nearer to what was written
// than to the grid of any other value.
//
// The decoder repairs each row, sets aside those that it cannot be sure of, and lets the columns decide, in two trials at most (crates
// grid_rows, grid_columns and grid_trials). What it hands out it has counted: a codeword within seven places. The places that differ are the
// pattern of the flips. All ones is a codeword, too, and Flash comes erased to it: such a grid is blank, it has no data, and 65,535 is not
// encoded.
//
// The crate grid_code has the parities and what is proved of the code, specs/Calls.antt what each call promises, and specs/Promises.antt
// what is proved of the calls. As a number a grid has row r in byte r, lowest byte first, and place c of a row in bit c.
#![tactic(auto)]

ghost use Rattle.codes.specs.Promises.{States};
ghost use Rattle.grid_code.specs.Code.{code_of_grid};
ghost use Rattle.grid_trials.specs.Steps.{Nearby};
ghost use Rattle.grid.specs.Answer.{AllOff};
ghost use Rattle.grid.specs.Calls.{Encoded, Numbered, Parted, Judged, Decoded};

use grid_trials::Near;
use refusals::Refusal;

#[derive(Clone, Copy, Debug, PartialEq, Eq, Hash)]
pub struct Grid {
    pub rows: [u8; 8],
}

// All lamps off: the grid that `unwrap_or_default` gives where the encoder refuses.
impl Default for Grid {
    ghost is_default = { AllOff };

    fn default() -> Grid {
        Grid { rows: [0; 8] }
    }
}

// The grid as a number.
impl From<Grid> for u64 {
    ghost from_gives = { λ grid w. Numbered grid.rows w };

    fn from(grid: Grid) -> u64 {
        grid_rows::number(grid.rows)
    }
}

// The grid that a number is.
impl From<u64> for Grid {
    ghost from_gives = { λ w grid. Parted w grid.rows };

    fn from(w: u64) -> Grid {
        Grid {
            rows: grid_rows::of_number(w),
        }
    }
}

// What was read, by the nearest codeword: its data, and the number of places that were not its own. All ones is an erased grid, which has
// no data. A lost grid is a verdict and no `Err`, since grid and pattern are promised for it, too (`as_read`, `pattern_refused`).
#[derive(Clone, Copy, Debug, PartialEq, Eq)]
pub enum Verdict {
    Clean(u16),
    Blank { flips: u32 },
    Mended { data: u16, flips: u32 },
    Lost,
}

// A verdict, with the codeword beside it, or the grid as read where there is no data; the pattern of the flips: the places in which the
// grid as read differs from that, zero where the grid is clean or lost, as `pattern_clean` and `pattern_refused` promise; and the trials
// made: 1 if the first gave the codeword, 2 if not.
#[derive(Clone, Copy, Debug, PartialEq, Eq)]
pub struct Answer {
    pub verdict: Verdict,
    pub grid: Grid,
    pub pattern: u64,
    pub trials: u32,
}

impl Grid {
    pub const RADIUS: u32 = grid_code::RADIUS;

    pub const LENGTH: u32 = 64;

    pub const DISTANCE: u32 = 16;

    // The grid of a data value. 65,535, whose grid is all ones, is refused, and `unwrap_or_default` is then all zero. RADIUS, LENGTH and
    // DISTANCE are the code's own.
    pub fn encode(value: u16) -> Result<Grid, Refusal>
        ensures encoded { Encoded value result }
        ensures constants { States code_of_grid Grid.RADIUS Grid.LENGTH Grid.DISTANCE }
    {
        if value == grid_code::ERASED {
            return Err(Refusal::Erased);
        }
        Ok(Grid::from(grid_code::encoded(value)))
    }

    // Whether a grid that was read is a codeword, all ones among them.
    pub fn is_codeword(self) -> bool
        ensures { Judged self.rows result }
    {
        let word = u64::from(self);
        grid_code::completed(grid_code::places_of(word)) == word
    }

    // The answer where the codeword that is near enough was found.
    fn answered(self, near: Near) -> Answer
        ensures { Nearby self.rows (Some near) → Decoded self.rows result }
    {
        let Near {
            number,
            flips,
            trials,
        } = near;
        let grid = Grid::from(number);
        let pattern = u64::from(self) ^ number;
        if number == grid_code::ALL_ONES {
            return Answer {
                verdict: Verdict::Blank { flips },
                grid,
                pattern,
                trials,
            };
        }
        let data = grid_code::data_of(grid_code::places_of(number));
        if flips == 0 {
            return Answer {
                verdict: Verdict::Clean(data),
                grid,
                pattern,
                trials,
            };
        }
        Answer {
            verdict: Verdict::Mended { data, flips },
            grid,
            pattern,
            trials,
        }
    }

    // The verdict on a grid that was read, whatever was done to it, by the trials.
    #[inline(always)]
    pub fn mend(self) -> Answer
        ensures { Decoded self.rows result }
    {
        let Some(near) = grid_trials::nearest(self.rows) else {
            return Answer {
                verdict: Verdict::Lost,
                grid: self,
                pattern: 0,
                trials: 2,
            };
        };
        self.answered(near)
    }

    // The same, and quicker where the grid is a codeword.
    pub fn decode(self) -> Answer
        ensures { Decoded self.rows result }
    {
        if self.is_codeword() {
            return self.answered(Near {
                number: u64::from(self),
                flips: 0,
                trials: 1,
            });
        }
        self.mend()
    }
}
