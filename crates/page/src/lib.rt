// A page of up to 512 grids, each a 64-bit number, scrubbed where it stands: mended grids are replaced by their codewords and blank ones by
// all ones, and clean and lost ones stay as they are. What is counted is returned, with the pattern of the last mended grid.
//
// specs/Tally.antt says what is counted, specs/Calls.antt what a scrub answers and leaves, and specs/Promises.antt what is proved of it.
#![tactic(auto)]

ghost use Rattle.std.specs.Prelude.{◌≡◌, map, ◌≤◌, length};
ghost use Rattle.codes.specs.Verdict.{scrubbed, pattern_of};
ghost use Rattle.grid_code.specs.Code.{code_of_grid};
ghost use Rattle.grid_code.specs.Verdict.{grid_verdict};
ghost use Rattle.grid.specs.Answer.{verdict_of};
ghost use Rattle.page.specs.Tally.{grid_tally};
ghost use Rattle.page.specs.Calls.{most_grids, NoGrids, Scrubbed};
ghost use Rattle.page.specs.Steps.{counted, Roomy};

use grid::{Grid, Verdict};
use refusals::Refusal;

// The six numbers of a scrub; flips is the sum over mended and blank grids. And beside them, which is no seventh number, the pattern of the
// last mended grid: the places that were flipped there. It is zero where none is mended, as `no_last` promises.
#[derive(Clone, Copy, Debug, Default, PartialEq, Eq)]
pub struct Tally {
    pub grids: u32,
    pub clean: u32,
    pub blank: u32,
    pub mended: u32,
    pub lost: u32,
    pub flips: u32,
    pub pattern: u64,
}

// The most grids of a page.
pub const MOST_GRIDS: usize = 512;

// A grid put right, and the tally with it.
#[derive(Drop)]
struct Step {
    pub word: u64,
    pub tally: Tally,
}

impl Tally {
    // That of no grids, what `Tally::default()` is: its own name stays, which the theorem `OneOutcome.none` speaks of.
    pub fn none() -> Tally
        ensures { NoGrids result }
    {
        Tally::default()
    }

    // One more verdict, and its pattern, which is kept where it is mended.
    fn counted(self, verdict: Verdict, pattern: u64) -> Tally
        requires { Roomy self (verdict_of verdict) }
        ensures { result ≡ counted self (verdict_of verdict) pattern }
    {
        let mut next = self;
        next.grids += 1;
        match verdict {
            Verdict::Clean(_) => {
                next.clean += 1;
            }
            Verdict::Blank { flips } => {
                next.blank += 1;
                next.flips += flips;
            }
            Verdict::Mended { data: _, flips } => {
                next.mended += 1;
                next.flips += flips;
                next.pattern = pattern;
            }
            Verdict::Lost => {
                next.lost += 1;
            }
        }
        next
    }

    // One more grid, put right and counted. The data of a clean one is not asked for.
    fn with_grid(self, word: u64) -> Step
        requires { Roomy self (grid_verdict word) }
        ensures { (result.word ≡ scrubbed code_of_grid word) × (result.tally ≡ counted self (grid_verdict word) (pattern_of code_of_grid word)) }
    {
        let grid = Grid::from(word);
        if grid.is_codeword() {
            if word == grid_code::ALL_ONES {
                return Step {
                    word,
                    tally: self.counted(Verdict::Blank { flips: 0 }, 0),
                };
            }
            return Step {
                word,
                tally: self.counted(Verdict::Clean(0), 0),
            };
        }
        let answer = grid.mend();
        Step {
            word: u64::from(answer.grid),
            tally: self.counted(answer.verdict, answer.pattern),
        }
    }
}

// Grid after grid. One that stays as it is is not written.
fn each(page: &mut [u64]) -> Tally
    requires { length page.old ≤ most_grids }
    ensures { (result ≡ grid_tally page.old) × (page.new ≡ map (scrubbed code_of_grid) page.old) }
{
    let mut tally = Tally::none();
    for word in page {
        let step = tally.with_grid(*word);
        tally = step.tally;
        if step.word != *word {
            *word = step.word;
        }
    }
    tally
}

// Scrubs a page of 0 to 512 grids. A longer one is refused, and nothing is written.
pub fn scrub(page: &mut [u64]) -> Result<Tally, Refusal>
    ensures { Scrubbed page.old result page.new }
{
    if page.len() > MOST_GRIDS {
        return Err(Refusal::Length);
    }
    Ok(each(page))
}
