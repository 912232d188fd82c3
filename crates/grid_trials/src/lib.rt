// The two trials of the grid's decoder. The rows are repaired (crate grid_rows) and compared with the rows as read. Where that alone takes
// over seven flips, so does every codeword. Where their columns hold, the repaired rows are a codeword. Else some are set aside, and rows
// are solved from the columns (crate grid_columns).
//
// A trial pays 1 for a row that it sets aside and 2 for any other row that it has wrong, and gives a codeword for which it pays 3 at most:
// its candidate. Row by row both together pay no more than the places that differ, so one of them gives a codeword within seven.
#![tactic(auto)]

ghost use Rattle.std.specs.Prelude.{ℕ};
ghost use Rattle.grid_trials.specs.Steps.{Needing, Repaired, Marked, Tried, Decided, Nearby};

// The codeword within the radius, in how many places the word read differs from it, and how many trials were made.
#[derive(Clone, Copy, Debug, PartialEq, Eq)]
pub struct Near {
    pub number: u64,
    pub flips: u32,
    pub trials: u32,
}

// Place 0 of each row that needed flips, and of each that needed two.
#[derive(Drop)]
struct Marks {
    any: u64,
    two: u64,
}

// Which rows needed flips, from the places in which they differ from the repaired rows, all eight at a time. Where a row needed two, one of
// them is place 7, by the table of the crate grid_rows. A row that has another place set reaches place 7 with 127 more.
fn needing(flips: u64) -> Marks
    ensures { Needing flips result.any result.two }
{
    let others = (flips & 0x7F7F_7F7F_7F7F_7F7F) + 0x7F7F_7F7F_7F7F_7F7F;
    let both = others & flips;
    let either = others ^ flips ^ both;
    Marks {
        any: (either >> 7) & 0x0101_0101_0101_0101,
        two: (both >> 7) & 0x0101_0101_0101_0101,
    }
}

// The trial in which the rows with place 0 marked are set aside: its candidate, where that is within the radius. `rows` are the repaired
// rows of the word read, and `trials` is how many trials this one makes.
fn trial(word: u64, rows: u64, marks: u64, trials: u32) -> Option<Near>
    ensures { (t : ℕ) → Repaired word rows → Marked t word marks → Tried t word trials result }
{
    let number = grid_columns::solved(rows, marks)?;
    let flips = (word ^ number).count_ones();
    if flips > grid_code::RADIUS {
        return None;
    }
    Some(Near {
        number,
        flips,
        trials,
    })
}

// What the first trial gives, and what the second does where it gives none: the first sets the rows aside that needed two flips, the second
// those that needed one or two. Where none needed one flip, both are the same. `made` is what is reported. Two calls one behind the other
// miss the bar of a clean grid, 53 of 50: only in a loop the compiler lays the trial in its place.
fn trials(word: u64, rows: u64) -> Option<Near>
    ensures { Repaired word rows → Decided word result }
{
    let marks = needing(word ^ rows);
    let mut aside = marks.two;
    let mut made: u32 = 1;
    loop {
        let near = trial(word, rows, aside, made);
        if near.is_some() || aside == marks.any {
            return near;
        }
        aside = marks.any;
        made += 1;
    }
}

// The codeword that is near enough to the rows as read, whatever was done to them. Where every one is further off there is none, and that
// takes two trials.
pub fn nearest(rows: [u8; 8]) -> Option<Near>
    ensures { Nearby rows result }
{
    let word = grid_rows::number(rows);
    let repaired = grid_rows::number(grid_rows::repaired(rows));
    let needed = (word ^ repaired).count_ones();
    if grid_code::RADIUS < needed {
        return None;
    }
    if grid_columns::hold(repaired) {
        return Some(Near {
            number: repaired,
            flips: needed,
            trials: 1,
        });
    }
    trials(word, repaired)
}
