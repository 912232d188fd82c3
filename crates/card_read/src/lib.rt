// A card image read back: its title, and the data and flips of each grid.
//
// The image is checked as a whole before anything is written (crate image), so a refused call leaves all that it was lent as it was.
//
// specs/Calls.antt says what the call answers and leaves, and specs/Answer.antt what the answer says. What is shown of a grid is in the
// crate value_read (docs/FORMAT.md, Reading back).
#![tactic(auto)]

ghost use Rattle.card_read.specs.Calls.{Read};
ghost use Rattle.card_read.specs.Steps.{ReadsGrids, ReadsFields, ReadFirst};

use fields::{BLOCK, Field, HEAD};
use refusals::Refusal;

// The title's length and the number of grids.
#[derive(Clone, Copy, Debug, PartialEq, Eq)]
pub struct Lengths {
    pub title: usize,
    pub grids: usize,
}

// A data field: its bytes, head and value, and its grids. Beside card_scrub's `First`: one type for both would stand public in a crate
// below, for two private uses.
#[derive(Drop)]
struct First {
    size: usize,
    grids: usize,
}

// The field at the front, and its grids read to the front of two slices, as the caller lends them; or the end, and then there is none.
fn read_first(rest: &[u8], numbers: &mut [u16], flips: &mut [u8]) -> Option<First>
    requires { ReadsFields rest.now numbers.old flips.old }
    ensures { ReadFirst rest.now numbers.old flips.old result numbers.new flips.new }
{
    match fields::front(rest)? {
        Field::Grids(n) => {
            let size = HEAD + n;
            value_read::grids(&rest[HEAD..size], numbers, flips);
            Some(First { size, grids: n / 8 })
        }
        Field::Block => Some(First {
            size: HEAD + BLOCK,
            grids: 0,
        }),
        Field::Title(_) | Field::End => None,
    }
}

// The grids of the data fields at the front of some bytes, up to the end field. No `for`: only the step knows how far a field goes.
fn read_fields(rest: &[u8], numbers: &mut [u16], flips: &mut [u8])
    requires { ReadsFields rest.now numbers.old flips.old }
    ensures { ReadsGrids rest.now numbers.old flips.old numbers.new flips.new }
{
    let mut at: usize = 0;
    let mut k: usize = 0;
    while let Some(first) = read_first(&rest[at..], &mut numbers[k..], &mut flips[k..]) {
        at += first.size;
        k += first.grids;
    }
}

// Reads a sound image back: the title, and each grid's data and flips. `numbers` and `flips` are two slices, since C lends them so.
pub fn read(
    image: &[u8],
    title: &mut [u8],
    numbers: &mut [u16],
    flips: &mut [u8],
) -> Result<Lengths, Refusal>
    ensures { Read image.now title.old numbers.old flips.old result title.new numbers.new flips.new }
{
    let grids = image::check(image)?.grids;
    let name = image::title(image);
    if title.len() < name.len() {
        return Err(Refusal::Room);
    }
    if numbers.len() < grids {
        return Err(Refusal::Room);
    }
    if flips.len() < grids {
        return Err(Refusal::Room);
    }
    values::copy(name, title);
    let end = HEAD + name.len();
    read_fields(&image[end..], numbers, flips);
    Ok(Lengths {
        title: name.len(),
        grids,
    })
}
