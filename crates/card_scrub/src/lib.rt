// The scrub of a card image where it stands.
//
// The image is checked as a whole before anything is written (crate image), so a refused call leaves it as it was. Then the data fields are
// scrubbed one behind the other, each value by itself (crate value_scrub): a lost grid or block is counted, stays as it is, and is no
// refusal of the call. What was counted in each is added up, and the pattern of the last mended grid of all is passed on.
//
// specs/Calls.antt says what the call answers and leaves, and specs/Answer.antt what the answer says.
#![tactic(auto)]

ghost use Rattle.std.specs.Prelude.{◌≡◌, []};
ghost use Rattle.image.specs.Steps.{Walks};
ghost use Rattle.card_scrub.specs.Calls.{tallies_of, Scrubbed};
ghost use Rattle.card_scrub.specs.Steps.{summed, ScrubbedFields, ScrubbedFirst};
ghost use Rattle.card_scrub.specs.Sums.{summed_again};

use fields::{BLOCK, Field, HEAD};
use page::Tally;
use refusals::Refusal;
use value_scrub::{Blocks, Count};

// What was counted of grids, and of blocks.
#[derive(Clone, Copy, Debug, Default, PartialEq, Eq)]
pub struct Tallies {
    pub grids: Tally,
    pub blocks: Blocks,
}

// A data field: its bytes, head and value, and what was counted in it. Beside card_read's `First`: one type for both would stand public in
// a crate below, for two private uses.
#[derive(Drop)]
struct First {
    size: usize,
    here: Tallies,
}

impl Count for Tallies {
    ghost sum = { summed };

    ghost associative = { summed_again };

    fn plus(self, behind: Tallies) -> Tallies {
        Tallies {
            grids: self.grids.plus(behind.grids),
            blocks: self.blocks.plus(behind.blocks),
        }
    }
}

// The field at the front of a slice, scrubbed and counted where it is a data field; or the end, and then there is none.
fn scrub_first(rest: &mut [u8]) -> Option<First>
    requires { Walks rest.old }
    ensures { ScrubbedFirst rest.old result rest.new }
{
    match fields::front(rest)? {
        Field::Grids(n) => {
            let size = HEAD + n;
            let grids = value_scrub::grids(&mut rest[HEAD..size]);
            Some(First {
                size,
                here: Tallies {
                    grids,
                    blocks: value_scrub::no_blocks(),
                },
            })
        }
        Field::Block => {
            let size = HEAD + BLOCK;
            let blocks = value_scrub::block(&mut rest[HEAD..size]);
            Some(First {
                size,
                here: Tallies {
                    grids: Tally::none(),
                    blocks,
                },
            })
        }
        Field::Title(_) | Field::End => None,
    }
}

// The data fields at the front of a slice, up to the end field. No `for`: only the step knows how far a field goes.
fn scrub_fields(rest: &mut [u8]) -> Tallies
    requires { Walks rest.old }
    ensures { ScrubbedFields rest.old result rest.new }
{
    let mut tallies = Tallies::default();
    let mut at: usize = 0;
    while let Some(first) = scrub_first(&mut rest[at..]) {
        tallies = tallies.plus(first.here);
        at += first.size;
    }
    tallies
}

// Scrubs each data field of an image, within the image.
pub fn scrub(image: &mut [u8]) -> Result<Tallies, Refusal>
    ensures { Scrubbed image.old result image.new }
{
    image::check(image)?;
    let title = image::title(image).len();
    let end = HEAD + title;
    Ok(scrub_fields(&mut image[end..]))
}
