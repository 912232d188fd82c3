// The value of a data field scrubbed where it stands: the grids by way of pages, the block by way of its words. Each public function
// accepts every input: a value whose length no field has stays as it is, and nothing is counted.
//
// specs/Tally.antt says what is counted of blocks, and the scrub of a card image cites it. specs/Steps.antt says what each step does; no
// promise to a caller cites it.
#![tactic(auto)]

ghost use Rattle.std.specs.Prelude.{◌≡◌, ◌*◌, ◌%◌, ◌<◌, ◌≤◌, length};
ghost use Rattle.page.specs.Calls.{most_grids};
ghost use Rattle.page.specs.Steps.{later};
ghost use Rattle.fields.specs.Fields.{grids_most, block_bytes};
ghost use Rattle.value_scrub.specs.Steps.{NoBlocks, Added, added, added_blocks, ScrubbedGrids, ScrubbedBlock, AnyGrids, AnyBlock};
ghost use Rattle.value_scrub.specs.Sums.{added_again, added_blocks_again};

use block::{Block, BlockVerdict};
use page::Tally;

// The five numbers of a scrub, of blocks. Flips is the sum over mended blocks.
#[derive(Clone, Copy, Debug, Default, PartialEq, Eq)]
pub struct Blocks {
    pub blocks: u32,
    pub clean: u32,
    pub mended: u32,
    pub lost: u32,
    pub flips: u32,
}

// The grids that are laid out at a time: half a kilobyte of stack.
const PAGE_GRIDS: usize = 64;

// The tally of no blocks, what `Blocks::default()` is: its own name stays, which the theorem `OneOutcome.no_blocks` speaks of.
pub fn no_blocks() -> Blocks
    ensures { NoBlocks result }
{
    Blocks::default()
}

// Which of two parts' patterns is passed on: that of the part behind, unless nothing was mended there. A mended grid's is never zero, and
// zero is no pattern, as the theorems `PagePromises.no_last` of page and `ScrubPromises.no_last` of card say.
fn later(before: u64, behind: u64) -> u64
    ensures { result ≡ later before behind }
{
    if behind == 0 {
        return before;
    }
    behind
}

// What was counted in parts that stand one behind the other.
pub trait Count {
    ghost sum: { Self → Self → Self };

    // Both counts added up. The sums wrap, so that there are no two that it does not accept.
    fn plus(self, behind: Self) -> Self
        ensures { result ≡ sum self behind };

    ghost associative: { (a b c : Self) → sum a (sum b c) ≡ sum (sum a b) c };
}

impl Count for Tally {
    ghost sum = { added };

    ghost associative = { added_again };

    fn plus(self, behind: Tally) -> Tally
        ensures { Added self behind result }
    {
        Tally {
            grids: self.grids.wrapping_add(behind.grids),
            clean: self.clean.wrapping_add(behind.clean),
            blank: self.blank.wrapping_add(behind.blank),
            mended: self.mended.wrapping_add(behind.mended),
            lost: self.lost.wrapping_add(behind.lost),
            flips: self.flips.wrapping_add(behind.flips),
            pattern: later(self.pattern, behind.pattern),
        }
    }
}

impl Count for Blocks {
    ghost sum = { added_blocks };

    ghost associative = { added_blocks_again };

    fn plus(self, behind: Blocks) -> Blocks {
        Blocks {
            blocks: self.blocks.wrapping_add(behind.blocks),
            clean: self.clean.wrapping_add(behind.clean),
            mended: self.mended.wrapping_add(behind.mended),
            lost: self.lost.wrapping_add(behind.lost),
            flips: self.flips.wrapping_add(behind.flips),
        }
    }
}

// Grids scrubbed by way of a page of their number. Where there are no flips, nothing is written.
fn by_page(value: &mut [u8], page: &mut [u64]) -> Tally
    requires { (length value.old ≡ 8 * length page.old) × (length page.old ≤ most_grids) }
    ensures { ScrubbedGrids value.old result value.new }
{
    values::read(value, page);
    match page::scrub(page) {
        Ok(tally) => {
            if tally.flips > 0 {
                values::write(value, page);
            }
            tally
        }
        Err(_) => Tally::none(),
    }
}

// Grids, a page at a time.
fn by_pages(value: &mut [u8], page: &mut [u64; PAGE_GRIDS]) -> Tally
    requires { (length value.old ≤ grids_most) × (length value.old % 8 ≡ 0) }
    ensures { ScrubbedGrids value.old result value.new }
{
    let mut tally = Tally::none();
    // By number: no proof knows what a slice holds after `chunks_mut`.
    for k in 0..value.len().div_ceil(8 * PAGE_GRIDS) {
        let at = 8 * PAGE_GRIDS * k;
        let end = value.len().min(at + 8 * PAGE_GRIDS);
        let n = (end - at) / 8;
        tally = tally.plus(by_page(&mut value[at..end], &mut page[..n]));
    }
    tally
}

// The value of a grids field. One of another length stays as it is.
pub fn grids(value: &mut [u8]) -> Tally
    ensures { AnyGrids value.old result value.new }
{
    if value.len() > fields::GRIDS_MOST {
        return Tally::none();
    }
    if value.len() % 8 != 0 {
        return Tally::none();
    }
    let mut page = [0u64; PAGE_GRIDS];
    by_pages(value, &mut page)
}

// A block scrubbed by way of its words. Where nothing was mended, nothing is written.
fn by_words(value: &mut [u8], words: &mut [u16; 38]) -> Blocks
    requires { length value.old ≡ block_bytes }
    ensures { ScrubbedBlock value.old result value.new }
{
    values::read(value, words);
    match Block::scrub(words).answer {
        Ok(BlockVerdict::Clean) => Blocks {
            blocks: 1,
            clean: 1,
            ..Blocks::default()
        },
        Ok(BlockVerdict::Mended { flips }) => {
            values::write(value, words);
            Blocks {
                blocks: 1,
                mended: 1,
                flips,
                ..Blocks::default()
            }
        }
        Err(_) => Blocks {
            blocks: 1,
            lost: 1,
            ..Blocks::default()
        },
    }
}

// The value of a block field. One of another length stays as it is.
pub fn block(value: &mut [u8]) -> Blocks
    ensures { AnyBlock value.old result value.new }
{
    if value.len() != fields::BLOCK {
        return no_blocks();
    }
    let mut words = [0u16; 38];
    by_words(value, &mut words)
}
