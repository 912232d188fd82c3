// The block: 38 words of 16 bits, of which 32 are data; its encoder and its scrubber.
//
//     words 0 to 31    data: row r, column c is bit c of word r
//     words 32, 33     row parities 0 to 15 and 16 to 31
//     word 34          column parities 0 to 15
//     words 35 to 37   diagonal t, the parity of the places with r + c = t, is bit t mod 16 of word 35 + t / 16;
//                      bit 15 of word 37 is the system parity, that of the 512 data bits
//
// A row is one word with its own parity, so where two blocks differ in a row they differ in two places or more, its parity counted. Three
// rows make six. Two make four; if the columns agree, both rows differ in the same places, and the diagonals tell them apart: five. In one
// row each place counts with its column and its diagonal; a single one also with its row and the system parity: five. So two blocks differ
// in at least five places, and up to two flips leave a block nearer to what was written than to any other.
//
// The scrubber guesses a flipped place, and verifies it by the checks that are left (crate block_flips). It returns the flips that it has
// undone as a pattern: 38 words in which just their places are set.
//
// The crate block_code has the parities and what is proved of the code, block_words what writes, reads and flips the words.
// specs/Calls.antt has what each call promises, and specs/Promises.antt what is proved of the calls.
#![tactic(auto)]

ghost use Rattle.std.specs.Prelude.{◌≡◌, replicate};
ghost use Rattle.codes.specs.Promises.{States};
ghost use Rattle.block_code.specs.Code.{code_of_block};
ghost use Rattle.block.specs.Calls.{Encoded, Scrubbed};
ghost use Rattle.block.specs.Steps.{flipped_each, answer_for};

use block_flips::Flips;
use refusals::Refusal;

// The verdict on a block that is not lost. The data is in the words.
#[derive(Clone, Copy, Debug, PartialEq, Eq)]
pub enum BlockVerdict {
    Clean,
    Mended { flips: u32 },
}

// The answer of a scrub, which refuses a block that is lost and any number of words but 38; and beside it the pattern of the flips: all
// zero where the block is clean or refused. It stands outside the `Result`, for the theorem `pattern_refused` speaks of it on a refusal.
#[derive(Drop)]
pub struct Scrub {
    pub answer: Result<BlockVerdict, Refusal>,
    pub pattern: [u16; 38],
}

// A block is lent, as 38 words: the type has the constants and the calls.
#[derive(Drop)]
pub struct Block;

// Words of data, and words in all.
const VALUES: usize = 32;

const WORDS: usize = 38;

// Each of the flips made, in some words.
fn flip_each(words: &mut [u16], flips: Flips)
    ensures { words.new ≡ flipped_each words.old (Some flips) }
{
    match flips {
        Flips::One(p) => {
            block_words::flip(words, p);
        }
        Flips::Two(p, q) => {
            block_words::flip(words, p);
            block_words::flip(words, q);
        }
    }
}

// The verdict where these flips are undone.
fn mended(flips: Flips) -> BlockVerdict
    ensures { answer_for (Some flips) ≡ Ok result }
{
    match flips {
        Flips::One(_) => BlockVerdict::Mended { flips: 1 },
        Flips::Two(_, _) => BlockVerdict::Mended { flips: 2 },
    }
}

// An answer where nothing is flipped.
fn unchanged(answer: Result<BlockVerdict, Refusal>) -> Scrub
    ensures { result ≡ record { answer = answer; pattern = replicate 38 0 } }
{
    Scrub {
        answer,
        pattern: [0; 38],
    }
}

impl Block {
    pub const RADIUS: u32 = 2;

    pub const LENGTH: u32 = 608;

    pub const DISTANCE: u32 = 5;

    // The block of 32 data words, into 38 words. Any other length is refused, and nothing is written. RADIUS, LENGTH and DISTANCE are the
    // code's own.
    pub fn encode(values: &[u16], words: &mut [u16]) -> Result<(), Refusal>
        ensures encoded { Encoded values.now words.old result words.new }
        ensures constants { States code_of_block Block.RADIUS Block.LENGTH Block.DISTANCE }
    {
        if values.len() != VALUES || words.len() != WORDS {
            return Err(Refusal::Length);
        }
        block_words::write(values, words);
        Ok(())
    }

    // The nearest codeword in place of the 38 words that were read, where it is within two places. Where none is, or where the length is
    // another, nothing is written. The flips that are undone, made in words of zero, are the pattern.
    pub fn scrub(words: &mut [u16]) -> Scrub
        ensures { Scrubbed words.old result words.new }
    {
        if words.len() != WORDS {
            return unchanged(Err(Refusal::Length));
        }
        let syndrome = block_words::syndrome(words);
        if syndrome.is_none() {
            return unchanged(Ok(BlockVerdict::Clean));
        }
        let Some(flips) = block_flips::nearest(syndrome) else {
            return unchanged(Err(Refusal::LostBlock));
        };
        let mut pattern = [0; 38];
        flip_each(&mut pattern, flips);
        flip_each(words, flips);
        Scrub {
            answer: Ok(mended(flips)),
            pattern,
        }
    }
}
