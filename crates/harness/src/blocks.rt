// The block's calls, with their answers as numbers.
ghost use Rattle.std.specs.Prelude.{◌≡◌, Result, ⊤};
ghost use Rattle.refusals.specs.Reply.{number_in};
ghost use Rattle.block_code.specs.Code.{code_of_block};
ghost use Rattle.block.specs.Answer.{encode_means};
ghost use Rattle.block.specs.Calls.{Encoded};
ghost use Rattle.refusals.specs.declared.Refusal.{Refusal};
ghost use Rattle.harness.specs.Exports.{BlockScrubbed};

use block::{Block, BlockVerdict};

// The block of 32 data words, into 38 words. The number of the refusal is returned, and 0 where there is none.
#[unsafe(no_mangle)]
pub extern "C" fn block_encode(values: &[u16], words: &mut [u16]) -> u32
    ensures { (a : Result ⊤ Refusal) × Encoded values.now words.old a words.new × (result ≡ number_in (encode_means a words.new)) }
{
    match Block::encode(values, words) {
        Ok(()) => 0,
        Err(why) => why.number(),
    }
}

// A block scrubbed, with the pattern of the flips in `pattern`. The flips are returned, or the number of the refusal from bit 8 on.
#[unsafe(no_mangle)]
pub extern "C" fn block_scrub(words: &mut [u16], pattern: &mut [u16; 38]) -> u32
    ensures { BlockScrubbed words.old result words.new pattern.new }
{
    let scrub = Block::scrub(words);
    // By a variable: the check does not cover an array that is stored straight from a field.
    let made = scrub.pattern;
    *pattern = made;
    match scrub.answer {
        Ok(BlockVerdict::Clean) => 0,
        Ok(BlockVerdict::Mended { flips }) => flips,
        Err(why) => why.number() * 256,
    }
}

#[unsafe(no_mangle)]
pub extern "C" fn block_radius() -> u32
    ensures { result ≡ code_of_block.radius }
{
    Block::RADIUS
}

#[unsafe(no_mangle)]
pub extern "C" fn block_length() -> u32
    ensures { result ≡ code_of_block.places }
{
    Block::LENGTH
}

#[unsafe(no_mangle)]
pub extern "C" fn block_distance() -> u32
    ensures { result ≡ 5 }
{
    Block::DISTANCE
}
