// The calls on a card image, on plain numbers, for the tests and for counting instructions. No part of the product. A crate of its own, so
// that the archives of the others stay small.
#![tactic(auto)]

ghost use Rattle.std.specs.Prelude.{◌≡◌, ℕ, ◌≤◌, Result};
ghost use Rattle.refusals.specs.Reply.{numbered};
ghost use Rattle.refusals.specs.declared.Refusal.{Refusal};
ghost use Rattle.image.specs.declared.Counts.{Counts};
ghost use Rattle.image.specs.Calls.{Checked};
ghost use Rattle.card_write.specs.Calls.{Wrote};
ghost use Rattle.card_read.specs.declared.Lengths.{Lengths};
ghost use Rattle.card_read.specs.Calls.{Read};
ghost use Rattle.lines.specs.Calls.{Printed};
ghost use Rattle.harness_card.specs.Exports.{short, packed, number_shown, check_shown, write_shown, read_shown, lines_shown, Exported};

use card::{Lengths, Refusal, Tallies};
use image::Counts;

// A number in 16 bits. One that does not fit is 65,535, which no right answer has.
fn short(n: usize) -> u64
    ensures { (result ≡ short n) × (result ≤ 65535) }
{
    if n > 65535 {
        return 65535;
    }
    n as u64
}

// The number of a refusal from bit 32 on. Below it stand its place, or what the call gives.
fn packed(number: u32, low: usize, high: usize) -> u64
    ensures { result ≡ packed number low high }
{
    u64::from(number) * 4294967296 + short(high) * 65536 + short(low)
}

// The number and the place of a refusal.
fn refused(why: Refusal) -> u64
    ensures { result ≡ number_shown (numbered why) }
{
    match why.place() {
        Some(at) => packed(why.number(), at, 0),
        None => packed(why.number(), 0, 0),
    }
}

// The grids, and the blocks from bit 16 on.
#[unsafe(no_mangle)]
pub extern "C" fn image_check(image: &[u8]) -> u64
    ensures { (a : Result Counts Refusal) × Checked image.now a × (result ≡ check_shown a) }
{
    match image::check(image) {
        Ok(Counts { grids, blocks }) => packed(0, grids, blocks),
        Err(why) => refused(why),
    }
}

// The six numbers of the grids and the five of the blocks go to `tallies`, which has eleven places, and the last mended grid's pattern to
// `pattern`; 255 is returned where `tallies` has another length, and then nothing is done.
#[unsafe(no_mangle)]
pub extern "C" fn image_scrub(image: &mut [u8], tallies: &mut [u32], pattern: &mut u64) -> u64
    ensures { Exported image.old tallies.old pattern.old result image.new tallies.new pattern.new }
{
    if tallies.len() != 11 {
        return packed(255, 0, 0);
    }
    match card::scrub(image) {
        Ok(t) => {
            let Tallies { grids, blocks } = t;
            tallies.copy_from_slice(&[
                grids.grids,
                grids.clean,
                grids.blank,
                grids.mended,
                grids.lost,
                grids.flips,
                blocks.blocks,
                blocks.clean,
                blocks.mended,
                blocks.lost,
                blocks.flips,
            ]);
            *pattern = grids.pattern;
            packed(0, 0, 0)
        }
        Err(why) => refused(why),
    }
}

// The bytes written.
#[unsafe(no_mangle)]
pub extern "C" fn image_write(title: &[u8], numbers: &[u16], image: &mut [u8]) -> u64
    ensures { (a : Result ℕ Refusal) × Wrote title.now numbers.now image.old a image.new × (result ≡ write_shown a) }
{
    match card::write(title, numbers, image) {
        Ok(n) => packed(0, n, 0),
        Err(why) => refused(why),
    }
}

// The title's length, and the grids from bit 16 on.
#[unsafe(no_mangle)]
pub extern "C" fn image_read(
    image: &[u8],
    title: &mut [u8],
    numbers: &mut [u16],
    flips: &mut [u8],
) -> u64
    ensures { (a : Result Lengths Refusal) × Read image.now title.old numbers.old flips.old a title.new numbers.new flips.new
        × (result ≡ read_shown a) }
{
    match card::read(image, title, numbers, flips) {
        Ok(Lengths { title, grids }) => packed(0, title, grids),
        Err(why) => refused(why),
    }
}

// The bytes of text.
#[unsafe(no_mangle)]
pub extern "C" fn image_lines(image: &mut [u8], text: &mut [u8]) -> u64
    ensures { (a : Result ℕ Refusal) × Printed image.old text.old a image.new text.new × (result ≡ lines_shown a) }
{
    match lines::scrub(image, text) {
        Ok(n) => packed(0, n, 0),
        Err(why) => refused(why),
    }
}
