// The scrub of a page on plain numbers, for the tests and for counting instructions. No part of the product. A crate of its own, so that
// its archive has no other use of the decoder.
#![tactic(auto)]

ghost use Rattle.harness_page.specs.Exports.{Exported};

// A page scrubbed, with the six numbers in `tally`, which has six places, and the last mended grid's pattern in `pattern`. The number of
// the refusal is returned, 0 where there is none, and 255 where `tally` has another length: then nothing is done.
#[unsafe(no_mangle)]
pub extern "C" fn page_scrub(page: &mut [u64], tally: &mut [u32], pattern: &mut u64) -> u32
    ensures { Exported page.old tally.old pattern.old result page.new tally.new pattern.new }
{
    if tally.len() != 6 {
        return 255;
    }
    match page::scrub(page) {
        Ok(t) => {
            tally.copy_from_slice(&[t.grids, t.clean, t.blank, t.mended, t.lost, t.flips]);
            *pattern = t.pattern;
            0
        }
        Err(why) => why.number(),
    }
}
