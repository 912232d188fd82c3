// The words of a block: a block written, the checks that it holds beside those that its data says, and a place flipped.
//
// The crate block_code says what a block's checks are, and block_sums sums those that data says. Each public function is a step of the
// block's calls, which accepts every input (specs/Steps.antt).
#![tactic(auto)]

ghost use Rattle.std.specs.Prelude.{◌≡◌, ◌^◌, ◌<◌};
ghost use Rattle.words.specs.Digits.{joined};
ghost use Rattle.block_code.specs.Checks.{held_by, check_words};
ghost use Rattle.block_words.specs.Steps.{BlockWritten, SyndromeFound, Flipped};

use block_code::Checks;

// The six words that hold the checks. By shifts, here and in `held`: the library takes a number apart into bytes, not into words.
fn stored(k: Checks) -> [u16; 6]
    requires { k.diagonals < 2 ^ 48 }
    ensures { result ≡ check_words k }
{
    let Checks {
        rows,
        columns,
        diagonals,
    } = k;
    [
        (rows & 0xFFFF) as u16,
        (rows >> 16) as u16,
        columns,
        (diagonals & 0xFFFF) as u16,
        ((diagonals >> 16) & 0xFFFF) as u16,
        (diagonals >> 32) as u16,
    ]
}

// The block of 32 data words, into 38 words; where either length is another, nothing is written.
// No Option: by docs/PROMISES.md a step accepts every input, and `BlockWritten` has this outcome.
pub fn write(values: &[u16], words: &mut [u16])
    ensures { BlockWritten values.now words.old words.new }
{
    if values.len() != 32 || words.len() != 38 {
        return;
    }
    let (data, checks) = words.split_at_mut(32);
    data.copy_from_slice(values);
    checks.copy_from_slice(&stored(block_sums::said(values)));
}

// The checks that words 32 to 37 hold.
fn held(words: &[u16; 38]) -> Checks
    ensures { result ≡ held_by (joined 16 words.now) }
{
    let [.., r0, r1, columns, d0, d1, d2] = *words;
    Checks {
        rows: (u32::from(r1) << 16) | u32::from(r0),
        columns,
        diagonals: (u64::from(d2) << 32) | (u64::from(d1) << 16) | u64::from(d0),
    }
}

// Where what the data says and what the block at the front holds differ; none where there are not 38 words.
// No Option: by docs/PROMISES.md a step accepts every input, and `SyndromeFound` has this answer.
pub fn syndrome(words: &[u16]) -> Checks
    ensures { SyndromeFound words.now result }
{
    let Some(block) = words.first_chunk::<38>() else {
        return Checks::default();
    };
    block_sums::said(block) ^ held(block)
}

// The place flipped; where it is in none of the words, they stay as they are. By index: of a word that `get_mut` lends no proof knows what
// the slice holds afterwards.
// No Option: by docs/PROMISES.md a step accepts every input, and `Flipped` has this outcome.
pub fn flip(words: &mut [u16], place: usize)
    ensures { Flipped words.old place words.new }
{
    let i = place / 16;
    if i < words.len() {
        words[i] ^= 1 << (place % 16);
    }
}
