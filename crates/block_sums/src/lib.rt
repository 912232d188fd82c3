// The checks that 32 data words say, by sums of many words at a time: four words are one number, and rows, columns and diagonals of 16
// words are a few folds of four numbers. All of it is shifts, masks and exclusive or, so it is proved by its values at single places.
//
// The crate block_code says what the checks are. The public function is a step of the block's calls, which accepts every input
// (specs/Steps.antt).
#![tactic(auto)]

ghost use Rattle.std.specs.Prelude.{◌≡◌, ℕ};
ghost use Rattle.words.specs.Digits.{digits, joined};
ghost use Rattle.block_code.specs.Code.{stacked, rows_of, columns_of};
ghost use Rattle.block_sums.specs.Steps.{Said};

use block_code::Checks;

// Four words as one number, the first lowest: the four reads are one load.
fn number(words: &[u16; 4]) -> u64
    ensures { result ≡ joined 16 words.now }
{
    let [a, b, c, d] = *words;
    u64::from(a) ^ (u64::from(b) << 16) ^ (u64::from(c) << 32) ^ (u64::from(d) << 48)
}

// The row parities of 16 words, four to a number. Each word is folded to half its width, and a word of another number is folded into the
// half that this frees; twice, so that each 16 bits have four bits of each number, in order. These are folded on, to one, and then the
// parities of a number's words stand 16 places apart: they are brought side by side.
fn rows_of(words: [u64; 4]) -> u32
    ensures { (w : ℕ) → digits 64 4 w ≡ words → result ≡ rows_of (digits 16 16 w) }
{
    let [a, b, c, d] = words;
    let p = ((a ^ (a >> 8)) & 0x00FF_00FF_00FF_00FF) ^ ((c ^ (c << 8)) & 0xFF00_FF00_FF00_FF00);
    let q = ((b ^ (b >> 8)) & 0x00FF_00FF_00FF_00FF) ^ ((d ^ (d << 8)) & 0xFF00_FF00_FF00_FF00);
    let fours = ((p ^ (p >> 4)) & 0x0F0F_0F0F_0F0F_0F0F) ^ ((q ^ (q << 4)) & 0xF0F0_F0F0_F0F0_F0F0);
    let twos = fours ^ (fours >> 2);
    let ones = (twos ^ (twos >> 1)) & 0x1111_1111_1111_1111;
    let pairs = ones ^ (ones >> 15);
    ((pairs ^ (pairs >> 30)) & 0xFFFF) as u32
}

// The exclusive or of a number's four words.
fn columns_of(x: u64) -> u16
    ensures { result ≡ columns_of (digits 16 4 x) }
{
    let half = x ^ (x >> 32);
    ((half ^ (half >> 16)) & 0xFFFF) as u16
}

// The diagonals of 16 words, four to a number: each word stands one place higher than the word before it. First the two words of each half
// of a number are laid together, then the numbers, then the halves.
fn diagonals_of(words: [u64; 4]) -> u64
    ensures { (w : ℕ) → digits 64 4 w ≡ words → result ≡ stacked 1 (λ x. x) (digits 16 16 w) }
{
    let [a, b, c, d] = words;
    let p = (a & 0x0000_FFFF_0000_FFFF) ^ ((a >> 15) & 0x0001_FFFE_0001_FFFE);
    let q = (b & 0x0000_FFFF_0000_FFFF) ^ ((b >> 15) & 0x0001_FFFE_0001_FFFE);
    let r = (c & 0x0000_FFFF_0000_FFFF) ^ ((c >> 15) & 0x0001_FFFE_0001_FFFE);
    let s = (d & 0x0000_FFFF_0000_FFFF) ^ ((d >> 15) & 0x0001_FFFE_0001_FFFE);
    let halves = p ^ (q << 4) ^ (r << 8) ^ (s << 12);
    (halves ^ (halves >> 30)) & 0x7FFF_FFFF
}

// What the 32 data words at the front say that the checks are, and nothing where there are not so many words. Four words are one number.
// The rows and the diagonals are those of 16 words and 16 more, which stand 16 places higher. The system parity is that of the columns, for
// they too have each data bit once.
// No Option: by docs/PROMISES.md a step accepts every input, and `Said` has this answer.
pub fn said(words: &[u16]) -> Checks
    ensures { Said words.now result }
{
    let [a, b, c, d, e, f, g, h, ..] = words.as_chunks::<4>().0 else {
        return Checks::default();
    };
    let low = [number(a), number(b), number(c), number(d)];
    let high = [number(e), number(f), number(g), number(h)];
    let columns = columns_of(
        low[0] ^ low[1] ^ low[2] ^ low[3] ^ high[0] ^ high[1] ^ high[2] ^ high[3],
    );
    let system = u64::from(columns.count_ones() & 1);
    Checks {
        rows: (rows_of(high) << 16) ^ rows_of(low),
        columns,
        diagonals: (diagonals_of(high) << 16) ^ diagonals_of(low) ^ (system << 47),
    }
}
