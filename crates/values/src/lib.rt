// The bytes of a field's value as grids and as words, and back. Each public function works at the front of a slice, and accepts every
// input: where the lengths do not fit, nothing is written.
//
// specs/Steps.antt says what each of them does. No promise to a caller cites this crate.
#![tactic(auto)]

ghost use Rattle.std.specs.Prelude.{◌≡◌, ℕ, List, map, ◌≤◌, ◌<◌, length, take};
ghost use Rattle.std.proofs.Common.{rules, sym};
ghost use Rattle.std.proofs.lemmas.List.{map-id};
ghost use Rattle.words.specs.Digits.{digits, joined};
ghost use Rattle.words.specs.Bytes.{laid};
ghost use Rattle.values.specs.Steps.{FirstRows, Copied, Taken, Put};

use grid::Grid;

// A number of N bytes, lowest byte first: a word of the block, or the number of a grid.
pub trait Word<const N: usize>: Copy {
    ghost number: { Self → ℕ };

    // A list of words as a list of numbers. `each` says that it is `number` of each word; for u16 and u64 it is the list itself, so that
    // what the callers state of their slices needs no `map`.
    ghost numbers: { List Self → List ℕ };

    fn from_bytes(bytes: [u8; N]) -> Self
        ensures { number result ≡ joined 8 bytes.entry };

    fn to_bytes(self) -> [u8; N]
        ensures { result ≡ digits 8 N (number self) };

    ghost each: { (words : List Self) → numbers words ≡ map number words };

    ghost size: { (0 < N) × (N ≤ 8) };
}

impl Word<2> for u16 {
    ghost number = { λ word. word };

    ghost numbers = { λ words. words };

    ghost each = { λ words. sym (map-id words) };

    ghost size = { Prim.search rules };

    fn from_bytes(bytes: [u8; 2]) -> u16
        ensures { result ≡ joined 8 bytes }
    {
        u16::from_le_bytes(bytes)
    }

    fn to_bytes(self) -> [u8; 2] {
        u16::to_le_bytes(self)
    }
}

impl Word<8> for u64 {
    ghost number = { λ word. word };

    ghost numbers = { λ words. words };

    ghost each = { λ words. sym (map-id words) };

    ghost size = { Prim.search rules };

    fn from_bytes(bytes: [u8; 8]) -> u64
        ensures { result ≡ joined 8 bytes }
    {
        u64::from_le_bytes(bytes)
    }

    fn to_bytes(self) -> [u8; 8] {
        u64::to_le_bytes(self)
    }
}

// The grid whose rows are the first eight bytes, ..
pub fn grid(bytes: &[u8]) -> Grid
    ensures { FirstRows bytes.now result.rows }
{
    match bytes.first_chunk() {
        Some(rows) => Grid { rows: *rows },
        None => Grid { rows: [0; 8] },
    }
}

// .. and the rows put there.
pub fn put_grid(bytes: &mut [u8], grid: Grid)
    ensures { Copied grid.rows bytes.old bytes.new }
{
    copy(&grid.rows, bytes);
}

// Bytes to the front of a slice.
pub fn copy(bytes: &[u8], to: &mut [u8])
    ensures { Copied bytes.now to.old to.new }
{
    if to.len() < bytes.len() {
        return;
    }
    // By index: `copy_from_slice` is a call of `memmove`, which a program would have to bring for the card's archive.
    for i in 0..bytes.len() {
        to[i] = bytes[i];
    }
}

// The words of a value, or its grids as numbers, ..
pub fn read<T: Word<N>, const N: usize>(bytes: &[u8], words: &mut [T])
    ensures { Taken N bytes.now (T.numbers words.old) (T.numbers words.new) }
{
    let (chunks, _) = bytes.as_chunks::<N>();
    if chunks.len() < words.len() {
        return;
    }
    // By index: no proof knows what a slice holds after a chain on `iter_mut`.
    for i in 0..words.len() {
        words[i] = T::from_bytes(chunks[i]);
    }
}

// .. and back.
pub fn write<T: Word<N>, const N: usize>(bytes: &mut [u8], words: &[T])
    ensures { Put N (T.numbers words.now) bytes.old bytes.new }
{
    if bytes.len() / N < words.len() {
        return;
    }
    // By ranges: no proof knows what a slice holds after `chunks_exact_mut`, or a zip on `iter_mut`.
    for (i, word) in words.iter().enumerate() {
        bytes[N * i..N * (i + 1)].copy_from_slice(&word.to_bytes());
    }
}
