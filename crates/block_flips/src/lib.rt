// At most two flips that explain a syndrome, the checks in which what the data says and what the block holds differ: guess one of them, and
// verify it by what is left.
//
// A flipped data place is in the syndrome by its row, its column and its diagonal, and two of the three name it. One is spoilt by a flipped
// check, or gone where two data places share it. If no row is left, the lowest column and the lowest diagonal are those of one place; if no
// column is left, the row and the diagonal are. Else, if the lowest row, column and diagonal meet, they meet at a place. If they do not,
// and there are two columns, the lowest row has the second: the first is another place's, or a flipped check. If there is one column, it
// has the highest row: a lower one is a flipped check. And where no data place is flipped, the lowest check is.
//
// The public function is a step of the block's calls, which accepts every input (specs/Steps.antt).
#![tactic(auto)]

ghost use Rattle.std.specs.Prelude.{◌≡◌, ◌⊎◌, ◌+◌, ◌*◌, ◌^◌, ◌≤◌, ◌<◌, IfSome, None, Some};
ghost use Rattle.std.specs.Option.{option_map};
ghost use Rattle.std.specs.Int.Bits.{bit_xor};
ghost use Rattle.std.specs.Int.Count.{count_trailing_zeros};
ghost use Rattle.block_flips.specs.Steps.{lowest_of, Explained, OnlyPlace, Attempted, Guessed, in_order, Nearest};

use block_code::Checks;
use std::cmp::Ordering;

// The places of the flips, of two the lower first; plain numbers, as `block_words::flip` takes them.
#[derive(Clone, Copy, Debug, PartialEq, Eq)]
pub enum Flips {
    One(usize),
    Two(usize, usize),
}

// A place of the block: one of 512 of data, or of 96 checks.
#[derive(Clone, Copy)]
struct Place {
    index: usize,
    ghost below: { index < 608 },
}

// The data place at a row and a column, where there is one.
fn place_at(row: u32, column: u32) -> Option<Place>
    ensures { row < 32 → column < 16 → option_map (λ p. p.index) result ≡ Some (16 * row + column) }
{
    if row >= 32 || column >= 16 {
        return None;
    }
    Some(Place {
        index: (16 * row + column) as usize,
    })
}

// The lowest check that is set; none where none of the 96 is.
fn lowest(s: Checks) -> Option<Place>
    ensures lowest { IfSome result (λ p. lowest_of s ≡ p.index) }
    ensures none { result ≡ None → 608 ≤ lowest_of s }
{
    if s.rows != 0 {
        return Some(Place {
            index: (512 + s.rows.trailing_zeros()) as usize,
        });
    }
    if s.columns != 0 {
        return Some(Place {
            index: (544 + s.columns.trailing_zeros()) as usize,
        });
    }
    let t = s.diagonals.trailing_zeros();
    if t < 48 {
        return Some(Place {
            index: (560 + t) as usize,
        });
    }
    None
}

// The second lowest bit of x that is set, and 16 where there is none: an Option would be no plainer than `trailing_zeros`, which has it so.
fn second(x: u16) -> u32
    ensures { count_trailing_zeros 16 x < 16 → result ≡ count_trailing_zeros 16 (bit_xor x (2 ^ count_trailing_zeros 16 x)) }
{
    let c = x.trailing_zeros();
    if c < 16 {
        (x ^ (1 << c)).trailing_zeros()
    } else {
        16
    }
}

// Whether a flip at `place` is all that s says.
fn explains(place: Place, s: Checks) -> bool
    ensures { Explained place.index s result }
{
    (s ^ block_code::of_place(place.index)).is_none()
}

// The check that alone explains s, where there is one: for a syndrome with no row or no column.
fn lone_check(s: Checks) -> Option<Place>
    ensures { (count_trailing_zeros 32 s.rows ≡ 32) ⊎ (count_trailing_zeros 16 s.columns ≡ 16) → OnlyPlace s (option_map (λ p. p.index) result) }
{
    let low = lowest(s)?;
    if explains(low, s) { Some(low) } else { None }
}

// The place that alone explains s, where there is one. With no row r is 32, and with no column c is 16.
fn alone(s: Checks) -> Option<Place>
    ensures { OnlyPlace s (option_map (λ p. p.index) result) }
{
    let r = s.rows.trailing_zeros();
    let c = s.columns.trailing_zeros();
    if r == 32 || c == 16 {
        return lone_check(s);
    }
    let p = place_at(r, c)?;
    if explains(p, s) { Some(p) } else { None }
}

// Two places as flips, the lower first. The same place twice is no flip.
fn in_order(p: Place, q: Place) -> Option<Flips>
    ensures { result ≡ in_order p.index q.index }
{
    match p.index.cmp(&q.index) {
        Ordering::Less => Some(Flips::Two(p.index, q.index)),
        Ordering::Greater => Some(Flips::Two(q.index, p.index)),
        Ordering::Equal => None,
    }
}

// The place p tried as one of the flips.
fn attempt(s: Checks, p: Place) -> Option<Flips>
    ensures { Attempted s p.index result }
{
    let rest = s ^ block_code::of_place(p.index);
    if rest.is_none() {
        return Some(Flips::One(p.index));
    }
    in_order(p, alone(rest)?)
}

// The data place to guess: one of the flips, if one of them is a data place.
fn chosen(s: Checks) -> Option<Place>
    ensures { Guessed s (option_map (λ p. p.index) result) }
{
    let r = s.rows.trailing_zeros();
    let c = s.columns.trailing_zeros();
    let t = s.diagonals.trailing_zeros();
    if s.rows == 0 {
        return place_at(t.saturating_sub(c), c);
    }
    if s.columns == 0 {
        return place_at(r, t.saturating_sub(r));
    }
    if t == r + c {
        return place_at(r, c);
    }
    let other = second(s.columns);
    if other < 16 {
        return place_at(r, other);
    }
    place_at(31u32.saturating_sub(s.rows.leading_zeros()), c)
}

// The one flip or the two that explain a syndrome, where there are any; an empty one has none. A loop over the two guesses, for two calls
// of `attempt` miss the bars: 470 counted for `block-flips-crossed`, of 430, and 444 for `block-lost`, of 400.
pub fn nearest(s: Checks) -> Option<Flips>
    ensures { Nearest s result }
{
    let check = lowest(s)?;
    for p in [chosen(s).unwrap_or(check), check] {
        let found = attempt(s, p);
        if found.is_some() {
            return found;
        }
    }
    None
}
