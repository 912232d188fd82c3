// What is printed of a scrub: the title and both tallies, or the line of a refusal, as bytes over the front of a slice.
//
// The lines are put together in a vector on the stack, each step behind what stands there already, and then copied to the slice.
//
// specs/Text.antt has the lines, specs/Calls.antt what the call answers and leaves, and specs/Promises.antt what is proved of it.
#![tactic(auto)]

ghost use Rattle.std.specs.Prelude.{◌≡◌, ◌++◌, ◌+◌, ◌≤◌, length};
ghost use Rattle.arrayvec.specs.ArrayVec.{array_vec_len};
ghost use Rattle.fields.specs.Fields.{title_most};
ghost use Rattle.lines.specs.Text.{decimal, title_line, grids_line, blocks_line, place_text, refused_line};
ghost use Rattle.lines.specs.Calls.{room, Printed};
ghost use Rattle.lines.specs.Steps.{word_room, title_room, grids_room, blocks_room, place_room, refused_room, lines_with, Added};

use arrayvec::ArrayVec;
use card::{Blocks, Refusal, Tallies};
use page::Tally;

// The most bytes that the three lines can have: a title of 24 bytes, and eleven numbers of ten digits.
pub const ROOM: usize = 219;

// Lines as they are put together, with room for all of them.
type Text = ArrayVec<u8, ROOM>;

// Bytes as they are. Tried with `write!`, and not proved: no clause says that it succeeds where there is room.
fn put(text: &mut Text, bytes: &[u8])
    requires { array_vec_len text.old + length bytes.now ≤ room }
    ensures { Added bytes.now (length bytes.now) text.old text.new }
{
    text.try_extend_from_slice(bytes).unwrap();
}

// A number in decimal, of 20 digits at most. They come last one first, so they are turned around.
// Tried with `itoa`: its table of 200 bytes misses the bar of 64 for the largest table of `libharness_card.a`.
fn decimal(text: &mut Text, n: u64)
    requires { array_vec_len text.old + length (decimal n) ≤ room }
    ensures { Added (decimal n) (length (decimal n)) text.old text.new }
{
    let mut digits = ArrayVec::<u8, 20>::new();
    let mut rest = n;
    loop {
        digits.push(b'0' + (rest % 10) as u8);
        if rest < 10 {
            break;
        }
        rest /= 10;
    }
    digits.reverse();
    put(text, &digits);
}

// A word, and a number behind it.
fn labelled(text: &mut Text, word: &[u8], n: u32)
    requires { array_vec_len text.old + word_room word.now ≤ room }
    ensures { Added (word.now ++ decimal n) (word_room word.now) text.old text.new }
{
    put(text, word);
    decimal(text, u64::from(n));
}

// The lines, with words and numbers in the order in which they are printed.
fn title_line(text: &mut Text, title: &[u8])
    requires { array_vec_len text.old + title_room title.now ≤ room }
    ensures { Added (title_line title.now) (title_room title.now) text.old text.new }
{
    put(text, b"title ");
    put(text, title);
    put(text, b"\n");
}

fn grids_line(text: &mut Text, t: Tally)
    requires { array_vec_len text.old + grids_room ≤ room }
    ensures { Added (grids_line t) grids_room text.old text.new }
{
    labelled(text, b"grids ", t.grids);
    labelled(text, b" clean ", t.clean);
    labelled(text, b" blank ", t.blank);
    labelled(text, b" mended ", t.mended);
    labelled(text, b" lost ", t.lost);
    labelled(text, b" flips ", t.flips);
    put(text, b"\n");
}

fn blocks_line(text: &mut Text, t: Blocks)
    requires { array_vec_len text.old + blocks_room ≤ room }
    ensures { Added (blocks_line t) blocks_room text.old text.new }
{
    labelled(text, b"blocks ", t.blocks);
    labelled(text, b" clean ", t.clean);
    labelled(text, b" mended ", t.mended);
    labelled(text, b" lost ", t.lost);
    labelled(text, b" flips ", t.flips);
    put(text, b"\n");
}

// The place of a refusal, if there is one.
fn place(text: &mut Text, place: Option<usize>)
    requires { array_vec_len text.old + place_room ≤ room }
    ensures { Added (place_text place) place_room text.old text.new }
{
    if let Some(n) = place {
        put(text, b" at ");
        decimal(text, n as u64);
    }
}

fn refused_line(text: &mut Text, why: Refusal)
    requires { array_vec_len text.old + refused_room ≤ room }
    ensures { Added (refused_line why) refused_room text.old text.new }
{
    labelled(text, b"refused ", why.number());
    place(text, why.place());
    put(text, b"\n");
}

// All three lines.
fn card_lines(text: &mut Text, title: &[u8], tallies: Tallies)
    requires { (length title.now ≤ title_most) × (array_vec_len text.old ≡ 0) }
    ensures { Added (lines_with title.now tallies) room text.old text.new }
{
    title_line(text, title);
    grids_line(text, tallies.grids);
    blocks_line(text, tallies.blocks);
}

// Scrubs an image as `card::scrub` does, and lays the lines of its answer over the front of `text`; how many bytes they have is returned,
// since C lends `text`. The title is read after the scrub, which leaves it as it was: only then is it known that there is one.
pub fn scrub(image: &mut [u8], text: &mut [u8]) -> Result<usize, Refusal>
    ensures { Printed image.old text.old result image.new text.new }
{
    if text.len() < ROOM {
        return Err(Refusal::Room);
    }
    let mut lines = Text::new();
    match card::scrub(image) {
        Err(why) => refused_line(&mut lines, why),
        Ok(tallies) => card_lines(&mut lines, image::title(image), tallies),
    }
    text[..lines.len()].copy_from_slice(&lines);
    Ok(lines.len())
}
