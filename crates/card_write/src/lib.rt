// The writer of card images: title, one grids field, end, laid over the front of a slice.
//
// specs/Calls.antt says what the call answers and leaves, and specs/Answer.antt what the answer says.
#![tactic(auto)]

ghost use Rattle.std.specs.Prelude.{◌≡◌, map, ◌++◌, ◌+◌, ◌*◌, ◌≤◌, ◌<◌, length};
ghost use Rattle.words.specs.Bytes.{bytes_of, laid};
ghost use Rattle.grid_code.specs.Code.{codeword};
ghost use Rattle.page.specs.Calls.{most_grids};
ghost use Rattle.fields.specs.Fields.{head_bytes};
ghost use Rattle.fields.specs.Tags.{byte_of};
ghost use Rattle.image.specs.Card.{grids, head, part_bytes, image_of};
ghost use Rattle.card_write.specs.Calls.{card_with, size_written, none_erased, written_as, Wrote};
ghost use Rattle.card_write.specs.Steps.{Fits};

use fields::{HEAD, Tag};
use grid::Grid;
use refusals::Refusal;

// A field's tag and length, high byte first.
fn head(bytes: &mut [u8], tag: Tag, n: usize)
    requires { (head_bytes ≤ length bytes.old) × (n < 65536) }
    ensures { bytes.new ≡ laid (head (byte_of tag) n) bytes.old }
{
    let [high, low] = (n as u16).to_be_bytes();
    bytes[0] = u8::from(tag);
    bytes[1] = high;
    bytes[2] = low;
}

// The grids of the numbers, one behind the other.
fn grids(bytes: &mut [u8], numbers: &[u16])
    requires { 8 * length numbers.now ≤ length bytes.old }
    ensures { bytes.new ≡ laid (bytes_of 8 (map codeword numbers.now)) bytes.old }
{
    // By ranges: no proof knows what a slice holds after `chunks_exact_mut`, or a zip on `iter_mut`.
    for (i, number) in numbers.iter().enumerate() {
        values::put_grid(
            &mut bytes[8 * i..8 * (i + 1)],
            Grid::from(grid_code::encoded(*number)),
        );
    }
}

// One grids field, and the end.
fn lay_grids(numbers: &[u16], image: &mut [u8])
    requires { (length numbers.now ≤ most_grids) × (2 * head_bytes + 8 * length numbers.now ≤ length image.old) }
    ensures { image.new ≡ laid (part_bytes (grids (map codeword numbers.now)) ++ head 127 0) image.old }
{
    let size = 8 * numbers.len();
    let end = HEAD + size;
    head(image, Tag::Grids, size);
    grids(&mut image[HEAD..], numbers);
    head(&mut image[end..], Tag::End, 0);
}

// The whole image.
fn lay(title: &[u8], numbers: &[u16], image: &mut [u8])
    requires { Fits title.now numbers.now image.old }
    ensures { image.new ≡ laid (image_of (card_with title.now numbers.now)) image.old }
{
    let end = HEAD + title.len();
    head(image, Tag::Title, title.len());
    values::copy(title, &mut image[HEAD..]);
    lay_grids(numbers, &mut image[end..]);
}

// Whether none of the numbers is 65,535, which is not stored: its grid is an erased one.
fn none_erased(numbers: &[u16]) -> bool
    ensures { result ≡ none_erased numbers.now }
{
    !numbers.contains(&grid_code::ERASED)
}

// What the writer answers, where there are `room` bytes: the refusals in their order, or the size of the image.
fn answer_for(title: &[u8], numbers: &[u16], room: usize) -> Result<usize, Refusal>
    ensures { result ≡ written_as title.now numbers.now room Err (Ok (size_written title.now numbers.now)) }
{
    if !fields::is_title_length(title.len()) {
        return Err(Refusal::Length);
    }
    if numbers.len() > page::MOST_GRIDS {
        return Err(Refusal::Length);
    }
    if let Some(bad) = fields::first_bad(title) {
        return Err(Refusal::Broken(bad));
    }
    if !none_erased(numbers) {
        return Err(Refusal::Erased);
    }
    let size = 3 * HEAD + title.len() + 8 * numbers.len();
    if room < size {
        return Err(Refusal::Room);
    }
    Ok(size)
}

// The image of a title and of numbers, into a slice: title, one grids field, end. How many bytes it has is returned. C lends `title`,
// `numbers` and `image`, each by itself, so a slice is lent and a length returned.
pub fn write(title: &[u8], numbers: &[u16], image: &mut [u8]) -> Result<usize, Refusal>
    ensures { Wrote title.now numbers.now image.old result image.new }
{
    let size = answer_for(title, numbers, image.len())?;
    lay(title, numbers, image);
    Ok(size)
}
