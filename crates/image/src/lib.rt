// The card image: the check of a whole image, and its title.
//
// An image is one title, then at most 16 fields that are grids or a block, and one end with nothing behind it; what each of them is, the
// crate fields says. An image that breaks a rule is refused with the offset of the first field at which a rule fails.
//
// specs/Card.antt has what an image holds and where it is broken, specs/Calls.antt what each call promises, and specs/Promises.antt what is
// proved of it.
#![tactic(auto)]

ghost use Rattle.std.specs.Prelude.{◌≡◌, ◌≤◌, length, drop};
ghost use Rattle.image.specs.Calls.{Checked, TitleGiven};
ghost use Rattle.image.specs.Card.{most_bytes, data_fields, walk};
ghost use Rattle.image.specs.Steps.{found_after, Roomy, behind_data, Inside, Stepped, title_size};
ghost use Rattle.fields.specs.Fields.{field_of};

use fields::{BLOCK, Field, HEAD};
use refusals::Refusal;
use std::ops::ControlFlow;

// What a check counts: the grids and the blocks of an image.
#[derive(Clone, Copy, Debug, PartialEq, Eq)]
pub struct Counts {
    pub grids: usize,
    pub blocks: usize,
}

// The longest image, and the most data fields.
pub const MOST_BYTES: usize = 32768;

pub const DATA_FIELDS: usize = 16;

// How far a walk has come: the offset of the next field, how many data fields may still come, and what was counted before it.
#[derive(Drop)]
struct Progress {
    pub at: usize,
    pub left: usize,
    pub grids: usize,
    pub blocks: usize,
}

// Behind a data field of `size` bytes, head and value, with so many grids and blocks. Where no data field may come any more, it breaks the
// image.
fn behind(p: Progress, size: usize, grids: usize, blocks: usize) -> Result<Progress, Refusal>
    requires { Roomy p size grids blocks }
    ensures { result ≡ behind_data p size grids blocks }
{
    let at = p.at;
    let left = p.left;
    if left == 0 {
        return Err(Refusal::Broken(at));
    }
    Ok(Progress {
        at: at + size,
        left: left - 1,
        grids: p.grids + grids,
        blocks: p.blocks + blocks,
    })
}

// From the field that is next: on to the one behind it, or the walk is over.
#[tactic(auto, using(crate::proofs::Stepping::end_found))]
fn next(image: &[u8], p: Progress) -> Result<ControlFlow<Counts, Progress>, Refusal>
    requires { Inside image.now p }
    ensures { Stepped image.now p result }
{
    let at = p.at;
    let rest = &image[at..];
    match fields::front(rest).ok_or(Refusal::Broken(at))? {
        Field::Grids(n) => Ok(ControlFlow::Continue(behind(p, HEAD + n, n / 8, 0)?)),
        Field::Block => Ok(ControlFlow::Continue(behind(p, HEAD + BLOCK, 0, 1)?)),
        Field::End => {
            if rest.len() == HEAD {
                return Ok(ControlFlow::Break(Counts {
                    grids: p.grids,
                    blocks: p.blocks,
                }));
            }
            let end = at + HEAD;
            Err(Refusal::Broken(end))
        }
        Field::Title(_) => Err(Refusal::Broken(at)),
    }
}

// The fields from an offset on. No `for`: only the step knows how far a field goes.
fn walk(image: &[u8], from: usize) -> Result<Counts, Refusal>
    requires { (from ≤ length image.now) × (length image.now ≤ most_bytes) }
    ensures { result ≡ found_after 0 0 (walk data_fields from (drop from image.now)) }
{
    let mut p = Progress {
        at: from,
        left: DATA_FIELDS,
        grids: 0,
        blocks: 0,
    };
    loop {
        match next(image, p)? {
            ControlFlow::Continue(behind) => {
                p = behind;
            }
            ControlFlow::Break(counts) => {
                return Ok(counts);
            }
        }
    }
}

// The length of the title in front, where there is one.
fn title_size(image: &[u8]) -> Option<usize>
    ensures { result ≡ title_size (field_of image.now) }
{
    match fields::front(image)? {
        Field::Title(n) => Some(n),
        Field::Grids(_) | Field::Block | Field::End => None,
    }
}

// Checks a whole image.
pub fn check(image: &[u8]) -> Result<Counts, Refusal>
    ensures { Checked image.now result }
{
    if image.len() > MOST_BYTES {
        return Err(Refusal::Length);
    }
    let n = title_size(image).ok_or(Refusal::Broken(0))?;
    walk(image, HEAD + n)
}

// The title of an image, as it stands there; no bytes where the first field is no title, for the call never failed.
pub fn title(image: &[u8]) -> &[u8]
    ensures { TitleGiven image.now result.now }
{
    match title_size(image) {
        Some(n) => &image[HEAD..HEAD + n],
        None => &image[..0],
    }
}
