// A field of a card image: its rules, and which field stands at the front of some bytes.
//
//     01  title   1 to 24 bytes, each 20 to 7E hex
//     02  grids   0 to 4,096 bytes, a multiple of 8: rows 0 to 7 of grid after grid
//     03  block   76 bytes: 38 words, low byte first
//     7F  end     no bytes
//
// A field is its tag, two length bytes, high byte first, and its value. How many of them an image has, and in which order, the crate image
// says.
//
// specs/Fields.antt has the rules, specs/Calls.antt what each call promises, and specs/Promises.antt what is proved of it.
#![tactic(auto)]

ghost use Rattle.std.specs.Prelude.{◌≡◌, ◌≤◌, ◌<◌, length};
ghost use Rattle.fields.specs.Calls.{Tagged, TagRead, Classified, Searched, Measured};
ghost use Rattle.fields.specs.Fields.{head_bytes, size, title_byte, is_title, is_grids, of_tag};
ghost use Rattle.fields.specs.Tags.{byte_of};

// The tags of the fields.
#[derive(Clone, Copy, Debug, PartialEq, Eq)]
pub enum Tag {
    Title,
    Grids,
    Block,
    End,
}

// A byte that is no tag.
#[derive(Clone, Copy, Debug, PartialEq, Eq)]
pub struct UnknownTag(pub u8);

impl From<Tag> for u8 {
    ghost from_gives = { Tagged };

    fn from(tag: Tag) -> u8 {
        match tag {
            Tag::Title => 1,
            Tag::Grids => 2,
            Tag::Block => 3,
            Tag::End => 0x7F,
        }
    }
}

impl TryFrom<u8> for Tag {
    type Error = UnknownTag;

    ghost try_from_gives = { TagRead };

    fn try_from(byte: u8) -> Result<Self, UnknownTag> {
        match byte {
            1 => Ok(Tag::Title),
            2 => Ok(Tag::Grids),
            3 => Ok(Tag::Block),
            0x7F => Ok(Tag::End),
            _ => Err(UnknownTag(byte)),
        }
    }
}

// A field. Title and grids come with the length of their value.
#[derive(Clone, Copy, Debug, PartialEq, Eq)]
pub enum Field {
    Title(usize),
    Grids(usize),
    Block,
    End,
}

// The bytes of a field's tag and length, of a title, of grids at most, and of a block.
pub const HEAD: usize = 3;

pub const TITLE_LEAST: usize = 1;

pub const TITLE_MOST: usize = 24;

pub const GRIDS_MOST: usize = 4096;

pub const BLOCK: usize = 76;

// The two length bytes of the field at the front, high byte first.
fn size(rest: &[u8]) -> usize
    requires { head_bytes ≤ length rest.now }
    ensures { (result ≡ size rest.now) × (result < 65536) }
{
    usize::from(u16::from_be_bytes([rest[1], rest[2]]))
}

// Whether a title can have this byte.
fn is_title_byte(b: u8) -> bool
    ensures { result ≡ title_byte b }
{
    (0x20..=0x7E).contains(&b)
}

// The place of the first byte that no title has, if there is one.
pub fn first_bad(bytes: &[u8]) -> Option<usize>
    ensures { Searched bytes.now result }
{
    bytes.iter().position(|&b| !is_title_byte(b))
}

// Whether a title can have this length.
pub fn is_title_length(n: usize) -> bool
    ensures { Measured n result }
{
    (TITLE_LEAST..=TITLE_MOST).contains(&n)
}

// Whether these bytes are the value of a title.
fn is_title(bytes: &[u8]) -> bool
    ensures { result ≡ is_title bytes.now }
{
    is_title_length(bytes.len()) && first_bad(bytes).is_none()
}

// Whether grids can have this length.
fn is_grids(n: usize) -> bool
    ensures { result ≡ is_grids n }
{
    n <= GRIDS_MOST && n % 8 == 0
}

// The field of a tag and a value, or none: the value has another length, or a bad title byte.
fn of_tag(tag: Tag, value: &[u8]) -> Option<Field>
    ensures { result ≡ of_tag (byte_of tag) value.now }
{
    let n = value.len();
    match tag {
        Tag::Title => is_title(value).then_some(Field::Title(n)),
        Tag::Grids => is_grids(n).then_some(Field::Grids(n)),
        Tag::Block => (n == BLOCK).then_some(Field::Block),
        Tag::End => (n == 0).then_some(Field::End),
    }
}

// The field at the front of a slice, or none: at least one rule fails there.
#[tactic(auto, using(crate::proofs::Fields::past_end))]
pub fn front(rest: &[u8]) -> Option<Field>
    ensures { Classified rest.now result }
{
    if rest.len() < HEAD {
        return None;
    }
    let end = HEAD + size(rest);
    if rest.len() < end {
        return None;
    }
    of_tag(Tag::try_from(rest[0]).ok()?, &rest[HEAD..end])
}
