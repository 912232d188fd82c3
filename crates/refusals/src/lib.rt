// The refusals (docs/FORMAT.md): one list for every call. A call that can refuse answers `Ok`, with what it gives, or `Err` with one of
// these, and a refusal passes through its callers whole.
//
// specs/Reply.antt has the table, and what an answer says in its terms; specs/Calls.antt what each call here promises.
#![tactic(auto)]

ghost use Rattle.refusals.specs.Calls.{TableNumber, TablePlace};

// A case for each number of the table. Broken has the place of the break: an offset in an image, or a byte's place in a title.
#[derive(Clone, Copy, Debug, PartialEq, Eq, Hash)]
pub enum Refusal {
    LostGrid,
    LostBlock,
    Length,
    Broken(usize),
    Room,
    Erased,
}

impl Refusal {
    // Its number in the table, which C and the bench show.
    pub fn number(self) -> u32
        ensures { TableNumber self result }
    {
        match self {
            Refusal::LostGrid => 1,
            Refusal::LostBlock => 2,
            Refusal::Length => 3,
            Refusal::Broken(_) => 4,
            Refusal::Room => 6,
            Refusal::Erased => 7,
        }
    }

    // The place that is returned with it, where the table names one.
    pub fn place(self) -> Option<usize>
        ensures { TablePlace self result }
    {
        match self {
            Refusal::Broken(at) => Some(at),
            Refusal::LostGrid
            | Refusal::LostBlock
            | Refusal::Length
            | Refusal::Room
            | Refusal::Erased => None,
        }
    }
}
