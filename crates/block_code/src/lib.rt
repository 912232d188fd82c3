// The code of the block: its 96 checks as three numbers, and which of them a flipped place changes. What data says that they are is worked
// out in the crate block_sums.
//
// specs/Equations.antt has the parities of docs/FORMAT.md, specs/Code.antt their one solution for all data, and specs/Promises.antt what is
// proved of the code. The type and its calls are in the crate block; each function here is a step of them, which accepts every input
// (specs/Checks.antt, specs/Outcomes.antt).
#![tactic(auto)]

ghost use Rattle.block_code.specs.Checks.{Mixed, IsNone, OfPlace};

use std::ops::BitXor;

// Row parities, column parities, and the diagonals with the system parity as bit 47.
#[derive(Clone, Copy, Debug, Default, PartialEq, Eq)]
pub struct Checks {
    pub rows: u32,
    pub columns: u16,
    pub diagonals: u64,
}

// Where two differ.
impl BitXor for Checks {
    type Output = Checks;

    ghost bitxor_gives = { λ a b r. Mixed a b r };

    fn bitxor(self, other: Checks) -> Checks {
        Checks {
            rows: self.rows ^ other.rows,
            columns: self.columns ^ other.columns,
            diagonals: self.diagonals ^ other.diagonals,
        }
    }
}

impl Checks {
    // Whether none is set.
    pub fn is_none(self) -> bool
        ensures { IsNone self result }
    {
        self == Checks::default()
    }
}

// The checks that a flip at `place` changes: those that a data place stands in, or the check itself, and none past the last of the 608.
// No Option: by docs/PROMISES.md a step accepts every input, and `OfPlace` has this answer.
pub fn of_place(place: usize) -> Checks
    ensures { OfPlace place result }
{
    match place {
        0..512 => {
            let row = place / 16;
            let bit = place % 16;
            Checks {
                rows: 1 << row,
                columns: 1 << bit,
                diagonals: (1 << (row + bit)) ^ (1 << 47),
            }
        }
        512..544 => Checks {
            rows: 1 << (place - 512),
            ..Checks::default()
        },
        544..560 => Checks {
            columns: 1 << (place - 544),
            ..Checks::default()
        },
        560..608 => Checks {
            diagonals: 1 << (place - 560),
            ..Checks::default()
        },
        _ => Checks::default(),
    }
}
