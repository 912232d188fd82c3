// The card image put to use: scrubbed where it stands, written, and read back. Each call is a crate of its own; specs/Promises.antt has
// what is proved of the three together.
#![tactic(auto)]

pub use card_read::{Lengths, read};
pub use card_scrub::{Tallies, scrub};
pub use card_write::write;
pub use refusals::Refusal;
pub use value_scrub::Blocks;
