// The bench of the open day: reads a card image from standard input, scrubs it in memory, and prints the title and the two tallies, or the
// one line of a refusal. The work is in the library; this reads and writes.
#![tactic(auto)]

use arrayvec::ArrayVec;
use std::io;
use std::io::{Read, Write};

// One byte more than the longest image is read, so that a longer one is told from it.
const MOST_READ: usize = image::MOST_BYTES + 1;

// The text has room for every answer, so that the call does not refuse it.
fn main(rt: HostRuntime) -> io::Result<()> {
    let mut image = ArrayVec::<u8, MOST_READ>::new();
    let mut text = [0u8; lines::ROOM];
    io::copy(&mut rt.reader().take(MOST_READ as u64), &mut image)?;
    let Ok(many) = lines::scrub(&mut image, &mut text) else {
        return Ok(());
    };
    io::writer(&rt).write_all(&text[..many])
}
