// Reads a game book of the no-flag class on standard input and prints what it gives. Of a longer input one byte more than any book has is read.
#![tactic(auto)]

use std::io;

fn main(rt: HostRuntime) -> io::Result<()> {
    let mut bytes = player::book_buffer();
    let mut from = rt.reader();
    let n = streams::read_full(&mut from, &mut bytes)?;
    let mut out = player::text_room();
    let mut to = io::writer(&rt);
    noflag_player::write_printout(&mut to, &bytes[..n], &mut out)?;
    Ok(())
}
