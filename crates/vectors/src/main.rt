// Plays packed books: standard input has up to 65,536, each after its length in two bytes, low byte first; their printouts are written one after the other.
// The files stdin and stdout are the Rust's stored answers, made by `oracle/vectors`.
#![tactic(auto)]

ghost use Rattle.std.specs.Prelude.{◌≡◌, ℕ, List, length, OnErr};
ghost use Rattle.streams.specs.Streams.{ConsumesPart};

use std::io;
use std::io::{Read, Write};

// The length of the next book, or `None` where there is none. A read that fails is the only error, with the length not whole.
fn next_length<R: Read>(from: &mut R) -> io::Result<Option<u16>>
    ensures { OnErr result ((head : List ℕ) × (length head ≡ 2) × ConsumesPart (R.remaining from.old) (R.remaining from.new) head) }
{
    let mut head = [0u8; 2];
    if streams::read_full(from, &mut head)? != 2 {
        return Ok(None);
    }
    Ok(Some(u16::from_le_bytes(head)))
}

// The next book, as long as its room; false where it is cut off.
fn play_in<R: Read, W: Write>(from: &mut R, to: &mut W, room: &mut [u8]) -> io::Result<bool> {
    if streams::read_full(from, &mut *room)? != room.len() {
        return Ok(false);
    }
    let mut out = player::text_room();
    player::write_printout(to, &*room, &mut out)?;
    Ok(true)
}

fn play_next<R: Read, W: Write>(from: &mut R, to: &mut W, n: u16) -> io::Result<bool> {
    let mut bytes = streams::large_buffer();
    play_in(from, to, &mut bytes[..usize::from(n)])
}

fn main(rt: HostRuntime) -> io::Result<()> {
    let mut from = rt.reader();
    let mut to = io::writer(&rt);
    for _ in 0..65536u32 {
        let Some(n) = next_length(&mut from)? else {
            return Ok(());
        };
        if !play_next(&mut from, &mut to, n)? {
            return Ok(());
        }
    }
    Ok(())
}
