// Plays packed steps with `board`'s resolve and step, each from its own position: standard input has up to 1,000,000, and the outcome of each is a line.
// The library `packed` has the layout and the line, `telling` the rest of a step, read, played and told. A step that is cut off ends the program.
// The files stdin and stdout are the Rust's stored answers, made by `oracle/vectors`.
#![tactic(auto)]

ghost use Rattle.std.specs.Prelude.{◌≡◌, length};
ghost use Rattle.steps.specs.Rooms.{Rooms};

use packed::Head;
use std::io;
use std::io::{Read, Write};

// The next step; false where there is none.
fn play_next<R: Read, W: Write>(
    from: &mut R,
    to: &mut W,
    bytes: &mut [u8],
    mines: &mut [i8],
    shown: &mut [u8],
    bits: &mut [u8],
    work: &mut [u16],
    out: &mut [u8],
) -> io::Result<bool>
    requires { Rooms bytes.old mines.old shown.old bits.old work.old out.old }
{
    let mut head: Head = [0; 80];
    if !telling::read_part(from, &mut head)? {
        return Ok(false);
    }
    let cells = packed::length_at(&head, 72);
    let looks = packed::length_at(&head, 74);
    let flags = packed::length_at(&head, 76);
    let room = packed::length_at(&head, 78);
    telling::play_rest(
        from,
        to,
        &head,
        &mut bytes[..cells],
        &mut mines[..cells],
        &mut shown[..looks],
        &mut bits[..flags],
        &mut work[..room],
        &mut *out,
    )
}

// Room for every length of two bytes.
fn mine_room() -> [i8; 65536]
    ensures { 65536 ≡ length result }
{
    [0; 65536]
}

// Work is lent as it comes, so it starts with a number that no call leaves there.
fn work_room() -> [u16; 65536]
    ensures { 65536 ≡ length result }
{
    [65535; 65536]
}

fn text_room() -> [u8; 524544]
    ensures { 524544 ≡ length result }
{
    [0; 524544]
}

fn main(rt: HostRuntime) -> io::Result<()> {
    let mut from = rt.reader();
    let mut to = io::writer(&rt);
    let mut bytes = streams::large_buffer();
    let mut mines = mine_room();
    let mut shown = streams::large_buffer();
    let mut bits = streams::large_buffer();
    let mut work = work_room();
    let mut out = text_room();
    // Counted down by hand: the proof of this loop does not close over a range.
    let mut left = 1000000u32;
    while 0 < left {
        if !play_next(
            &mut from, &mut to, &mut bytes, &mut mines, &mut shown, &mut bits, &mut work, &mut out,
        )? {
            return Ok(());
        }
        left -= 1;
    }
    Ok(())
}
