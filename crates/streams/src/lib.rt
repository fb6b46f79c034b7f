// Whole writes and reads, the program's arguments, and room of 65,536 bytes. Nothing here allocates, and a call of the system that fails ends what it was for.
// What a write and a read do to known bytes is in specs/Streams.antt.
#![tactic(auto)]

ghost use Rattle.std.specs.Prelude.{◌≡◌, ◌≤◌, length, take, OnOk, OnErr, IfOk};
ghost use Rattle.std.specs.Io.KnownBytes.{Appends};
ghost use Rattle.std.specs.Io.{ReadsAtMost};
ghost use Rattle.streams.specs.Streams.{AppendsPart, ConsumesFull, ConsumesPart};

use std::env::{Env, FillError};
use std::io;
use std::io::{Read, Write};

// ---- room ------------------------------------------------------------------------------------------------------------------------------

// Room for every length of two bytes.
pub fn large_buffer() -> [u8; 65536]
    ensures { 65536 ≡ length result }
{
    [0; 65536]
}

// ---- bytes -----------------------------------------------------------------------------------------------------------------------------

// Writes all of a text, in as many writes as it takes. The first write that fails ends it, with that write's error, and one that takes nothing with
// `WriteZero`. An empty text makes no call.
pub fn write_all<W: Write>(to: &mut W, text: &[u8]) -> io::Result<()>
    ensures ok { OnOk result (Appends (W.contents to.old) (W.contents to.new) text.now) }
    ensures err { OnErr result (AppendsPart (W.contents to.old) (W.contents to.new) text.now) }
{
    let mut done = 0;
    while done < text.len() {
        let n = to.write(&text[done..])?;
        if n == 0 {
            return Err(io::Error::from(io::ErrorKind::WriteZero));
        }
        done += n;
    }
    Ok(())
}

// Reads until the room is full or the input ends; the answer is how many bytes stand at its front. The first read that fails ends it, with that read's
// error. An empty room makes no call.
pub fn read_full<R: Read>(from: &mut R, room: &mut [u8]) -> io::Result<usize>
    ensures within { ReadsAtMost result room.new }
    ensures ok { IfOk result (λ n. ConsumesFull (R.remaining from.old) (R.remaining from.new) room.new n) }
    ensures err { OnErr result (ConsumesPart (R.remaining from.old) (R.remaining from.new) room.new) }
{
    let mut done = 0;
    while done < room.len() {
        let n = from.read(&mut room[done..])?;
        if n == 0 {
            break;
        }
        done += n;
    }
    Ok(done)
}

// ---- arguments -------------------------------------------------------------------------------------------------------------------------

// The argument at a place, from the front of `text`; the answer is how many bytes it has, or 0 where it is missing or longer than `text`.
// At 0 stands the program's name.
pub fn arg<E: Env>(rt: &E, i: usize, text: &mut [u8]) -> usize
    ensures within { result ≤ length text.new }
    ensures front { result ≡ length (take result text.new) }
{
    rt.arg(i, text).unwrap_or(0)
}

// How many arguments there are, the program's name among them.
pub fn arg_count<E: Env>(rt: &E) -> usize {
    let mut text = [0u8; 1];
    for i in 0..usize::MAX {
        if let Err(FillError::NotPresent) = rt.arg(i, &mut text) {
            return i;
        }
    }
    usize::MAX
}
