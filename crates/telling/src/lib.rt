// A packed step whose head is given: the rest of it read from a reader, played with `board`'s calls and told at a writer.
// The contract of a step told cites specs/Told.antt, its line.
#![tactic(auto)]

ghost use Rattle.std.specs.Prelude.{◌≡◌, ◌≤◌, ◌++◌, length, IfOk, OnErr, IsTrue, IsFalse};
ghost use Rattle.std.specs.Io.KnownBytes.{Appends, Consumes, IsAtEnd, Keeps};
ghost use Rattle.streams.specs.Streams.{ConsumesPart};
ghost use Rattle.writing.specs.Put.{PutWithin};
ghost use Rattle.packed.specs.Line.{outcome_room};
ghost use Rattle.rules.specs.Clicks.{desk};
ghost use Rattle.rules.specs.Calls.{outcome};
ghost use Rattle.board.specs.Pair.{pair_of};
ghost use Rattle.telling.specs.Told.{call_at, called, step_line, Tells, TellsPart};

use packed::Head;
use rules::{Answer, Position};
use std::io;
use std::io::{Read, Write};

// Resolve, and where it answers 0 the step with the plain code, at the position that came back.
fn pair(
    p: Position,
    code: u8,
    row: u8,
    column: u8,
    mines: &[i8],
    shown: &mut [u8],
    bits: &mut [u8],
    work: &mut [u16],
) -> Answer
    ensures { outcome result shown.new bits.new work.new ≡ pair_of mines.now code row column (desk p shown.old bits.old) work.old }
{
    let a = board::resolve(p, code, row, column, mines, &*shown, &*bits);
    if a.number != 0 {
        return a;
    }
    let plain = a.value as u8;
    board::step(
        a.position,
        plain,
        row,
        column,
        mines,
        &mut *shown,
        &mut *bits,
        &mut *work,
    )
}

// What a step is packed for: resolve alone, the plain step alone, or both.
#[derive(Clone, Copy)]
enum Call {
    Resolve,
    Step,
    Both,
}

impl From<u8> for Call {
    ghost from_gives = { λ n k. k ≡ call_at n };

    #[tactic(auto, unfolding(crate::specs::Told::call_at))]
    fn from(n: u8) -> Call {
        match n {
            1 => Call::Resolve,
            2 => Call::Step,
            _ => Call::Both,
        }
    }
}

// The call that a step is packed for.
fn play(
    which: Call,
    p: Position,
    code: u8,
    row: u8,
    column: u8,
    mines: &[i8],
    shown: &mut [u8],
    bits: &mut [u8],
    work: &mut [u16],
) -> Answer
    ensures { outcome result shown.new bits.new work.new ≡ called which mines.now code row column (desk p shown.old bits.old) work.old }
{
    match which {
        Call::Resolve => board::resolve(p, code, row, column, mines, &*shown, &*bits),
        Call::Step => board::step(
            p,
            code,
            row,
            column,
            mines,
            &mut *shown,
            &mut *bits,
            &mut *work,
        ),
        Call::Both => pair(
            p,
            code,
            row,
            column,
            mines,
            &mut *shown,
            &mut *bits,
            &mut *work,
        ),
    }
}

// The step of a head and of what is lent, its line from the front of `out`; the answer is how many bytes the line has.
// `mines` is room for the mine board, whose bytes are `bytes`.
fn tell_step(
    head: &Head,
    bytes: &[u8],
    mines: &mut [i8],
    shown: &mut [u8],
    bits: &mut [u8],
    work: &mut [u16],
    out: &mut [u8],
) -> usize
    requires mines_len { length mines.old ≡ length bytes.now }
    requires bits_in_bounds { outcome_room (length shown.old) (length bits.old) ≤ length out.old }
    ensures { PutWithin (outcome_room (length shown.old) (length bits.old)) (step_line head.now bytes.now shown.old bits.old work.old) 0 out.old out.new result }
{
    packed::sign_all(bytes, &mut *mines);
    let p = packed::position_in(head);
    let a = play(
        Call::from(head[55]),
        p,
        head[51],
        head[52],
        head[53],
        &*mines,
        &mut *shown,
        &mut *bits,
        &mut *work,
    );
    packed::put_outcome(&mut *out, a, &*shown, &*bits)
}

// The next bytes, as many as the room has; false where the input ends before.
pub fn read_part<R: Read>(from: &mut R, room: &mut [u8]) -> io::Result<bool>
    ensures whole { IfOk result (λ whole. IsTrue whole → Consumes (R.remaining from.old) (R.remaining from.new) room.new) }
    ensures cut_off { IfOk result (λ whole. IsFalse whole → IsAtEnd (R.remaining from.new)) }
    ensures err { OnErr result (ConsumesPart (R.remaining from.old) (R.remaining from.new) room.new) }
{
    let n = streams::read_full(from, &mut *room)?;
    Ok(n == room.len())
}

// What is lent with a step; false where it is cut off.
fn read_lent<R: Read>(
    from: &mut R,
    bytes: &mut [u8],
    shown: &mut [u8],
    bits: &mut [u8],
) -> io::Result<bool>
    ensures whole { IfOk result (λ whole. IsTrue whole → Consumes (R.remaining from.old) (R.remaining from.new) (bytes.new ++ (shown.new ++ bits.new))) }
    ensures cut_off { IfOk result (λ whole. IsFalse whole → IsAtEnd (R.remaining from.new)) }
{
    if !read_part(from, &mut *bytes)? {
        return Ok(false);
    }
    if !read_part(from, &mut *shown)? {
        return Ok(false);
    }
    read_part(from, &mut *bits)
}

// The rest of a step, played and told; false where it is cut off, and then nothing is told. A read or a write that fails is the only error.
pub fn play_rest<R: Read, W: Write>(
    from: &mut R,
    to: &mut W,
    head: &Head,
    bytes: &mut [u8],
    mines: &mut [i8],
    shown: &mut [u8],
    bits: &mut [u8],
    work: &mut [u16],
    out: &mut [u8],
) -> io::Result<bool>
    requires mines_len { length mines.old ≡ length bytes.old }
    requires bits_in_bounds { outcome_room (length shown.old) (length bits.old) ≤ length out.old }
    ensures whole { IfOk result (λ whole. IsTrue whole →
        Tells (R.remaining from.old) (R.remaining from.new) (W.contents to.old) (W.contents to.new) head.now bytes.new work.old) }
    ensures cut_off { IfOk result (λ whole. IsFalse whole →
        IsAtEnd (R.remaining from.new) × Keeps (W.contents to.old) (W.contents to.new)) }
    ensures err { OnErr result (TellsPart (W.contents to.old) (W.contents to.new) head.now bytes.new work.old) }
{
    if !read_lent(from, &mut *bytes, &mut *shown, &mut *bits)? {
        return Ok(false);
    }
    let n = tell_step(
        head,
        &*bytes,
        &mut *mines,
        &mut *shown,
        &mut *bits,
        &mut *work,
        &mut *out,
    );
    streams::write_all(to, &out[..n])?;
    Ok(true)
}
