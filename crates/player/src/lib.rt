// A book read, played and printed, or the one line of a refused book, in lent room or at a writer.
// The contracts cite specs/Rooms.antt: what is lent, and what stands there afterwards.
#![tactic(auto)]

ghost use Rattle.std.specs.Prelude.{◌≡◌, length, take, IfOk, OnOk, OnErr};
ghost use Rattle.std.specs.Io.KnownBytes.{Appends};
ghost use Rattle.rules.specs.Book.{book_of};
ghost use Rattle.rules.specs.Printout.{printout_of};
ghost use Rattle.player.specs.Rooms.{text_fits, enough, Enough, printed, printed_by, PrintBookIs, WritePrintoutIs};
ghost use Rattle.streams.specs.Streams.{AppendsPart};

use std::io;
use std::io::Write;

// A place among the bytes has at most ten digits, and every printout has room.
pub fn text_fits(bytes: usize, out: usize) -> bool
    ensures { result ≡ text_fits bytes out }
{
    (bytes < 4294967296) & (172184 <= out)
}

// Enough is lent for every book.
fn enough(bytes: usize, mines: usize, shown: usize, bits: usize, work: usize, out: usize) -> bool
    ensures { result ≡ enough bytes mines shown bits work out }
{
    (2048 <= mines)
        & ((2048 <= shown) & ((256 <= bits) & ((16392 <= work) & text_fits(bytes, out))))
}

// The printout where enough is lent.
fn print_lent(
    s: &[u8],
    mines: &mut [i8],
    shown: &mut [u8],
    bits: &mut [u8],
    work: &mut [u16],
    out: &mut [u8],
) -> usize
    requires { Enough (length s.now) (length mines.old) (length shown.old) (length bits.old) (length work.old) (length out.old) }
    ensures { printed result mines.new shown.new bits.new work.new out.new ≡ printed_by s.now (book_of s.now) mines.old shown.old bits.old work.old out.old }
{
    let b = book::read_book(s);
    if b.number != 0 {
        return text::put_refused(&mut *out, 0, b.number, b.place);
    }
    let cells = boards::cell_count(b.settings.rows, b.settings.columns);
    let bytes = (cells + 7) / 8;
    games::print_game(
        s,
        b,
        &mut mines[..cells],
        &mut shown[..cells],
        &mut bits[..bytes],
        &mut *work,
        &mut *out,
    )
}

// The printout of a byte string, from the front of `out`; the answer is how many bytes it has, or 0 where less is lent than enough.
pub fn print_book(
    s: &[u8],
    mines: &mut [i8],
    shown: &mut [u8],
    bits: &mut [u8],
    work: &mut [u16],
    out: &mut [u8],
) -> usize
    ensures { PrintBookIs s.now mines.old shown.old bits.old work.old out.old result mines.new shown.new bits.new work.new out.new }
{
    if !enough(
        s.len(),
        mines.len(),
        shown.len(),
        bits.len(),
        work.len(),
        out.len(),
    ) {
        return 0;
    }
    print_lent(s, mines, shown, bits, work, out)
}

// The rooms. Each is `[0; N]` as it is: one function over the size would be no plainer, since callers name what a room is for, and not its size.
// Room for one book: one byte more than the longest has; boards, bits and work for 2,048 cells; every printout.
pub fn book_buffer() -> [u8; 28681]
    ensures { 28681 ≡ length result }
{
    [0; 28681]
}

pub fn mine_board() -> [i8; 2048]
    ensures { 2048 ≡ length result }
{
    [0; 2048]
}

pub fn shown_board() -> [u8; 2048]
    ensures { 2048 ≡ length result }
{
    [0; 2048]
}

pub fn flag_bits() -> [u8; 256]
    ensures { 256 ≡ length result }
{
    [0; 256]
}

pub fn work_room() -> [u16; 16392]
    ensures { 16392 ≡ length result }
{
    [0; 16392]
}

// The settings' line, 8,192 events, the counts and the 3BV, and 2,048 cells: 21 + 20 * 8192 + 131 + 4 * 2048.
pub fn text_room() -> [u8; 172184]
    ensures { 172184 ≡ length result }
{
    [0; 172184]
}

// All that is ever handed to `streams`: a printout, whole. No contract can say which bytes reach the system, so this one asks it of what it is handed.
fn hand<W: Write>(to: &mut W, s: &[u8], text: &[u8]) -> io::Result<()>
    requires { text.now ≡ printout_of s.now }
    ensures ok { OnOk result (Appends (W.contents to.old) (W.contents to.new) (printout_of s.now)) }
    ensures err { OnErr result (AppendsPart (W.contents to.old) (W.contents to.new) (printout_of s.now)) }
{
    streams::write_all(to, text)
}

// The printout of a byte string, made in `out` and handed over to be written; the answer is how many bytes it has, or 0 where `out` is too small, and then
// nothing is written. A write that fails is the only error: `out` then holds the printout, and a front of it was written.
pub fn write_printout<W: Write>(to: &mut W, s: &[u8], out: &mut [u8]) -> io::Result<usize>
    ensures ok { IfOk result (λ n. WritePrintoutIs s.now out.old n out.new) }
    ensures handed { IfOk result (λ n. Appends (W.contents to.old) (W.contents to.new) (take n out.new)) }
    ensures err { OnErr result (WritePrintoutIs s.now out.old (length (printout_of s.now)) out.new) }
    ensures err_handed { OnErr result (AppendsPart (W.contents to.old) (W.contents to.new) (printout_of s.now)) }
{
    let mut mines = mine_board();
    let mut shown = shown_board();
    let mut bits = flag_bits();
    let mut work = work_room();
    let n = print_book(s, &mut mines, &mut shown, &mut bits, &mut work, &mut *out);
    if n == 0 {
        return Ok(n);
    }
    hand(to, s, &out[..n])?;
    Ok(n)
}
