// A book of the no-flag class read, played and printed, or the one line of a refused book: the house's own row of events up to the first forbidden one,
// then that one's line. The contracts cite specs/Printing.antt and rules' specs/Noflag.antt.
#![tactic(auto)]

ghost use Rattle.std.specs.Prelude.{◌≡◌, ◌%◌, ◌≤◌, length, take, IfOk, OnOk, OnErr};
ghost use Rattle.std.specs.Io.KnownBytes.{Appends};
ghost use Rattle.rules.specs.Noflag.{class_book_of, class_printout_of};
ghost use Rattle.printing.specs.Boards.{Fit};
ghost use Rattle.player.specs.Rooms.{Enough};
ghost use Rattle.noflag_player.specs.Printing.{Free, BarredFits, BarredPut, TextPut, WritePrintoutIs};
ghost use Rattle.streams.specs.Streams.{AppendsPart};

use games::Told;
use rules::{Book, Played};
use std::io;
use std::io::Write;

// The bytes of a row of whole events before its first forbidden one.
fn free(events: &[u8]) -> usize
    requires { length events.now % 3 ≡ 0 }
    ensures { Free events.now result }
{
    for k in (0..events.len()).step_by(3) {
        if noflag_board::forbidden(events[k]) {
            return k;
        }
    }
    events.len()
}

// The line of the forbidden event that stands at n, unless one before it was refused.
fn put_barred(t: Told, events: &[u8], n: usize, out: &mut [u8]) -> usize
    requires { BarredFits t events.now n out.old }
    ensures { BarredPut t events.now n out.old out.new result }
{
    let p = t.position;
    if 20 <= t.answer {
        return t.at;
    }
    if events.len() <= n {
        return t.at;
    }
    let row = events[n + 1];
    let column = events[n + 2];
    let refusal = noflag_board::forbids(p, row, column);
    let o = Played {
        answer: u16::from(refusal),
        position: p,
    };
    let number = (n / 3 + 1) as u16;
    printing::put_play(out, t.at, number, o)
}

// An accepted book, on boards of its size.
fn print_game(
    s: &[u8],
    b: Book,
    mines: &mut [i8],
    shown: &mut [u8],
    bits: &mut [u8],
    work: &mut [u16],
    out: &mut [u8],
) -> usize
    requires b_value { (b ≡ class_book_of s.now) × (b.number ≡ 0) }
    requires fit { Fit b.settings mines.old shown.old bits.old work.old }
    requires in_bounds { 172184 ≤ length out.old }
    ensures { TextPut s.now out.old result out.new }
{
    let settings = b.settings;
    let p = printing::begin(s, b, &mut *mines, &mut *shown, &mut *bits, &mut *work);
    let first = text::put_game_line(&mut *out, 0, settings);
    let events = book::events(s, b);
    let n = free(events);
    let t = games::play_events(
        p,
        &events[..n],
        &*mines,
        &mut *shown,
        &mut *bits,
        &mut *work,
        &mut *out,
        first,
    );
    let at = put_barred(t, events, n, &mut *out);
    printing::finish(t.position, &*mines, &*shown, &mut *work, &mut *out, at)
}

// The printout where enough is lent. `player` has this function and those below for the full game: one over both would take the reading and the
// printing as closures whose contracts name every lent list, and `player`'s also says what stands in the boards.
fn print_lent(
    s: &[u8],
    mines: &mut [i8],
    shown: &mut [u8],
    bits: &mut [u8],
    work: &mut [u16],
    out: &mut [u8],
) -> usize
    requires { Enough (length s.now) (length mines.old) (length shown.old) (length bits.old) (length work.old) (length out.old) }
    ensures { TextPut s.now out.old result out.new }
{
    let b = noflag_board::read_book(s);
    if b.number != 0 {
        return text::put_refused(&mut *out, 0, b.number, b.place);
    }
    let cells = boards::cell_count(b.settings.rows, b.settings.columns);
    let bytes = (cells + 7) / 8;
    print_game(
        s,
        b,
        &mut mines[..cells],
        &mut shown[..cells],
        &mut bits[..bytes],
        &mut *work,
        &mut *out,
    )
}

// All that is ever handed to `streams`: a printout, whole.
fn hand<W: Write>(to: &mut W, s: &[u8], text: &[u8]) -> io::Result<()>
    requires { text.now ≡ class_printout_of s.now }
    ensures ok { OnOk result (Appends (W.contents to.old) (W.contents to.new) (class_printout_of s.now)) }
    ensures err { OnErr result (AppendsPart (W.contents to.old) (W.contents to.new) (class_printout_of s.now)) }
{
    streams::write_all(to, text)
}

// The printout of a byte string, made in `out` and handed over to be written; the answer is how many bytes it has, or 0 where `out` is too small, and then
// nothing is written. A write that fails is the only error: `out` then holds the printout, and a front of it was written.
pub fn write_printout<W: Write>(to: &mut W, s: &[u8], out: &mut [u8]) -> io::Result<usize>
    ensures ok { IfOk result (λ n. WritePrintoutIs s.now out.old n out.new) }
    ensures handed { IfOk result (λ n. Appends (W.contents to.old) (W.contents to.new) (take n out.new)) }
    ensures err { OnErr result (WritePrintoutIs s.now out.old (length (class_printout_of s.now)) out.new) }
    ensures err_handed { OnErr result (AppendsPart (W.contents to.old) (W.contents to.new) (class_printout_of s.now)) }
{
    if !player::text_fits(s.len(), out.len()) {
        return Ok(0);
    }
    let mut mines = player::mine_board();
    let mut shown = player::shown_board();
    let mut bits = player::flag_bits();
    let mut work = player::work_room();
    let n = print_lent(s, &mut mines, &mut shown, &mut bits, &mut work, &mut *out);
    hand(to, s, &out[..n])?;
    Ok(n)
}
