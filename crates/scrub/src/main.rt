// Drags a slider over a game book on standard input: `scrub K ROOM N..`, with a position kept after every K events in ROOM bytes. For each N, or the
// word `reset`, it writes what the slider answers. Of a longer input one byte more than any book has is read.
#![tactic(auto)]

ghost use Rattle.std.specs.Prelude.{◌≡◌, ◌+◌, ◌*◌, ◌<◌, ◌≤◌, length, OnOk, OnErr};
ghost use Rattle.std.specs.Io.KnownBytes.{Appends};
ghost use Rattle.rules.specs.Book.{book_of};
ghost use Rattle.rules.specs.Slides.{drag_text};
ghost use Rattle.writing.specs.Put.{PutWithin};
ghost use Rattle.scrub.specs.Told.{told, told_numbers, Tellable};
ghost use Rattle.streams.specs.Streams.{AppendsPart};

use rules::{Book, Settings};
use slider::{Drag, Slider};
use std::env::Env;
use std::io;
use std::io::Write;

// ---- the text --------------------------------------------------------------------------------------------------------------------------

// The numbers of a drag after its start.
fn numbers(o: Drag) -> [u32; 15]
    ensures { result ≡ told_numbers o }
{
    let p = o.position;
    let c = p.counts;
    let k = p.secrets;
    [
        u32::from(o.answer),
        u32::from(u8::from(p.game)),
        u32::from(u8::from(p.mouse)),
        u32::from(p.middle),
        c.left,
        c.right,
        c.double,
        c.lce,
        k.rce,
        c.dce,
        c.flag,
        k.solved_left,
        k.solved_chord,
        p.preflags,
        p.events,
    ]
}

fn put_drag(out: &mut [u8], g: Settings, o: Drag, shown: &[u8]) -> usize
    requires { Tellable g o shown.now (length out.old) }
    ensures { PutWithin (176 + 4 * (g.rows * g.columns)) (drag_text g (told o shown.now)) 0 out.old out.new result }
{
    if o.number != 0 {
        let ns = [o.number as u32];
        return writing::put_word_line(&mut *out, 0, b"refused", &ns);
    }
    let start = o.start as u32;
    let ns = numbers(o);
    let first = writing::put_line(&mut *out, 0, start, &ns);
    let rows = usize::from(g.rows);
    let columns = usize::from(g.columns);
    text::put_rows(&mut *out, first, rows, columns, shown)
}

// All that is ever handed to `streams` of a drag: its text.
fn hand<W: Write>(to: &mut W, g: Settings, o: Drag, shown: &[u8], text: &[u8]) -> io::Result<()>
    requires { text.now ≡ drag_text g (told o shown.now) }
    ensures ok { OnOk result (Appends (W.contents to.old) (W.contents to.new) (drag_text g (told o shown.now))) }
    ensures err { OnErr result (AppendsPart (W.contents to.old) (W.contents to.new) (drag_text g (told o shown.now))) }
{
    streams::write_all(to, text)
}

// A line of at most 176 bytes, and 2,048 cells.
fn text_room() -> [u8; 8368]
    ensures { 8368 ≡ length result }
{
    [0; 8368]
}

fn tell<W: Write>(to: &mut W, g: Settings, o: Drag, shown: &[u8]) -> io::Result<()>
    requires { Tellable g o shown.now 8368 }
    ensures ok { OnOk result (Appends (W.contents to.old) (W.contents to.new) (drag_text g (told o shown.now))) }
    ensures err { OnErr result (AppendsPart (W.contents to.old) (W.contents to.new) (drag_text g (told o shown.now))) }
{
    let mut out = text_room();
    let n = put_drag(&mut out, g, o, shown);
    hand(to, g, o, shown, &out[..n])
}

// ---- the words -------------------------------------------------------------------------------------------------------------------------

#[derive(Clone, Copy)]
enum Word {
    Number(u32),
    Reset,
    Other,
}

// A word of decimal digits, `reset`, or another one. A number that does not fit is the largest.
fn word_of(s: &[u8]) -> Word {
    if s == b"reset".as_slice() {
        return Word::Reset;
    }
    if s.is_empty() {
        return Word::Other;
    }
    let mut n = 0u32;
    for b in s {
        if !b.is_ascii_digit() {
            return Word::Other;
        }
        n = n.saturating_mul(10).saturating_add(u32::from(*b - b'0'));
    }
    Word::Number(n)
}

// The argument at a place; one that is missing or too long is another word.
fn argument<R: Env>(rt: &R, i: usize) -> Word {
    let mut text = [0u8; 16];
    let n = streams::arg(rt, i, &mut text);
    word_of(&text[..n])
}

// ---- the drags -------------------------------------------------------------------------------------------------------------------------

// The bytes of room that there are.
const ROOM: usize = 1048576;

fn room_bytes() -> [u8; ROOM]
    ensures { 1048576 ≡ length result }
{
    [0; ROOM]
}

// One drag on boards of the book's size, told; the slider after it.
fn drag_on<W: Write>(
    to: &mut W,
    slider: Slider,
    s: &[u8],
    b: Book,
    n: u32,
    k: u32,
    mines: &mut [i8],
    shown: &mut [u8],
    bits: &mut [u8],
    work: &mut [u16],
    room: &mut [u8],
) -> io::Result<Slider>
    requires b_value { (b ≡ book_of s.now) × (b.number ≡ 0) }
    requires columns_in_bounds { b.settings.rows * b.settings.columns ≤ length shown.old }
{
    let o = slider::drag_to(
        slider,
        s,
        n as usize,
        k as usize,
        mines,
        &mut *shown,
        bits,
        work,
        room,
    );
    let g = b.settings;
    tell(to, g, o, &*shown)?;
    Ok(o.slider)
}

// One drag, told; the slider after it.
fn go<W: Write>(
    to: &mut W,
    slider: Slider,
    s: &[u8],
    b: Book,
    n: u32,
    k: u32,
    room: &mut [u8],
) -> io::Result<Slider>
    requires { (b ≡ book_of s.now) × (b.number ≡ 0) }
{
    let mut mines = player::mine_board();
    let mut shown = player::shown_board();
    let mut bits = player::flag_bits();
    let mut work = player::work_room();
    let cells = boards::cell_count(b.settings.rows, b.settings.columns);
    let bytes = (cells + 7) / 8;
    drag_on(
        to,
        slider,
        s,
        b,
        n,
        k,
        &mut mines[..cells],
        &mut shown[..cells],
        &mut bits[..bytes],
        &mut work,
        room,
    )
}

// One word: a drag, or a reset; the slider after it, or none where it was another.
fn take_word<R: Env + Eprint, W: Write>(
    rt: &R,
    to: &mut W,
    slider: Slider,
    i: usize,
    s: &[u8],
    b: Book,
    k: u32,
    room: &mut [u8],
) -> io::Result<Option<Slider>>
    requires { (b ≡ book_of s.now) × (b.number ≡ 0) }
{
    match argument(rt, i) {
        Word::Number(n) => {
            let after = go(to, slider, s, b, n, k, &mut *room)?;
            Ok(Some(after))
        }
        Word::Reset => {
            streams::write_all(to, b"reset\n")?;
            Ok(Some(slider::reset(slider)))
        }
        Word::Other => {
            usage(rt)?;
            Ok(None)
        }
    }
}

// The words from the third on, one after the other.
fn walk<R: Env + Eprint, W: Write>(
    rt: &R,
    to: &mut W,
    slider: Slider,
    s: &[u8],
    b: Book,
    k: u32,
    room: &mut [u8],
) -> io::Result<()>
    requires { (b ≡ book_of s.now) × (b.number ≡ 0) }
{
    let count = streams::arg_count(rt);
    let mut now = slider;
    for i in 3..count {
        let Some(after) = take_word(rt, to, now, i, s, b, k, &mut *room)? else {
            return Ok(());
        };
        now = after;
    }
    Ok(())
}

fn usage<R: Eprint>(rt: &R) -> io::Result<()> {
    rt.eprint("usage: scrub K ROOM N.. <BOOK, with a number or reset for each N\n")
}

// A refused book: its refusal and the byte place.
fn refuse<W: Write>(to: &mut W, number: u16, place: usize) -> io::Result<()>
    requires { place < 4294967296 }
{
    let mut out = [0u8; 33];
    let n = text::put_refused(&mut out, 0, number, place);
    streams::write_all(to, &out[..n])
}

fn scrub<R: Env + Eprint, W: Write>(rt: &R, to: &mut W, s: &[u8]) -> io::Result<()>
    requires { length s.now < 4294967296 }
{
    let o = slider::open(s);
    if o.number != 0 {
        return refuse(to, o.number, o.place);
    }
    let b = book::read_book(s);
    let Word::Number(k) = argument(rt, 1) else {
        return usage(rt);
    };
    let Word::Number(long) = argument(rt, 2) else {
        return usage(rt);
    };
    let mut room = room_bytes();
    // As many bytes of room as are asked for, or all that there are.
    let most = (long as usize).min(ROOM);
    walk(rt, to, o.slider, s, b, k, &mut room[..most])
}

fn main(rt: HostRuntime) -> io::Result<()> {
    let mut bytes = player::book_buffer();
    let mut from = rt.reader();
    let n = streams::read_full(&mut from, &mut bytes)?;
    let mut to = io::writer(&rt);
    scrub(&rt, &mut to, &bytes[..n])
}
