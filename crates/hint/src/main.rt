// Reads a game book on standard input, plays it as `replay` does and prints the hint for its last shown board; a refused book prints its refusal.
// Of a longer input one byte more than any book has is read: the hint is that of the whole, by the law `prefix_hint`.
#![tactic(auto)]

ghost use Rattle.std.specs.Prelude.{◌≡◌, ◌<◌, length, OnOk, OnErr};
ghost use Rattle.std.specs.Io.KnownBytes.{Appends};
ghost use Rattle.rules.specs.Book.{book_of};
ghost use Rattle.rules.specs.Trainer.{book_hint};
ghost use Rattle.last_board.specs.Last.{Last};
ghost use Rattle.streams.specs.Streams.{AppendsPart};

use rules::Book;
use std::io;
use std::io::Write;

// All that is ever handed to `streams`: a hint's line, or the refusal of a book.
fn hand<W: Write>(to: &mut W, s: &[u8], text: &[u8]) -> io::Result<()>
    requires { text.now ≡ book_hint s.now }
    ensures ok { OnOk result (Appends (W.contents to.old) (W.contents to.new) (book_hint s.now)) }
    ensures err { OnErr result (AppendsPart (W.contents to.old) (W.contents to.new) (book_hint s.now)) }
{
    streams::write_all(to, text)
}

fn line_room() -> [u8; 52]
    ensures { 52 ≡ length result }
{
    [0; 52]
}

// The hint of an accepted book, whose last shown board stands at the front of `shown`.
fn write_hint<W: Write>(to: &mut W, s: &[u8], b: Book, shown: &[u8]) -> io::Result<()>
    requires b_value { (b ≡ book_of s.now) × (b.number ≡ 0) }
    requires last { Last s.now b shown.now }
    ensures ok { OnOk result (Appends (W.contents to.old) (W.contents to.new) (book_hint s.now)) }
    ensures err { OnErr result (AppendsPart (W.contents to.old) (W.contents to.new) (book_hint s.now)) }
{
    let cells = boards::cell_count(b.settings.rows, b.settings.columns);
    let hint = trainer::hint_on(b.settings.rows, b.settings.columns, &shown[..cells]);
    let mut out = line_room();
    let end = wording::put_hint(&mut out, 0, hint);
    let n = writing::put_byte(&mut out, end, b'\n');
    hand(to, s, &out[..n])
}

// A book played to its end; then the hint is looked for on its last shown board.
fn write_book<W: Write>(to: &mut W, s: &[u8]) -> io::Result<()>
    requires { length s.now < 4294967296 }
    ensures ok { OnOk result (Appends (W.contents to.old) (W.contents to.new) (book_hint s.now)) }
    ensures err { OnErr result (AppendsPart (W.contents to.old) (W.contents to.new) (book_hint s.now)) }
{
    let mut shown = player::shown_board();
    let mut text = player::text_room();
    let n = last_board::play_to_end(s, &mut shown, &mut text);
    let b = book::read_book(s);
    // A `Book` holds its number, since the definition `book_of` gives it so.
    if b.number != 0 {
        return hand(to, s, &text[..n]);
    }
    write_hint(to, s, b, &shown)
}

fn main(rt: HostRuntime) -> io::Result<()> {
    let mut bytes = player::book_buffer();
    let mut from = rt.reader();
    let n = streams::read_full(&mut from, &mut bytes)?;
    let mut to = io::writer(&rt);
    write_book(&mut to, &bytes[..n])
}
