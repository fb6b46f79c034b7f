// Reads a game book on standard input, plays it as `replay` does and writes the picture of the last shown board; a refused book prints its refusal.
// Of a longer input one byte more than any book has is read: the picture is that of the whole, by the law `prefix_picture`.
#![tactic(auto)]

ghost use Rattle.std.specs.Prelude.{◌≡◌, ◌<◌, length, OnOk, OnErr};
ghost use Rattle.std.specs.Io.KnownBytes.{Appends};
ghost use Rattle.rules.specs.Book.{book_of};
ghost use Rattle.rules.specs.Picture.{picture_of};
ghost use Rattle.last_board.specs.Last.{Last};
ghost use Rattle.streams.specs.Streams.{AppendsPart};

use rules::Book;
use std::io;
use std::io::Write;

// All that is ever handed to `streams`: a picture, or the refusal of a book.
fn hand<W: Write>(to: &mut W, s: &[u8], text: &[u8]) -> io::Result<()>
    requires { text.now ≡ picture_of s.now }
    ensures ok { OnOk result (Appends (W.contents to.old) (W.contents to.new) (picture_of s.now)) }
    ensures err { OnErr result (AppendsPart (W.contents to.old) (W.contents to.new) (picture_of s.now)) }
{
    streams::write_all(to, text)
}

fn picture_room() -> [u8; 6156]
    ensures { 6156 ≡ length result }
{
    [0; 6156]
}

// The picture of an accepted book, whose last shown board stands at the front of `shown`.
fn write_board<W: Write>(to: &mut W, s: &[u8], b: Book, shown: &[u8]) -> io::Result<()>
    requires b_value { (b ≡ book_of s.now) × (b.number ≡ 0) }
    requires last { Last s.now b shown.now }
    ensures ok { OnOk result (Appends (W.contents to.old) (W.contents to.new) (picture_of s.now)) }
    ensures err { OnErr result (AppendsPart (W.contents to.old) (W.contents to.new) (picture_of s.now)) }
{
    let cells = boards::cell_count(b.settings.rows, b.settings.columns);
    let mut out = picture_room();
    let w = drawing::write_picture(
        b.settings.rows,
        b.settings.columns,
        &shown[..cells],
        &mut out,
    );
    let n = w.value as usize;
    hand(to, s, &out[..n])
}

// A book played to its end; then its last shown board is drawn.
fn write_book<W: Write>(to: &mut W, s: &[u8]) -> io::Result<()>
    requires { length s.now < 4294967296 }
    ensures ok { OnOk result (Appends (W.contents to.old) (W.contents to.new) (picture_of s.now)) }
    ensures err { OnErr result (AppendsPart (W.contents to.old) (W.contents to.new) (picture_of s.now)) }
{
    let mut shown = player::shown_board();
    let mut text = player::text_room();
    let n = last_board::play_to_end(s, &mut shown, &mut text);
    let b = book::read_book(s);
    // A `Book` holds its number, since the definition `book_of` gives it so.
    if b.number != 0 {
        return hand(to, s, &text[..n]);
    }
    write_board(to, s, b, &shown)
}

fn main(rt: HostRuntime) -> io::Result<()> {
    let mut bytes = player::book_buffer();
    let mut from = rt.reader();
    let n = streams::read_full(&mut from, &mut bytes)?;
    let mut to = io::writer(&rt);
    write_book(&mut to, &bytes[..n])
}
