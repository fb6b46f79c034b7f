// Reads a picture on standard input and prints its rows as the printout does, or `refused N`.
// It reads 1,048,576 bytes at most: of a longer input it says so, and nothing else.
#![tactic(auto)]

ghost use Rattle.std.specs.Prelude.{◌≡◌, ◌≤◌, length, OnOk, OnErr};
ghost use Rattle.std.specs.Io.KnownBytes.{Appends};
ghost use Rattle.rules.specs.Picture.{rows_printed};
ghost use Rattle.writing.specs.Put.{PutWithin};
ghost use Rattle.streams.specs.Streams.{AppendsPart};

use std::io;
use std::io::Write;

// A picture's rows, or its refusal, from the front of `out`; the answer is how many bytes it has.
fn print_rows(s: &[u8], cells: &mut [u8], out: &mut [u8]) -> usize
    requires { (length cells.old ≡ 2048) × (8192 ≤ length out.old) }
    ensures { PutWithin 8192 (rows_printed s.now) 0 out.old out.new result }
{
    let p = viewing::read_picture(s, &mut *cells);
    // A `Picture` holds its number, since it is the type of the definition `ReadPictureIs`.
    if p.number != 0 {
        let ns = [u32::from(p.number)];
        return writing::put_word_line(&mut *out, 0, b"refused", &ns);
    }
    let n = boards::cell_count(p.rows, p.columns);
    let rows = usize::from(p.rows);
    let columns = usize::from(p.columns);
    text::put_rows(&mut *out, 0, rows, columns, &cells[..n])
}

// All that is ever handed to `streams` of a picture.
fn hand<W: Write>(to: &mut W, s: &[u8], text: &[u8]) -> io::Result<()>
    requires { text.now ≡ rows_printed s.now }
    ensures ok { OnOk result (Appends (W.contents to.old) (W.contents to.new) (rows_printed s.now)) }
    ensures err { OnErr result (AppendsPart (W.contents to.old) (W.contents to.new) (rows_printed s.now)) }
{
    streams::write_all(to, text)
}

fn cell_room() -> [u8; 2048]
    ensures { 2048 ≡ length result }
{
    [0; 2048]
}

// Four bytes for each cell.
fn text_room() -> [u8; 8192]
    ensures { 8192 ≡ length result }
{
    [0; 8192]
}

fn write_rows<W: Write>(to: &mut W, s: &[u8]) -> io::Result<()>
    ensures ok { OnOk result (Appends (W.contents to.old) (W.contents to.new) (rows_printed s.now)) }
    ensures err { OnErr result (AppendsPart (W.contents to.old) (W.contents to.new) (rows_printed s.now)) }
{
    let mut cells = cell_room();
    let mut out = text_room();
    let n = print_rows(s, &mut cells, &mut out);
    hand(to, s, &out[..n])
}

// One byte more than is read as a picture.
fn picture_buffer() -> [u8; 1048577]
    ensures { 1048577 ≡ length result }
{
    [0; 1048577]
}

fn main(rt: HostRuntime) -> io::Result<()> {
    let mut bytes = picture_buffer();
    let mut from = rt.reader();
    let n = streams::read_full(&mut from, &mut bytes)?;
    let mut to = io::writer(&rt);
    if 1048576 < n {
        return streams::write_all(&mut to, b"longer than the 1048576 bytes that are read\n");
    }
    write_rows(&mut to, &bytes[..n])
}
