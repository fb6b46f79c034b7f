// Reads a game book with claims on standard input, plays it and writes the checker's verdict, one line.
// Of a longer input one byte more than any such book has is read: the verdict is that on the whole, by the law `prefix_check`.
#![tactic(auto)]

ghost use Rattle.std.specs.Prelude.{◌≡◌, ◌<◌, length, OnOk, OnErr};
ghost use Rattle.std.specs.Io.KnownBytes.{Appends};
ghost use Rattle.rules.specs.Claims.{verdict_line, check_of};
ghost use Rattle.streams.specs.Streams.{AppendsPart};

use std::io;
use std::io::Write;

// All that is ever handed to `streams`: the line of the verdict, whole.
fn hand<W: Write>(to: &mut W, s: &[u8], text: &[u8]) -> io::Result<()>
    requires { text.now ≡ verdict_line (check_of s.now) }
    ensures ok { OnOk result (Appends (W.contents to.old) (W.contents to.new) (verdict_line (check_of s.now))) }
    ensures err { OnErr result (AppendsPart (W.contents to.old) (W.contents to.new) (verdict_line (check_of s.now))) }
{
    streams::write_all(to, text)
}

fn write_verdict<W: Write>(to: &mut W, s: &[u8]) -> io::Result<()>
    requires { length s.now < 4294967296 }
    ensures ok { OnOk result (Appends (W.contents to.old) (W.contents to.new) (verdict_line (check_of s.now))) }
    ensures err { OnErr result (AppendsPart (W.contents to.old) (W.contents to.new) (verdict_line (check_of s.now))) }
{
    let v = checking::check_book(s);
    let mut line = [0u8; 66];
    let n = verdicts::put_verdict(&mut line, 0, v);
    hand(to, s, &line[..n])
}

fn main(rt: HostRuntime) -> io::Result<()> {
    let mut bytes = claiming::claimed_buffer();
    let mut from = rt.reader();
    let n = streams::read_full(&mut from, &mut bytes)?;
    let mut to = io::writer(&rt);
    write_verdict(&mut to, &bytes[..n])
}
