// Reads a game book without claims on standard input and writes the whole book with its claims, or the line of its refusal.
// Of a longer input one byte more than any book has is read: what is written is that of the whole, by the law `prefix_claim`.
#![tactic(auto)]

ghost use Rattle.std.specs.Prelude.{◌≡◌, ◌<◌, ◌≤◌, length, OnOk, OnErr};
ghost use Rattle.std.specs.Io.KnownBytes.{Appends};
ghost use Rattle.rules.specs.Claims.{claim_text_of};
ghost use Rattle.streams.specs.Streams.{AppendsPart};

use rules::Verdict;
use std::io;
use std::io::Write;

// All that is ever handed to `streams`: a claimed book, or the line of a refusal, whole.
fn hand<W: Write>(to: &mut W, s: &[u8], text: &[u8]) -> io::Result<()>
    requires { text.now ≡ claim_text_of s.now }
    ensures ok { OnOk result (Appends (W.contents to.old) (W.contents to.new) (claim_text_of s.now)) }
    ensures err { OnErr result (AppendsPart (W.contents to.old) (W.contents to.new) (claim_text_of s.now)) }
{
    streams::write_all(to, text)
}

fn write_claimed<W: Write>(to: &mut W, s: &[u8]) -> io::Result<()>
    requires { length s.now ≤ 28681 }
    ensures ok { OnOk result (Appends (W.contents to.old) (W.contents to.new) (claim_text_of s.now)) }
    ensures err { OnErr result (AppendsPart (W.contents to.old) (W.contents to.new) (claim_text_of s.now)) }
{
    let c = checking::claim_book(s);
    let mut out = claiming::claimed_buffer();
    match c.verdict {
        Verdict::Accepted => {
            let first = writing::put_bytes(&mut out, 0, s);
            let end = writing::put_bytes(&mut out, first, &c.section);
            hand(to, s, &out[..end])
        }
        v => {
            let n = verdicts::put_verdict(&mut out, 0, v);
            hand(to, s, &out[..n])
        }
    }
}

fn main(rt: HostRuntime) -> io::Result<()> {
    let mut bytes = player::book_buffer();
    let mut from = rt.reader();
    let n = streams::read_full(&mut from, &mut bytes)?;
    let mut to = io::writer(&rt);
    write_claimed(&mut to, &bytes[..n])
}
