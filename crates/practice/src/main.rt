// Runs a row of the trainer's calls, for stored answers: the score to start from and then the calls on standard input, a line for each on standard
// output. specs/Practice.antt has the bytes and the lines. It reads 65,536 bytes at most; the rest of a longer input is not read.
#![tactic(auto)]

ghost use Rattle.std.specs.Prelude.{◌≡◌, ◌∷◌, [], ◌++◌, ◌+◌, ◌^◌, ◌<◌, ◌≤◌, ℕ, List, length, IfOk, OnOk, OnErr};
ghost use Rattle.std.specs.Io.KnownBytes.{Appends};
ghost use Rattle.rules.specs.Printout.{spaced};
ghost use Rattle.writing.specs.Put.{PutWithin};
ghost use Rattle.practice.specs.Practice.{two_at, score_at, Reached, broken_line, Line};
ghost use Rattle.practice.specs.Told.{call_bytes, CallIs, Whole, TellsQuestion, TellsReport, Tells};
ghost use Rattle.streams.specs.Streams.{AppendsPart};

use rules::{Place, Score};
use std::io;
use std::io::Write;

// A call: a question with so many shown bytes, or a report.
#[derive(Clone, Copy)]
enum Call {
    Question { shown: usize },
    Report,
}

// The score after a call, and how many bytes its line has.
#[derive(Clone, Copy)]
struct Told {
    score: Score,
    long: usize,
}

// ---- the bytes -------------------------------------------------------------------------------------------------------------------------

// A number of two bytes, low byte first.
fn two_at(s: &[u8], at: usize) -> u16
    requires { at + 1 < length s.now }
    ensures { result ≡ two_at s.now at }
{
    u16::from_le_bytes([s[at], s[at + 1]])
}

impl Call {
    // How many bytes it has.
    fn length(self) -> usize
        requires { call_bytes self < 2 ^ 64 }
        ensures { result ≡ call_bytes self }
    {
        match self {
            Call::Question { shown } => 5 + shown,
            Call::Report => 5,
        }
    }
}

// The call at a place, if it is not broken.
fn call_at(s: &[u8], at: usize) -> Option<Call>
    requires { at ≤ length s.now }
    ensures { CallIs s.now at result }
{
    if s.len() - at < 5 {
        return None;
    }
    match s[at] {
        0 => {
            let shown = usize::from(two_at(s, at + 3));
            if s.len() - at - 5 < shown {
                return None;
            }
            Some(Call::Question { shown })
        }
        1 => Some(Call::Report),
        _ => None,
    }
}

// ---- the lines -------------------------------------------------------------------------------------------------------------------------

// Hints asked for and followed, each after a space, and the line's end.
fn put_counts(out: &mut [u8], at: usize, score: Score) -> usize
    requires { at + 23 ≤ length out.old }
    ensures { PutWithin 23 (spaced (score.asked ∷ score.followed ∷ []) ++ (10 ∷ [])) at out.old out.new result }
{
    let ns = [u32::from(score.asked), u32::from(score.followed)];
    let next = writing::put_spaced(out, at, &ns);
    writing::put_byte(out, next, b'\n')
}

// A question, and its line from the front of `out`.
fn tell_question(s: &[u8], at: usize, shown: usize, score: Score, out: &mut [u8]) -> Told
    requires whole { Whole s.now at shown }
    requires in_bounds { 74 ≤ length out.old }
    ensures { TellsQuestion s.now at score out.old out.new result }
{
    let from = at + 5;
    let end = from + shown;
    let a = trainer::ask(score, s[at + 1], s[at + 2], &s[from..end]);
    let score = a.score;
    let next = wording::put_hint(out, 0, a.hint);
    let long = put_counts(out, next, score);
    Told { score, long }
}

// A report, and its line from the front of `out`.
fn tell_report(s: &[u8], at: usize, score: Score, out: &mut [u8]) -> Told
    requires at_in_bounds { at + 5 ≤ length s.now }
    requires in_bounds { 74 ≤ length out.old }
    ensures { TellsReport s.now at score out.old out.new result }
{
    let opened = u32::from(two_at(s, at + 3));
    let after = trainer::report(score, s[at + 1], s[at + 2], opened);
    let next = writing::put_bytes(out, 0, b"reported");
    let long = put_counts(out, next, after);
    Told { score: after, long }
}

// The call at a place that is not broken.
fn tell_call(s: &[u8], at: usize, call: Call, score: Score, out: &mut [u8]) -> Told
    requires call_is { CallIs s.now at (Some call) }
    requires in_bounds { 74 ≤ length out.old }
    ensures { Tells s.now at score out.old out.new result }
{
    match call {
        Call::Question { shown } => tell_question(s, at, shown, score, out),
        Call::Report => tell_report(s, at, score, out),
    }
}

// ---- what is written -------------------------------------------------------------------------------------------------------------------

// All that is ever handed to `streams`: the line of the call at a place, or of broken bytes.
fn hand<W: Write>(to: &mut W, s: &[u8], at: usize, text: &[u8]) -> io::Result<()>
    requires { Line s.now text.now at }
    ensures ok { OnOk result (Appends (W.contents to.old) (W.contents to.new) text.now) }
    ensures err { OnErr result (AppendsPart (W.contents to.old) (W.contents to.new) text.now) }
{
    streams::write_all(to, text)
}

fn line_room() -> [u8; 74]
    ensures { 74 ≡ length result }
{
    [0; 74]
}

// The line of broken bytes.
fn put_broken(out: &mut [u8], at: usize) -> usize
    requires { (at < 4294967296) × (74 ≤ length out.old) }
    ensures { PutWithin 74 (broken_line at) 0 out.old out.new result }
{
    let ns = [at as u32];
    writing::put_word_line(out, 0, b"broken", &ns)
}

// The call at a place, and its line written; the answer is the score after it. A write that fails is the only error: it took a front of the line.
fn run_call<W: Write>(
    to: &mut W,
    s: &[u8],
    at: usize,
    call: Call,
    score: Score,
) -> io::Result<Score>
    requires call_is { CallIs s.now at (Some call) }
    requires reached { Reached s.now at score }
    ensures after { IfOk result (λ after. after ≡ score_at s.now at score) }
    ensures err { OnErr result ((text : List ℕ) × Line s.now text at × AppendsPart (W.contents to.old) (W.contents to.new) text) }
{
    let mut out = line_room();
    let told = tell_call(s, at, call, score, &mut out);
    let long = told.long;
    hand(to, s, at, &out[..long])?;
    Ok(told.score)
}

// The calls from a score on, to the end or to broken bytes.
fn run_calls<W: Write>(to: &mut W, s: &[u8], first: Score) -> io::Result<()>
    requires in_bounds { (4 ≤ length s.now) × (length s.now ≤ 65536) }
    requires reached { Reached s.now 4 first }
{
    let mut score = first;
    let mut at = 4;
    // `while`, since each call says how far the next one is.
    while at < s.len() {
        let Some(call) = call_at(s, at) else {
            let mut out = line_room();
            let long = put_broken(&mut out, at);
            return hand(to, s, at, &out[..long]);
        };
        score = run_call(to, s, at, call, score)?;
        at += call.length();
    }
    Ok(())
}

// All of a practice.
fn run<W: Write>(to: &mut W, s: &[u8]) -> io::Result<()>
    requires { length s.now ≤ 65536 }
{
    if s.len() < 4 {
        let mut out = line_room();
        let long = put_broken(&mut out, 0);
        return hand(to, s, 0, &out[..long]);
    }
    let asked = two_at(s, 0);
    let followed = two_at(s, 2);
    let start = Score {
        asked,
        followed,
        hint: Place::Nowhere,
    };
    run_calls(to, s, start)
}

fn main(rt: HostRuntime) -> io::Result<()> {
    let mut bytes = streams::large_buffer();
    let mut from = rt.reader();
    let n = streams::read_full(&mut from, &mut bytes)?;
    let mut to = io::writer(&rt);
    run(&mut to, &bytes[..n])
}
