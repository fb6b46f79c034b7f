// What a call on a flat position is made on, and what it answers. A state byte that means nothing is refused by the call's own chain: with its number
// for what the bytes are read as, else with 264; and the bytes go back as they were given (specs/Reading.antt).
#![tactic(auto)]

ghost use Rattle.std.specs.Prelude.{◌≡◌, leb};
ghost use Rattle.rules.specs.Words.{pick};
ghost use Rattle.flats.specs.Flat.{gives, flat_answer};
ghost use Rattle.reads.specs.Reading.{Spoils, Reads, answer_for, reset_for};

use flats::{FlatAnswer, FlatPosition};
use rules::{Answer, MouseState, Position};

// 0 for a count that the events allow; one above them stays.
fn only_above(n: u32, events: u32) -> u32
    ensures { result ≡ pick (leb n events) 0 n }
{
    if n <= events { 0 } else { n }
}

// p with a NotFlag mouse state and no right click, which is 264 and which no test before it asks about; a right count above the events is 263, and
// stays.
fn spoilt(p: Position) -> Position
    ensures { Spoils p result }
{
    let q = p.with_mouse(MouseState::UpDownNotFlag);
    let right = only_above(p.counts.right, p.events);
    q.with_right(right)
}

// The position that a call on f is made on: where a byte means nothing, one that the call refuses.
pub fn position_for(f: FlatPosition) -> Position
    ensures { Reads f result }
{
    let p = Position::from(f);
    if f.means() { p } else { spoilt(p) }
}

// The answer a, or what is left of it where the call was refused for f: its number and its place, and f as it was given.
fn answer_or(f: FlatPosition, done: bool, a: Answer) -> FlatAnswer
    ensures { result ≡ pick done (flat_answer a) (gives a.number a.place f 0) }
{
    if done {
        FlatAnswer::from(a)
    } else {
        FlatAnswer::new(a.number, a.place, f, 0)
    }
}

// What a call on f answers, where board's answer for `position_for` is a: where a byte means nothing, f goes back.
pub fn answer_for(f: FlatPosition, a: Answer) -> FlatAnswer
    ensures { result ≡ answer_for f a }
{
    answer_or(f, f.means(), a)
}

// The same for a reset of f, which a byte that means nothing does not refuse.
pub fn reset_for(f: FlatPosition, a: Answer) -> FlatAnswer
    ensures { result ≡ reset_for f a }
{
    answer_or(f, a.number == 0, a)
}
