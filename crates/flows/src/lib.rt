// A row of events on a lawful position: its next event, for whoever plays one, and the row whole, with its moves counted together.
// The contracts cite rules' Calls, `game`'s specs/Core and specs/Runs; `keep` gives that every step leaves what the next one asks.
#![tactic(auto)]

ghost use Rattle.std.specs.Prelude.{◌≡◌, true, ◌+◌, ◌%◌, ◌≤◌, length, get_or};
ghost use Rattle.rules.specs.States.{with_events};
ghost use Rattle.rules.specs.Clicks.{desk};
ghost use Rattle.rules.specs.Step.{step_on};
ghost use Rattle.keep.specs.Kept.{LawfulAt};
ghost use Rattle.cells.specs.Promises.{Plays};
ghost use Rattle.game.specs.Core.{Blank};
ghost use Rattle.flows.specs.Runs.{flow_on, move_at, Moves};

use rules::{Played, Position, Refusal, Settings};

// The event of three bytes that starts at a place of the row: 30, 31, and what is brief is played here, so that a loop keeps its position at
// hand; any other event gets a copy, since a position that is handed on must lie in memory.
pub fn next_event(
    p: Position,
    events: &[u8],
    at: usize,
    mines: &[i8],
    shown: &mut [u8],
    bits: &mut [u8],
    work: &mut [u16],
) -> Played
    requires lawful_at { LawfulAt mines.now (desk p shown.old bits.old) }
    requires blank { Blank p.settings work.old }
    requires at_in_bounds { at + 3 ≤ length events.now }
    ensures { Plays (step_on mines.now (get_or events.now at 0) (get_or events.now (at + 1) 0) (get_or events.now (at + 2) 0)) p shown.old bits.old work.old result shown.new bits.new work.new }
{
    let code = events[at];
    let row = events[at + 1];
    let column = events[at + 2];
    let Some(x) = mouse::decode(p.settings, row, column) else {
        return game::refused(Refusal::Pointer, p);
    };
    if faults::is_full(p) {
        return game::refused(Refusal::Full, p);
    }
    match brief::play_brief(p, code, x, mines, &mut *shown, &mut *bits) {
        Some(o) => {
            let n = p.events + 1;
            game::counted(o, n)
        }
        None => {
            let q = p;
            game::step_at(q, code, x, mines, &mut *shown, &mut *bits, &mut *work)
        }
    }
}

// The event at a place is a move that its pointer does not refuse.
fn is_move(s: Settings, events: &[u8], at: usize) -> bool
    requires { at + 3 ≤ length events.now }
    ensures { result ≡ move_at s events.now at }
{
    events[at] == 4 && mouse::decode(s, events[at + 1], events[at + 2]).is_some()
}

// Moves that follow each other from a place on, at most so many: a recording holds long rows of them.
fn moves(s: Settings, events: &[u8], from: usize, most: u32) -> u32
    requires { (from ≤ length events.now) × (from % 3 ≡ 0) × (length events.now % 3 ≡ 0) }
    ensures { Moves s events.now from result × (result ≤ most) }
{
    for n in 0..most {
        let at = from + 3 * (n as usize);
        if events.len() <= at {
            return n;
        }
        if !is_move(s, events, at) {
            return n;
        }
    }
    most
}

// Moves, most of what a recording holds: they change the count of events alone, in every game state.
pub fn count_moves(p: Position, n: u32) -> Played
    requires { p.events + n ≤ 65535 }
    ensures { result ≡ record { answer = 0; position = with_events p (p.events + n) } }
{
    Played {
        answer: 0,
        position: p.with_events(p.events + n),
    }
}

// A row of whole events, up to the first refused one; the answer is that of the last event played, 0 where there is none.
pub fn flow(
    p: Position,
    events: &[u8],
    mines: &[i8],
    shown: &mut [u8],
    bits: &mut [u8],
    work: &mut [u16],
) -> Played
    requires lawful_at { LawfulAt mines.now (desk p shown.old bits.old) }
    requires blank { Blank p.settings work.old }
    requires events_len { length events.now % 3 ≡ 0 }
    ensures { Plays (flow_on mines.now events.now) p shown.old bits.old work.old result shown.new bits.new work.new }
{
    let mut at = 0;
    let mut o = Played {
        answer: 0,
        position: p,
    };
    // No `for`: a row of moves is passed over at once.
    while at < events.len() {
        let q = o.position;
        let n = moves(q.settings, events, at, 65535 - q.events);
        if n != 0 {
            o = count_moves(q, n);
            at += 3 * (n as usize);
        } else {
            o = next_event(q, events, at, mines, &mut *shown, &mut *bits, &mut *work);
            if 20 <= o.answer {
                return o;
            }
            at += 3;
        }
    }
    o
}
