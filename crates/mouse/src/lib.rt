// What the hand's codes mean: the table of the seven mouse states, resolving l, r and m, pointers and events.
// Nothing here writes. The contracts cite rules' Mouse and Step.
#![tactic(auto)]

ghost use Rattle.std.specs.Prelude.{◌≡◌, true, false, ◌&&◌, ◌||◌, List, ℕ, ◌+◌, ◌*◌, ◌<◌, leb, eqb, ltb, get_or};
ghost use Rattle.rules.specs.Grid.{cell_of};
ghost use Rattle.rules.specs.Clicks.{desk};
ghost use Rattle.rules.specs.Mouse.{next_mouse, moved as movedOf, both_down, resolved, flipped};
ghost use Rattle.rules.specs.States.{mouse_number, mouse_at};
ghost use Rattle.rules.specs.Step.{on_cell, seen_at, pointer_of, event_of, plain_of, plain_code};
ghost use Rattle.mouse.specs.Motions.{motion_code};

use rules::{Event, MouseState, Played, Pointer, Position, Settings};

// A press or a release, by which the mouse state moves.
#[derive(Clone, Copy)]
pub enum Motion {
    LeftPress,
    LeftRelease,
    RightPress,
    RightRelease,
    BothPress,
}

impl Motion {
    // Its event code.
    fn code(self) -> usize
        ensures { (result ≡ motion_code self) × (result < 8) }
    {
        match self {
            Motion::LeftPress => 0,
            Motion::LeftRelease => 1,
            Motion::RightPress => 2,
            Motion::RightRelease => 3,
            Motion::BothPress => 7,
        }
    }
}

// The next mouse state of the Playing block, by event code and present state; Ready and PreFlaging partly fall through to it. It holds the
// numbers of the states, since `mouse_table` of rules/specs, which the contracts cite, is of numbers.
const NEXT: [[u8; 7]; 8] = [
    [3, 4, 5, 3, 4, 5, 6],
    [0, 1, 2, 0, 1, 1, 0],
    [1, 1, 2, 4, 4, 5, 4],
    [0, 0, 0, 3, 6, 6, 6],
    [0, 1, 2, 3, 4, 5, 6],
    [0, 1, 2, 3, 4, 5, 6],
    [0, 1, 2, 3, 4, 5, 6],
    [4, 4, 5, 4, 4, 5, 4],
];

fn next_mouse(e: usize, m: u8) -> u8
    requires { (e < 8) × (m < 7) }
    ensures { result ≡ next_mouse e m }
{
    NEXT[e][usize::from(m)]
}

// The position with its mouse state moved on.
pub fn moved(e: Motion, p: Position) -> Position
    ensures { result ≡ movedOf (motion_code e) p }
{
    let n = next_mouse(e.code(), u8::from(p.mouse));
    p.with_mouse(MouseState::from(n))
}

// Nothing but the position changes.
pub fn answered(p: Position) -> Played
    ensures { result ≡ record { answer = 0; position = p } }
{
    Played {
        answer: 0,
        position: p,
    }
}

// The mouse state moves on, and nothing else happens.
pub fn moves(e: Motion, p: Position) -> Played
    ensures { result ≡ record { answer = 0; position = movedOf (motion_code e) p } }
{
    answered(moved(e, p))
}

// Chording and ChordingNotFlag.
#[tactic(auto, unfolding(rules::specs::Mouse::both_down))]
pub fn both_down(m: MouseState) -> bool
    ensures { result ≡ both_down (mouse_number m) }
{
    matches!(m, MouseState::Chording | MouseState::ChordingNotFlag)
}

// l releases in DownUp, where both buttons are down, and after a chord.
fn left_is_held(m: MouseState) -> bool
    ensures { result ≡ leb 3 (mouse_number m) }
{
    matches!(
        m,
        MouseState::DownUp
            | MouseState::Chording
            | MouseState::ChordingNotFlag
            | MouseState::DownUpAfterChording
    )
}

// r releases in UpDown and where both buttons are down, by rules 2 in UpDownNotFlag too.
#[tactic(auto, unfolding(rules::specs::Mouse::both_down))]
fn right_is_held(rules: u8, m: MouseState) -> bool
    ensures { result ≡ (eqb (mouse_number m) 1 || (both_down (mouse_number m) || (eqb (mouse_number m) 2 && eqb rules 2))) }
{
    match m {
        MouseState::UpDown | MouseState::Chording | MouseState::ChordingNotFlag => true,
        MouseState::UpDownNotFlag => rules == 2,
        _ => false,
    }
}

// l, r and m as plain codes, a release where the button is held and else a press; every other code stays.
#[tactic(auto, unfolding(rules::specs::Mouse::resolved))]
fn resolve(rules: u8, code: u8, m: MouseState, middle: bool) -> u8
    ensures { result ≡ resolved rules code (mouse_number m) middle }
{
    match code {
        9 => if left_is_held(m) { 1 } else { 0 },
        10 => if right_is_held(rules, m) { 3 } else { 2 },
        11 => if middle { 6 } else { 5 },
        _ => code,
    }
}

// A code at a position as a plain one.
pub fn code_at(p: Position, code: u8) -> u8
    ensures { result ≡ resolved p.settings.rules code (mouse_number p.mouse) p.middle }
{
    resolve(p.settings.rules, code, p.mouse, p.middle)
}

// m flips the middle flag.
#[tactic(auto, unfolding(rules::specs::Mouse::flipped))]
pub fn flip(code: u8, middle: bool) -> bool
    ensures { result ≡ flipped code middle }
{
    if code == 11 { !middle } else { middle }
}

// ---- pointers and events ---------------------------------------------------------------------------------------------------------------

pub fn on_cell(x: Pointer) -> bool
    ensures { result ≡ on_cell x }
{
    matches!(x, Pointer::Cell { .. })
}

// The number of a cell.
pub fn cell(columns: u8, row: u8, column: u8) -> usize
    ensures { result ≡ cell_of columns row column }
{
    usize::from(row) * usize::from(columns) + usize::from(column)
}

// What is shown at the pointer; off the board 0, as an open cell.
#[tactic(auto, unfolding(rules::specs::Step::seen_at))]
pub fn seen_at(p: Position, shown: &[u8], x: Pointer) -> u8
    ensures { (bits : List ℕ) → result ≡ seen_at (desk p shown.now bits) x }
{
    match x {
        Pointer::Cell { row, column } => {
            let i = cell(p.settings.columns, row, column);
            shown.get(i).copied().unwrap_or(0)
        }
        Pointer::Off => 0,
    }
}

// A cell, or exactly (rows, columns), else none.
#[tactic(auto, unfolding(rules::specs::Step::pointer_of))]
pub fn decode(s: Settings, row: u8, column: u8) -> Option<Pointer>
    ensures { result ≡ pointer_of s row column }
{
    if row < s.rows && column < s.columns {
        return Some(Pointer::Cell { row, column });
    }
    if row == s.rows && column == s.columns {
        return Some(Pointer::Off);
    }
    None
}

// The event of a plain code.
#[tactic(auto, unfolding(rules::specs::Step::event_of))]
fn event_of(code: u8, x: Pointer) -> Event
    ensures { result ≡ event_of code x }
{
    match code {
        0 => Event::Lc(x),
        1 => Event::Lr(x),
        2 => Event::Rc(x),
        3 => Event::Rr(x),
        4 => Event::Mv(x),
        5 => Event::Mc(x),
        6 => Event::Mr(x),
        7 => Event::Cc(x),
        8 => Event::Pf(x),
        _ => Event::Unknown { code, pointer: x },
    }
}

// l, r and m are no plain codes, and as unknown as 12.
#[tactic(auto, unfolding(rules::specs::Step::plain_code))]
fn plain_code(code: u8) -> u8
    ensures { result ≡ plain_code code }
{
    match code {
        9..=11 => 12,
        _ => code,
    }
}

// The event of a code where plain events only are played.
pub fn plain_event(code: u8, x: Pointer) -> Event
    ensures { result ≡ event_of (plain_code code) x }
{
    event_of(plain_code(code), x)
}

// The plain event that a code and a pointer are at a position.
#[tactic(auto, unfolding(rules::specs::Step::plain_of))]
fn plain(p: Position, code: u8, x: Pointer) -> Event
    ensures { (shown bits : List ℕ) → result ≡ plain_of code x (desk p shown bits) }
{
    event_of(code_at(p, code), x)
}

// An event with l, r and m resolved: the plain event, and the middle flag, which m flips.
#[derive(Clone, Copy)]
pub struct Resolved {
    pub event: Event,
    pub middle: bool,
}

pub fn resolve_at(p: Position, code: u8, x: Pointer) -> Resolved
    ensures { (shown bits : List ℕ) → result ≡ record { event = plain_of code x (desk p shown bits); middle = flipped code p.middle } }
{
    let event = plain(p, code, x);
    let middle = flip(code, p.middle);
    Resolved { event, middle }
}
