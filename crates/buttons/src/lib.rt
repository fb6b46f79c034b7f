// A click where the pointer is, and what a button does alike in PreFlaging and Playing, over the position by value and the lent boards.
// Each function meets the definition of its name in rules' Step.
#![tactic(auto)]

ghost use Rattle.std.specs.Prelude.{◌≡◌, List, ℕ, ◌+◌, ◌*◌, ◌<◌, ◌≤◌};
ghost use Rattle.rules.specs.States.{mouse_number, with_middle};
ghost use Rattle.rules.specs.Clicks.{desk, done};
ghost use Rattle.rules.specs.Mouse.{moved};
ghost use Rattle.rules.specs.Step.{left_at, right_at, chord_at, chord_from, play_lc, play_lr, play_rr};
ghost use Rattle.cells.specs.Promises.{LaidAt, RoomAt, AbleAt, Plays, Acts};
ghost use Rattle.keep.specs.Kept.{Inside};

use mouse::Motion;
pub use mouse::answered;
use rules::{MouseState, Played, Pointer, Position};

// ---- a click where the pointer is ------------------------------------------------------------------------------------------------------

#[tactic(auto, unfolding(rules::specs::Step::left_at))]
pub fn left_at(p: Position, x: Pointer, mines: &[i8], shown: &mut [u8], work: &mut [u16]) -> Played
    requires laid_at { LaidAt mines.now p shown.old work.old }
    requires room_at { RoomAt p shown.old }
    requires inside { Inside p.settings x }
    ensures { Acts (left_at mines.now x) p shown.old work.old result shown.new work.new }
{
    match x {
        Pointer::Cell { row, column } => {
            let r = usize::from(row);
            let c = usize::from(column);
            clicks::left_click(p, mines, &mut *shown, &mut *work, r, c)
        }
        Pointer::Off => answered(clicks::add_left(p)),
    }
}

#[tactic(auto, unfolding(rules::specs::Step::chord_at))]
pub fn chord_at(
    p: Position,
    x: Pointer,
    mines: &[i8],
    shown: &mut [u8],
    bits: &mut [u8],
    work: &mut [u16],
) -> Played
    requires able_at { AbleAt mines.now p shown.old bits.old work.old }
    requires inside { Inside p.settings x }
    ensures { Plays (chord_at mines.now x) p shown.old bits.old work.old result shown.new bits.new work.new }
{
    match x {
        Pointer::Cell { row, column } => {
            let i = mouse::cell(p.settings.columns, row, column);
            hands::chording_click(p, mines, &mut *shown, &mut *bits, &mut *work, i)
        }
        Pointer::Off => answered(p),
    }
}

#[tactic(auto, unfolding(rules::specs::Step::right_at))]
pub fn right_at(
    p: Position,
    x: Pointer,
    mines: &[i8],
    shown: &mut [u8],
    bits: &mut [u8],
    work: &mut [u16],
) -> Played
    requires able_at { AbleAt mines.now p shown.old bits.old work.old }
    requires inside { Inside p.settings x }
    ensures { Plays (right_at mines.now x) p shown.old bits.old work.old result shown.new bits.new work.new }
{
    match x {
        Pointer::Cell { row, column } => {
            let i = mouse::cell(p.settings.columns, row, column);
            hands::right_click(p, mines, &mut *shown, &mut *bits, &mut *work, i)
        }
        Pointer::Off => answered(marking::add_right(p)),
    }
}

// ---- a button in PreFlaging and Playing ------------------------------------------------------------------------------------------------

// A button goes up in mouse state m; from ChordingNotFlag its right press is taken back.
#[tactic(auto, unfolding(rules::specs::Step::chord_from))]
fn chord_from(
    m: MouseState,
    p: Position,
    x: Pointer,
    mines: &[i8],
    shown: &mut [u8],
    bits: &mut [u8],
    work: &mut [u16],
) -> Played
    requires able_at { AbleAt mines.now p shown.old bits.old work.old }
    requires inside { Inside p.settings x }
    requires le_right { mouse_number m ≡ 5 → 1 ≤ p.counts.right }
    ensures { Plays (chord_from mines.now (mouse_number m) x) p shown.old bits.old work.old result shown.new bits.new work.new }
{
    match m {
        MouseState::Chording => chord_at(p, x, mines, &mut *shown, &mut *bits, &mut *work),
        MouseState::ChordingNotFlag => {
            let q = p.with_right(p.counts.right - 1);
            chord_at(q, x, mines, &mut *shown, &mut *bits, &mut *work)
        }
        _ => answered(p),
    }
}

#[tactic(auto, unfolding(rules::specs::Step::play_lc, rules::specs::Mouse::moved))]
pub fn play_lc(p: Position, x: Pointer) -> Played
    requires { p.counts.left ≤ 70000 }
    ensures { (shown bits : List ℕ) → done result.answer (desk result.position shown bits) ≡ play_lc x (desk p shown bits) }
{
    if mouse::on_cell(x) {
        return mouse::moves(Motion::LeftPress, p);
    }
    answered(clicks::add_left(p))
}

#[tactic(auto, unfolding(rules::specs::Step::play_lr, rules::specs::Mouse::moved))]
pub fn play_lr(
    p: Position,
    x: Pointer,
    mines: &[i8],
    shown: &mut [u8],
    bits: &mut [u8],
    work: &mut [u16],
) -> Played
    requires able_at { AbleAt mines.now p shown.old bits.old work.old }
    requires inside { Inside p.settings x }
    requires le_right { mouse_number p.mouse ≡ 5 → 1 ≤ p.counts.right }
    ensures { Plays (play_lr mines.now x) p shown.old bits.old work.old result shown.new bits.new work.new }
{
    let q = mouse::moved(Motion::LeftRelease, p);
    if p.mouse == MouseState::DownUp {
        return left_at(q, x, mines, &mut *shown, &mut *work);
    }
    chord_from(p.mouse, q, x, mines, &mut *shown, &mut *bits, &mut *work)
}

#[tactic(auto, unfolding(rules::specs::Step::play_rr, rules::specs::Mouse::moved))]
pub fn play_rr(
    p: Position,
    x: Pointer,
    mines: &[i8],
    shown: &mut [u8],
    bits: &mut [u8],
    work: &mut [u16],
) -> Played
    requires able_at { AbleAt mines.now p shown.old bits.old work.old }
    requires inside { Inside p.settings x }
    requires le_right { mouse_number p.mouse ≡ 5 → 1 ≤ p.counts.right }
    ensures { Plays (play_rr mines.now x) p shown.old bits.old work.old result shown.new bits.new work.new }
{
    let q = mouse::moved(Motion::RightRelease, p);
    chord_from(p.mouse, q, x, mines, &mut *shown, &mut *bits, &mut *work)
}

// ---- an event that changes the position alone ------------------------------------------------------------------------------------------

pub fn middled(p: Position, b: bool) -> Played
    ensures { result ≡ record { answer = 0; position = with_middle p b } }
{
    answered(p.with_middle(b))
}
