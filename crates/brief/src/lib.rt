// The button events that most of a game consists of, while Playing and on a cell, where they end at once: a press or a release that moves
// the mouse state alone, a flag that no pass follows, a number opened. Each changes a few parts of the position and at most one cell.
// A brief event is answered as it is played, any other by None, not played yet.
// The contracts cite rules' Step; specs/Briefly says what is left of an event that is not brief: everything.
#![tactic(auto)]

ghost use Rattle.std.specs.Prelude.{◌≡◌, ◌&&◌, List, ℕ, ◌*◌, ◌<◌, ltb, length, ℤ};
ghost use Rattle.rules.specs.States.{is_playing};
ghost use Rattle.rules.specs.Clicks.{desk};
ghost use Rattle.rules.specs.Step.{play_lr, play_rc, play_rr, playing, event_of};
ghost use Rattle.rules.specs.declared.Pointer.TheVariants.{Cell};
ghost use Rattle.cells.specs.Ground.{Mined};
ghost use Rattle.cells.specs.Promises.{RoomAt};
ghost use Rattle.keep.specs.Kept.{LawfulAt, Inside};
ghost use Rattle.brief.specs.Briefly.{Plainly, Briefly};

use mouse::Motion;
use rules::{GameState, MouseState, Played, Pointer, Position};

// A button event while Playing is what its code says, and nothing refuses it.
fn is_button(g: GameState, code: u8) -> bool
    ensures { result ≡ (is_playing g && ltb code 4) }
{
    g == GameState::Playing && code < 4
}

// rr: the right button goes up, and with the left one up too, or after a chord, nothing is chorded.
fn release_right(p: Position) -> Option<Played>
    ensures { (B : List ℤ) (row column : ℕ) (shown bits : List ℕ) → Plainly (play_rr B (Cell row column)) p shown bits result shown bits }
{
    if mouse::both_down(p.mouse) {
        return None;
    }
    Some(mouse::moves(Motion::RightRelease, p))
}

// rc: from UpUp on a closed cell a flag, in a mode below 12, where no pass follows it.
fn press_right(
    p: Position,
    row: u8,
    column: u8,
    mines: &[i8],
    shown: &mut [u8],
    bits: &mut [u8],
) -> Option<Played>
    requires lawful_at { LawfulAt mines.now (desk p shown.old bits.old) }
    requires inside { Inside p.settings (Cell row column) }
    ensures { Plainly (play_rc mines.now (Cell row column)) p shown.old bits.old result shown.new bits.new }
{
    if 12 <= p.settings.mode {
        return None;
    }
    if p.mouse != MouseState::UpUp {
        return None;
    }
    let cell = mouse::cell(p.settings.columns, row, column);
    if shown[cell] != 10 {
        return None;
    }
    let down = mouse::moved(Motion::RightPress, p);
    let position = marking::flag(down, mines, shown, bits, cell);
    Some(Played {
        answer: 1,
        position,
    })
}

// lr: from DownUp on a closed number the left click.
fn release_left(p: Position, row: u8, column: u8, mines: &[i8], shown: &mut [u8]) -> Option<Played>
    requires mined { Mined mines.now p.settings.rows p.settings.columns }
    requires shown_len { length shown.old ≡ p.settings.rows * p.settings.columns }
    requires inside { Inside p.settings (Cell row column) }
    requires room_at { RoomAt p shown.old }
    ensures { (bits : List ℕ) → Plainly (play_lr mines.now (Cell row column)) p shown.old bits result shown.new bits }
{
    if p.mouse != MouseState::DownUp {
        return None;
    }
    let cell = mouse::cell(p.settings.columns, row, column);
    if shown[cell] != 10 {
        return None;
    }
    let face = cells::face_at(mines, cell);
    if !clicks::is_number(face) {
        return None;
    }
    let rows = usize::from(p.settings.rows);
    let columns = usize::from(p.settings.columns);
    let r = usize::from(row);
    let c = usize::from(column);
    let lone = lones::lone_number(mines, rows, columns, r, c);
    let up = mouse::moved(Motion::LeftRelease, p);
    Some(clicks::left_number(up, shown, cell, face, lone))
}

// A button event on a cell while Playing, by its code.
fn button(
    p: Position,
    code: u8,
    row: u8,
    column: u8,
    mines: &[i8],
    shown: &mut [u8],
    bits: &mut [u8],
) -> Option<Played>
    requires lawful_at { LawfulAt mines.now (desk p shown.old bits.old) }
    requires inside { Inside p.settings (Cell row column) }
    requires code_bound { code < 4 }
    ensures { Plainly (playing mines.now (event_of code (Cell row column))) p shown.old bits.old result shown.new bits.new }
{
    match code {
        0 => Some(mouse::moves(Motion::LeftPress, p)),
        1 => release_left(p, row, column, mines, shown),
        2 => press_right(p, row, column, mines, shown, bits),
        _ => release_right(p),
    }
}

// An event on a cell: a button while Playing, or a move, which changes nothing in any game state.
fn on_cell(
    p: Position,
    code: u8,
    row: u8,
    column: u8,
    mines: &[i8],
    shown: &mut [u8],
    bits: &mut [u8],
) -> Option<Played>
    requires lawful_at { LawfulAt mines.now (desk p shown.old bits.old) }
    requires inside { Inside p.settings (Cell row column) }
    requires events_bound { p.events < 65535 }
    ensures { Briefly mines.now code (Cell row column) p shown.old bits.old result shown.new bits.new }
{
    if is_button(p.game, code) {
        return button(p, code, row, column, mines, shown, bits);
    }
    if code == 4 {
        return Some(mouse::answered(p));
    }
    None
}

// The event at a good pointer that there is room to count, if it is brief; the caller counts it.
pub fn play_brief(
    p: Position,
    code: u8,
    x: Pointer,
    mines: &[i8],
    shown: &mut [u8],
    bits: &mut [u8],
) -> Option<Played>
    requires lawful_at { LawfulAt mines.now (desk p shown.old bits.old) }
    requires inside { Inside p.settings x }
    requires events_bound { p.events < 65535 }
    ensures { Briefly mines.now code x p shown.old bits.old result shown.new bits.new }
{
    match x {
        Pointer::Cell { row, column } => on_cell(p, code, row, column, mines, shown, bits),
        Pointer::Off => None,
    }
}
