// Pre-flags set and taken back: the right button in PreFlaging.
// Each function meets the definition of its name in rules' Step.
#![tactic(auto)]

ghost use Rattle.std.specs.Prelude.{◌≡◌, not, ◌&&◌, List, ℕ, ◌*◌, ◌<◌, ◌≤◌, eqb, length, get_or, replicate};
ghost use Rattle.rules.specs.Clicks.{desk, done};
ghost use Rattle.rules.specs.Passes.{right_click};
ghost use Rattle.rules.specs.Step.{cleared, cleared_if, last_taken_back, pre_cell, pre_right, pre_flag, move, back_if, back_to_ready, pre_rc};
ghost use Rattle.keep.specs.Kept.{Inside};
ghost use Rattle.mouse.specs.Motions.{motion_code};
ghost use Rattle.cells.specs.Promises.{AbleAt, Plays};

use mouse::Motion;
use rules::{GameState, MouseState, Played, Pointer, Position};

// Clearing: back to Ready, with the counts and the bits cleared.
pub fn clear(p: Position, bits: &mut [u8]) -> Position
    ensures { (shown : List ℕ) → desk result shown bits.new ≡ cleared (desk p shown bits.old) }
{
    bits.fill(0);
    p.zeroed()
}

// The last pre-flag is taken back with question marks off.
fn take_last_back(p: Position, i: usize, shown: &mut [u8], bits: &mut [u8]) -> Position
    requires { i < length shown.old }
    ensures { desk result shown.new bits.new ≡ last_taken_back i (desk p shown.old bits.old) }
{
    shown[i] = 10;
    bits.fill(0);
    p.with_preflags(0).zeroed()
}

// A question mark is taken away; with no pre-flag left the game is Ready again, cleared.
fn pre_question(
    p: Position,
    i: usize,
    mines: &[i8],
    shown: &mut [u8],
    bits: &mut [u8],
    work: &mut [u16],
) -> Played
    requires able_at { AbleAt mines.now p shown.old bits.old work.old }
    requires i_bound { i < p.settings.rows * p.settings.columns }
    ensures { Plays (λ d. cleared_if (eqb d.position.preflags 0) (right_click mines.now i d)) p shown.old bits.old work.old result shown.new bits.new work.new }
{
    let o = hands::right_click(p, mines, &mut *shown, &mut *bits, &mut *work, i);
    if p.preflags == 0 {
        let position = clear(o.position, &mut *bits);
        return Played { position, ..o };
    }
    o
}

fn is_last(p: Position) -> bool
    ensures { result ≡ (not p.settings.question && eqb p.preflags 1) }
{
    !p.settings.question && p.preflags == 1
}

#[tactic(auto, unfolding(rules::specs::Step::pre_cell))]
fn pre_cell(
    p: Position,
    i: usize,
    mines: &[i8],
    shown: &mut [u8],
    bits: &mut [u8],
    work: &mut [u16],
) -> Played
    requires able_at { AbleAt mines.now p shown.old bits.old work.old }
    requires i_bound { i < p.settings.rows * p.settings.columns }
    requires preflags_bound { p.preflags ≤ 70000 }
    requires le_preflags { get_or shown.old i 0 ≡ 11 → 1 ≤ p.preflags }
    ensures { Plays (pre_cell mines.now i) p shown.old bits.old work.old result shown.new bits.new work.new }
{
    match shown[i] {
        10 => {
            let q = p.with_preflags(p.preflags + 1);
            hands::right_click(q, mines, &mut *shown, &mut *bits, &mut *work, i)
        }
        11 if is_last(p) => mouse::answered(take_last_back(p, i, &mut *shown, &mut *bits)),
        11 => {
            let q = p.with_preflags(p.preflags - 1);
            hands::right_click(q, mines, &mut *shown, &mut *bits, &mut *work, i)
        }
        _ => pre_question(p, i, mines, &mut *shown, &mut *bits, &mut *work),
    }
}

#[tactic(auto, unfolding(rules::specs::Step::pre_right, rules::specs::Mouse::moved))]
fn pre_right(
    p: Position,
    x: Pointer,
    mines: &[i8],
    shown: &mut [u8],
    bits: &mut [u8],
    work: &mut [u16],
) -> Played
    requires able_at { AbleAt mines.now p shown.old bits.old work.old }
    requires inside { Inside p.settings x }
    requires preflags_bound { p.preflags ≤ 70000 }
    requires by_index { (i : ℕ) → get_or shown.old i 0 ≡ 11 → 1 ≤ p.preflags }
    ensures { Plays (pre_right mines.now x) p shown.old bits.old work.old result shown.new bits.new work.new }
{
    match x {
        Pointer::Cell { row, column } => {
            let i = mouse::cell(p.settings.columns, row, column);
            let q = mouse::moved(Motion::RightPress, p);
            pre_cell(q, i, mines, &mut *shown, &mut *bits, &mut *work)
        }
        Pointer::Off => {
            let q = p.with_mouse(MouseState::UpDownNotFlag);
            mouse::answered(marking::add_right(q))
        }
    }
}

// A flag before the game, on a cell showing 10.
#[tactic(auto, unfolding(rules::specs::Step::pre_flag))]
pub fn pre_flag(
    p: Position,
    x: Pointer,
    mines: &[i8],
    shown: &mut [u8],
    bits: &mut [u8],
    work: &mut [u16],
) -> Played
    requires able_at { AbleAt mines.now p shown.old bits.old work.old }
    requires inside { Inside p.settings x }
    requires preflags_bound { p.preflags ≤ 70000 }
    ensures { Plays (pre_flag mines.now x) p shown.old bits.old work.old result shown.new bits.new work.new }
{
    let y = p.with_preflags(p.preflags + 1);
    let q = y.with_game(GameState::PreFlaging);
    buttons::right_at(q, x, mines, &mut *shown, &mut *bits, &mut *work)
}

// In DownUp on a cell with no pre-flag.
fn back_to_ready(p: Position, x: Pointer) -> bool
    ensures { (shown bits : List ℕ) → result ≡ back_to_ready x (desk p shown bits) }
{
    p.mouse == MouseState::DownUp && mouse::on_cell(x) && p.preflags == 0
}

// The mouse state moves on; back to Ready without clearing where that is due.
#[tactic(auto, unfolding(rules::specs::Mouse::moved))]
pub fn moves_back(e: Motion, p: Position, x: Pointer) -> Played
    ensures { (shown bits : List ℕ) → done result.answer (desk result.position shown bits) ≡ done 0 (back_if (back_to_ready x (desk p shown bits)) (move (motion_code e) (desk p shown bits))) }
{
    let q = mouse::moved(e, p);
    if back_to_ready(p, x) {
        return mouse::answered(q.with_game(GameState::Ready));
    }
    mouse::answered(q)
}

#[tactic(auto, unfolding(rules::specs::Step::pre_rc))]
pub fn pre_rc(
    p: Position,
    x: Pointer,
    mines: &[i8],
    shown: &mut [u8],
    bits: &mut [u8],
    work: &mut [u16],
) -> Played
    requires able_at { AbleAt mines.now p shown.old bits.old work.old }
    requires inside { Inside p.settings x }
    requires preflags_bound { p.preflags ≤ 70000 }
    requires by_index { (i : ℕ) → get_or shown.old i 0 ≡ 11 → 1 ≤ p.preflags }
    ensures { Plays (pre_rc mines.now x) p shown.old bits.old work.old result shown.new bits.new work.new }
{
    if p.mouse == MouseState::UpUp {
        return pre_right(p, x, mines, &mut *shown, &mut *bits, &mut *work);
    }
    moves_back(Motion::RightPress, p, x)
}
