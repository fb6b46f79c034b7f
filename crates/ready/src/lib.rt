// One plain event in Ready.
// Each function meets the definition of its name in rules' Step.
#![tactic(auto)]

ghost use Rattle.std.specs.Prelude.{◌≡◌, ◌&&◌, List, ℕ, ◌≤◌, eqb};
ghost use Rattle.rules.specs.declared.GameState.TheVariants.{PreFlaging};
ghost use Rattle.rules.specs.States.{mouse_number};
ghost use Rattle.rules.specs.Clicks.{desk, done};
ghost use Rattle.rules.specs.Step.{on_cell, ready_lc, ready_rc, ready as readyOf};
ghost use Rattle.keep.specs.Kept.{Inside, InsideOf};
ghost use Rattle.cells.specs.Promises.{AbleAt, Plays};

use mouse::Motion;
use rules::{Event, GameState, MouseState, Played, Pointer, Position};

// UpUp, on a cell.
fn starts(p: Position, x: Pointer) -> bool
    ensures { result ≡ (eqb (mouse_number p.mouse) 0 && on_cell x) }
{
    p.mouse == MouseState::UpUp && mouse::on_cell(x)
}

#[tactic(auto, unfolding(rules::specs::Step::ready_lc, rules::specs::Mouse::moved))]
fn ready_lc(p: Position, x: Pointer) -> Played
    ensures { (shown bits : List ℕ) → done result.answer (desk result.position shown bits) ≡ ready_lc x (desk p shown bits) }
{
    let q = mouse::moved(Motion::LeftPress, p);
    if starts(p, x) {
        return mouse::answered(q.with_game(GameState::PreFlaging));
    }
    mouse::answered(q)
}

#[tactic(auto, unfolding(rules::specs::Step::ready_rc, rules::specs::Mouse::moved))]
fn ready_rc(
    p: Position,
    x: Pointer,
    mines: &[i8],
    shown: &mut [u8],
    bits: &mut [u8],
    work: &mut [u16],
) -> Played
    requires able_at { AbleAt mines.now p shown.old bits.old work.old }
    requires inside { Inside p.settings x }
    ensures { Plays (ready_rc mines.now x) p shown.old bits.old work.old result shown.new bits.new work.new }
{
    let q = mouse::moved(Motion::RightPress, p);
    if starts(p, x) {
        let y = q.with_preflags(1);
        let z = y.with_game(GameState::PreFlaging);
        return buttons::right_at(z, x, mines, &mut *shown, &mut *bits, &mut *work);
    }
    mouse::answered(q)
}

#[tactic(auto, unfolding(rules::specs::Step::ready))]
pub fn ready(
    p: Position,
    e: Event,
    mines: &[i8],
    shown: &mut [u8],
    bits: &mut [u8],
    work: &mut [u16],
) -> Played
    requires able_at { AbleAt mines.now p shown.old bits.old work.old }
    requires inside_of { InsideOf p.settings e }
    requires preflags_bound { p.preflags ≤ 70000 }
    ensures { Plays (readyOf mines.now e) p shown.old bits.old work.old result shown.new bits.new work.new }
{
    match e {
        Event::Lc(x) => ready_lc(p, x),
        Event::Lr(_) => mouse::moves(Motion::LeftRelease, p),
        Event::Rc(x) => ready_rc(p, x, mines, &mut *shown, &mut *bits, &mut *work),
        Event::Rr(_) => mouse::moves(Motion::RightRelease, p),
        Event::Cc(_) => mouse::moves(Motion::BothPress, p),
        Event::Pf(x) => preflags::pre_flag(p, x, mines, &mut *shown, &mut *bits, &mut *work),
        Event::Mv(_) | Event::Mc(_) | Event::Mr(_) | Event::Unknown { .. } => mouse::answered(p),
    }
}
