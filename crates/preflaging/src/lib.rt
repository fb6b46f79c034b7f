// One plain event in PreFlaging, and what the left button does there.
// Each function meets the definition of its name in rules' Step.
#![tactic(auto)]

ghost use Rattle.std.specs.Prelude.{◌≡◌, ℕ, ◌≤◌, get_or};
ghost use Rattle.rules.specs.States.{mouse_number};
ghost use Rattle.rules.specs.Step.{pre_left, pre_lr, pre_flaging as preFlagingOf};
ghost use Rattle.keep.specs.Kept.{Inside, InsideOf};
ghost use Rattle.cells.specs.Promises.{AbleAt, Plays};

use mouse::Motion;
use rules::{Event, GameState, MouseState, Played, Pointer, Position};

// The left button goes up in DownUp.
#[tactic(auto, unfolding(rules::specs::Step::pre_left))]
fn pre_left(
    p: Position,
    x: Pointer,
    mines: &[i8],
    shown: &mut [u8],
    bits: &mut [u8],
    work: &mut [u16],
) -> Played
    requires able_at { AbleAt mines.now p shown.old bits.old work.old }
    requires inside { Inside p.settings x }
    ensures { Plays (pre_left mines.now x) p shown.old bits.old work.old result shown.new bits.new work.new }
{
    if mouse::on_cell(x) {
        if mouse::seen_at(p, &*shown, x) == 10 {
            let q = p.with_game(GameState::Playing);
            return buttons::left_at(q, x, mines, &mut *shown, &mut *work);
        }
        return mouse::answered(clicks::add_left(p));
    }
    if p.preflags == 0 {
        return mouse::answered(preflags::clear(p, &mut *bits));
    }
    mouse::answered(clicks::add_left(p))
}

#[tactic(auto, unfolding(rules::specs::Step::pre_lr, rules::specs::Mouse::moved))]
fn pre_lr(
    p: Position,
    x: Pointer,
    mines: &[i8],
    shown: &mut [u8],
    bits: &mut [u8],
    work: &mut [u16],
) -> Played
    requires able_at { AbleAt mines.now p shown.old bits.old work.old }
    requires inside { Inside p.settings x }
    requires le_right { mouse_number p.mouse ≡ 5 → 1 ≤ p.counts.right }
    ensures { Plays (pre_lr mines.now x) p shown.old bits.old work.old result shown.new bits.new work.new }
{
    if p.mouse == MouseState::DownUp {
        let q = mouse::moved(Motion::LeftRelease, p);
        return pre_left(q, x, mines, &mut *shown, &mut *bits, &mut *work);
    }
    buttons::play_lr(p, x, mines, &mut *shown, &mut *bits, &mut *work)
}

#[tactic(auto, unfolding(rules::specs::Step::pre_flaging))]
pub fn pre_flaging(
    p: Position,
    e: Event,
    mines: &[i8],
    shown: &mut [u8],
    bits: &mut [u8],
    work: &mut [u16],
) -> Played
    requires able_at { AbleAt mines.now p shown.old bits.old work.old }
    requires inside_of { InsideOf p.settings e }
    requires le_right { mouse_number p.mouse ≡ 5 → 1 ≤ p.counts.right }
    requires preflags_bound { p.preflags ≤ 70000 }
    requires by_index { (i : ℕ) → get_or shown.old i 0 ≡ 11 → 1 ≤ p.preflags }
    ensures { Plays (preFlagingOf mines.now e) p shown.old bits.old work.old result shown.new bits.new work.new }
{
    match e {
        Event::Lc(x) => buttons::play_lc(p, x),
        Event::Lr(x) => pre_lr(p, x, mines, &mut *shown, &mut *bits, &mut *work),
        Event::Rc(x) => preflags::pre_rc(p, x, mines, &mut *shown, &mut *bits, &mut *work),
        Event::Rr(x) => buttons::play_rr(p, x, mines, &mut *shown, &mut *bits, &mut *work),
        Event::Mc(_) => buttons::middled(p, true),
        Event::Mr(_) => buttons::middled(p, false),
        Event::Cc(x) => preflags::moves_back(Motion::BothPress, p, x),
        Event::Pf(x) => preflags::pre_flag(p, x, mines, &mut *shown, &mut *bits, &mut *work),
        Event::Mv(_) | Event::Unknown { .. } => mouse::answered(p),
    }
}
