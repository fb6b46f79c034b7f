// One plain event while Playing.
// Each function meets the definition of its name in rules' Step.
#![tactic(auto)]

ghost use Rattle.std.specs.Prelude.{◌≡◌, ◌≤◌};
ghost use Rattle.rules.specs.States.{mouse_number};
ghost use Rattle.rules.specs.Step.{playing as playingOf, play_rc};
ghost use Rattle.keep.specs.Kept.{Inside, InsideOf};
ghost use Rattle.cells.specs.Promises.{AbleAt, Plays};

use mouse::Motion;
use rules::{Event, MouseState, Played, Pointer, Position};

// From UpUp a right click; with nothing to flag to UpDownNotFlag.
#[tactic(auto, unfolding(rules::specs::Step::play_rc, rules::specs::Mouse::moved))]
fn play_rc(
    p: Position,
    x: Pointer,
    mines: &[i8],
    shown: &mut [u8],
    bits: &mut [u8],
    work: &mut [u16],
) -> Played
    requires able_at { AbleAt mines.now p shown.old bits.old work.old }
    requires inside { Inside p.settings x }
    ensures { Plays (play_rc mines.now x) p shown.old bits.old work.old result shown.new bits.new work.new }
{
    if p.mouse != MouseState::UpUp {
        return mouse::moves(Motion::RightPress, p);
    }
    let v = mouse::seen_at(p, &*shown, x);
    if 10 <= v {
        let q = mouse::moved(Motion::RightPress, p);
        return buttons::right_at(q, x, mines, &mut *shown, &mut *bits, &mut *work);
    }
    let q = p.with_mouse(MouseState::UpDownNotFlag);
    buttons::right_at(q, x, mines, &mut *shown, &mut *bits, &mut *work)
}

#[tactic(auto, unfolding(rules::specs::Step::playing))]
fn play_mr(
    p: Position,
    x: Pointer,
    mines: &[i8],
    shown: &mut [u8],
    bits: &mut [u8],
    work: &mut [u16],
) -> Played
    requires able_at { AbleAt mines.now p shown.old bits.old work.old }
    requires inside { Inside p.settings x }
    ensures { Plays (playingOf mines.now (Event.Mr x)) p shown.old bits.old work.old result shown.new bits.new work.new }
{
    let q = p.with_middle(false);
    buttons::chord_at(q, x, mines, &mut *shown, &mut *bits, &mut *work)
}

#[tactic(auto, unfolding(rules::specs::Step::playing))]
pub fn playing(
    p: Position,
    e: Event,
    mines: &[i8],
    shown: &mut [u8],
    bits: &mut [u8],
    work: &mut [u16],
) -> Played
    requires able_at { AbleAt mines.now p shown.old bits.old work.old }
    requires inside_of { InsideOf p.settings e }
    requires le_right { mouse_number p.mouse ≡ 5 → 1 ≤ p.counts.right }
    ensures { Plays (playingOf mines.now e) p shown.old bits.old work.old result shown.new bits.new work.new }
{
    match e {
        Event::Lc(x) => buttons::play_lc(p, x),
        Event::Lr(x) => buttons::play_lr(p, x, mines, &mut *shown, &mut *bits, &mut *work),
        Event::Rc(x) => play_rc(p, x, mines, &mut *shown, &mut *bits, &mut *work),
        Event::Rr(x) => buttons::play_rr(p, x, mines, &mut *shown, &mut *bits, &mut *work),
        Event::Mc(_) => buttons::middled(p, true),
        Event::Mr(x) => play_mr(p, x, mines, &mut *shown, &mut *bits, &mut *work),
        Event::Cc(_) => mouse::moves(Motion::BothPress, p),
        Event::Mv(_) | Event::Pf(_) | Event::Unknown { .. } => mouse::answered(p),
    }
}
