// What a plain event whose pointer is good is refused with, 31 to 33.
// Nothing here writes. The contracts cite rules' Step and Refusals.
#![tactic(auto)]

ghost use Rattle.std.specs.Prelude.{◌≡◌, true, false, not, ◌||◌, List, ℕ, eqb, leb, ltb};
ghost use Rattle.rules.specs.Words.{unless};
ghost use Rattle.rules.specs.States.{mouse_number};
ghost use Rattle.rules.specs.Refusals.{found_number};
ghost use Rattle.rules.specs.Clicks.{desk};
ghost use Rattle.rules.specs.Mouse.{both_down};
ghost use Rattle.rules.specs.Step.{errs_playing, errs_pre_flaging, is_unknown, bad_pre_flag, event_refusal};

use rules::{Event, GameState, MouseState, Position, Refusal};

#[tactic(auto, unfolding(rules::specs::Step::errs_playing))]
fn errs_playing(m: MouseState, e: Event) -> bool
    ensures { result ≡ errs_playing (mouse_number m) e }
{
    match e {
        Event::Cc(_) => mouse::both_down(m),
        Event::Pf(_) | Event::Unknown { .. } => true,
        _ => false,
    }
}

#[tactic(auto, unfolding(rules::specs::Mouse::both_down))]
fn right_is_down(m: MouseState) -> bool
    ensures { result ≡ (eqb (mouse_number m) 1 || (eqb (mouse_number m) 2 || both_down (mouse_number m))) }
{
    matches!(
        m,
        MouseState::UpDown
            | MouseState::UpDownNotFlag
            | MouseState::Chording
            | MouseState::ChordingNotFlag
    )
}

#[tactic(auto, unfolding(rules::specs::Step::errs_pre_flaging))]
fn errs_pre_flaging(m: MouseState, e: Event) -> bool
    ensures { result ≡ errs_pre_flaging (mouse_number m) e }
{
    match e {
        Event::Rc(_) => right_is_down(m),
        Event::Cc(_) => mouse::both_down(m),
        Event::Unknown { .. } => true,
        _ => false,
    }
}

fn is_unknown(e: Event) -> bool
    ensures { result ≡ is_unknown e }
{
    matches!(e, Event::Unknown { .. })
}

// pf off the board or on a cell not showing 10.
#[tactic(auto, unfolding(rules::specs::Step::bad_pre_flag))]
fn bad_pre_flag(p: Position, shown: &[u8], e: Event) -> bool
    ensures { (bits : List ℕ) → result ≡ bad_pre_flag (desk p shown.now bits) e }
{
    match e {
        Event::Pf(x) => mouse::seen_at(p, shown, x) != 10,
        _ => false,
    }
}

// 32 before 33.
fn first_of(bad: bool, errs: bool) -> Result<(), Refusal>
    ensures { found_number result ≡ unless 32 (not bad) (unless 33 (not errs) 0) }
{
    if bad {
        return Err(Refusal::PreFlag);
    }
    if errs {
        return Err(Refusal::Event);
    }
    Ok(())
}

// 32 in Ready or PreFlaging, then 33; neither in Win or Loss.
#[tactic(auto, unfolding(rules::specs::Step::event_refusal))]
pub fn event_refusal(p: Position, shown: &[u8], e: Event) -> Result<(), Refusal>
    ensures { (bits : List ℕ) → found_number result ≡ event_refusal p.game e (desk p shown.now bits) }
{
    match p.game {
        GameState::Ready => first_of(bad_pre_flag(p, shown, e), is_unknown(e)),
        GameState::PreFlaging => first_of(bad_pre_flag(p, shown, e), errs_pre_flaging(p.mouse, e)),
        GameState::Playing => first_of(false, errs_playing(p.mouse, e)),
        GameState::Win | GameState::Loss => Ok(()),
    }
}

// 31: 65,535 events were accepted.
pub fn is_full(p: Position) -> bool
    ensures { result ≡ leb 65535 p.events }
{
    65535 <= p.events
}

// 31, then 32 and 33; Ok for an event that is accepted.
pub fn refusal_of(p: Position, shown: &[u8], e: Event) -> Result<(), Refusal>
    ensures { (bits : List ℕ) → found_number result ≡ unless 31 (ltb p.events 65535) (event_refusal p.game e (desk p shown.now bits)) }
{
    if is_full(p) {
        return Err(Refusal::Full);
    }
    event_refusal(p, shown, e)
}
