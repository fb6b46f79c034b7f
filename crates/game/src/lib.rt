// One event on a lawful position. Nothing is tested here that the lawful position gives.
// The contracts cite rules' Step, and specs/Core; `keep` gives that every step leaves what the next one asks.
#![tactic(auto)]

ghost use Rattle.std.specs.Prelude.{◌≡◌, ◌<◌};
ghost use Rattle.rules.specs.States.{with_events};
ghost use Rattle.rules.specs.Refusals.{refusal_number};
ghost use Rattle.rules.specs.Clicks.{desk};
ghost use Rattle.rules.specs.Step.{by_game, step_at};
ghost use Rattle.cells.specs.Promises.{Plays};
ghost use Rattle.keep.specs.Kept.{Inside, InsideOf, LawfulAt};
ghost use Rattle.game.specs.Core.{Blank, play_event};

use rules::{Event, GameState, Played, Pointer, Position, Refusal};

// A plain event in the game state of the position; Win and Loss answer 0 to all.
fn by_game(
    p: Position,
    e: Event,
    mines: &[i8],
    shown: &mut [u8],
    bits: &mut [u8],
    work: &mut [u16],
) -> Played
    requires lawful_at { LawfulAt mines.now (desk p shown.old bits.old) }
    requires blank { Blank p.settings work.old }
    requires inside_of { InsideOf p.settings e }
    ensures { Plays (by_game p.game mines.now e) p shown.old bits.old work.old result shown.new bits.new work.new }
{
    match p.game {
        GameState::Ready => ready::ready(p, e, mines, &mut *shown, &mut *bits, &mut *work),
        GameState::PreFlaging => preflaging::pre_flaging(
            p,
            e,
            mines,
            &mut *shown,
            &mut *bits,
            &mut *work,
        ),
        GameState::Playing => playing::playing(p, e, mines, &mut *shown, &mut *bits, &mut *work),
        GameState::Win | GameState::Loss => buttons::answered(p),
    }
}

// What was played is counted as the n-th event.
pub fn counted(o: Played, n: u32) -> Played
    ensures { result ≡ record { answer = o.answer; position = with_events o.position n } }
{
    let position = o.position.with_events(n);
    Played { position, ..o }
}

// Nothing is played, and why.
pub fn refused(refusal: Refusal, position: Position) -> Played
    ensures { result ≡ record { answer = refusal_number refusal; position = position } }
{
    Played {
        answer: u16::from(refusal),
        position,
    }
}

// A plain event that nothing refuses is played by the game state, and counted.
pub fn play_event(
    p: Position,
    e: Event,
    mines: &[i8],
    shown: &mut [u8],
    bits: &mut [u8],
    work: &mut [u16],
) -> Played
    requires lawful_at { LawfulAt mines.now (desk p shown.old bits.old) }
    requires blank { Blank p.settings work.old }
    requires inside_of { InsideOf p.settings e }
    ensures { Plays (play_event mines.now e) p shown.old bits.old work.old result shown.new bits.new work.new }
{
    let n = p.events + 1;
    let o = by_game(p, e, mines, &mut *shown, &mut *bits, &mut *work);
    counted(o, n)
}

// An event whose pointer is good and that there is room to count, with the work lent as zeros: 32, 33, or the event.
pub fn step_at(
    p: Position,
    code: u8,
    x: Pointer,
    mines: &[i8],
    shown: &mut [u8],
    bits: &mut [u8],
    work: &mut [u16],
) -> Played
    requires lawful_at { LawfulAt mines.now (desk p shown.old bits.old) }
    requires blank { Blank p.settings work.old }
    requires inside { Inside p.settings x }
    requires events_bound { p.events < 65535 }
    ensures { Plays (step_at mines.now code x) p shown.old bits.old work.old result shown.new bits.new work.new }
{
    let h = mouse::resolve_at(p, code, x);
    let e = h.event;
    if let Err(refusal) = faults::event_refusal(p, &*shown, e) {
        return refused(refusal, p);
    }
    let q = p.with_middle(h.middle);
    play_event(q, e, mines, &mut *shown, &mut *bits, &mut *work)
}
