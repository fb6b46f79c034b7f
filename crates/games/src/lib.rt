// An accepted book's game played and printed: the settings' line, a line for each event, and the end.
// The contracts cite rules/specs/Printout.antt; specs/Events.antt has what is said of the events.
#![tactic(auto)]

ghost use Rattle.std.specs.Prelude.{◌≡◌, ◌≤◌, length};
ghost use Rattle.rules.specs.Clicks.{desk};
ghost use Rattle.rules.specs.Book.{book_of};
ghost use Rattle.keep.specs.Kept.{LawfulAt};
ghost use Rattle.game.specs.Core.{Blank};
ghost use Rattle.printing.specs.Boards.{Fit};
ghost use Rattle.games.specs.Events.{EventsFit, EventsPrinted, GamePrinted};

use rules::{Book, Played, Position};

// Where the text has come to, what the last event answered, 0 where there is none, and the position that it left.
#[derive(Clone, Copy)]
pub struct Told {
    pub at: usize,
    pub answer: u16,
    pub position: Position,
}

// A row of whole events, a line for each, up to the first refused one's line.
pub fn play_events(
    p: Position,
    events: &[u8],
    mines: &[i8],
    shown: &mut [u8],
    bits: &mut [u8],
    work: &mut [u16],
    out: &mut [u8],
    at: usize,
) -> Told
    requires lawful_at { LawfulAt mines.now (desk p shown.old bits.old) }
    requires blank { Blank p.settings work.old }
    requires events_fit { EventsFit events.now at out.old }
    ensures { EventsPrinted mines.now events.now p shown.old bits.old work.old at out.old result shown.new bits.new work.new out.new }
{
    let mut number = 1u16;
    let mut place = at;
    let mut o = Played {
        answer: 0,
        position: p,
    };
    for event in events.chunks_exact(3) {
        let q = o.position;
        o = flows::next_event(q, event, 0, mines, &mut *shown, &mut *bits, &mut *work);
        place = printing::put_play(&mut *out, place, number, o);
        if 20 <= o.answer {
            return Told {
                at: place,
                answer: o.answer,
                position: o.position,
            };
        }
        number += 1;
    }
    Told {
        at: place,
        answer: o.answer,
        position: o.position,
    }
}

// An accepted book, on boards of its size.
pub fn print_game(
    s: &[u8],
    b: Book,
    mines: &mut [i8],
    shown: &mut [u8],
    bits: &mut [u8],
    work: &mut [u16],
    out: &mut [u8],
) -> usize
    requires b_value { (b ≡ book_of s.now) × (b.number ≡ 0) }
    requires fit { Fit b.settings mines.old shown.old bits.old work.old }
    requires in_bounds { 172184 ≤ length out.old }
    ensures { GamePrinted s.now b work.old out.old result mines.new shown.new bits.new work.new out.new }
{
    let settings = b.settings;
    let p = printing::begin(s, b, &mut *mines, &mut *shown, &mut *bits, &mut *work);
    let first = text::put_game_line(&mut *out, 0, settings);
    let events = book::events(s, b);
    let t = play_events(
        p,
        events,
        &*mines,
        &mut *shown,
        &mut *bits,
        &mut *work,
        &mut *out,
        first,
    );
    let q = t.position;
    printing::finish(q, &*mines, &*shown, &mut *work, &mut *out, t.at)
}
