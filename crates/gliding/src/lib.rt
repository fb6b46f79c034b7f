// The slider's way from one event to another, on a lawful desk: row by row, and a desk is kept where a row ends.
// The contracts cite specs/Glides.antt over the chapter Slides.
#![tactic(auto)]

ghost use Rattle.std.specs.Prelude.{◌≡◌, ◌≤◌, ◌<◌};
ghost use Rattle.rules.specs.Clicks.{desk};
ghost use Rattle.cells.specs.Promises.{Leaves};
ghost use Rattle.keep.specs.Kept.{LawfulAt};
ghost use Rattle.game.specs.Core.{Blank};
ghost use Rattle.records.specs.Entries.{records_in};
ghost use Rattle.keeping.specs.Keeps.{kept_of};
ghost use Rattle.gliding.specs.Glides.{gliding, glide_of, Stops, Rows};

use rules::Position;

// Where a drag stands: at which event, the last answer, the position, and how many desks are kept.
#[derive(Clone, Copy)]
pub struct Glided {
    pub at: usize,
    pub answer: u16,
    pub position: Position,
    pub kept: usize,
}

// Where the row from an event on stops: at the next event to keep, or at the last.
fn stop_after(e: usize, to: usize, k: usize) -> usize
    requires { (1 ≤ k) × (e < to) }
    ensures { Stops e to k result }
{
    let rest = k - e % k;
    e + rest.min(to - e)
}

// One row of a drag, and what is kept of it.
fn glide_row(
    p: Position,
    e: usize,
    to: usize,
    k: usize,
    kept: usize,
    section: &[u8],
    mines: &[i8],
    shown: &mut [u8],
    bits: &mut [u8],
    work: &mut [u16],
    room: &mut [u8],
) -> Glided
    requires lawful_at { LawfulAt mines.now (desk p shown.old bits.old) }
    requires blank { Blank p.settings work.old }
    requires le_k { (1 ≤ k) × ((e < to) × (to ≤ records_in section.now)) }
    ensures { Rows mines.now section.now k e to (desk p shown.old bits.old) (kept_of kept room.old) work.old result shown.new bits.new work.new room.new }
{
    let at = stop_after(e, to, k);
    let o = rows::play_row(
        p,
        section,
        e,
        at,
        mines,
        &mut *shown,
        &mut *bits,
        &mut *work,
    );
    let q = o.position;
    let row = Glided {
        at,
        answer: o.answer,
        position: q,
        kept,
    };
    if 20 <= o.answer {
        return row;
    }
    let n = keeping::keep_desk(q, at, k, kept, &*shown, &*bits, &mut *room);
    Glided { kept: n, ..row }
}

// The way from one event to another, or to the first refused one.
pub fn glide(
    p: Position,
    from: usize,
    to: usize,
    k: usize,
    kept: usize,
    section: &[u8],
    mines: &[i8],
    shown: &mut [u8],
    bits: &mut [u8],
    work: &mut [u16],
    room: &mut [u8],
) -> Glided
    requires lawful_at { LawfulAt mines.now (desk p shown.old bits.old) }
    requires blank { Blank p.settings work.old }
    requires le_k { (1 ≤ k) × ((from ≤ to) × (to ≤ records_in section.now)) }
    ensures { Leaves (gliding result.answer result.position shown.new bits.new result.kept room.new) (glide_of mines.now section.now k from to p.settings (desk p shown.old bits.old) (kept_of kept room.old)) work.old work.new }
{
    let mut g = Glided {
        at: from,
        answer: 0,
        position: p,
        kept,
    };
    // No `for`: a row is as long as the next event to keep, or the last, lets it be.
    while g.at < to {
        g = glide_row(
            g.position,
            g.at,
            to,
            k,
            g.kept,
            section,
            mines,
            &mut *shown,
            &mut *bits,
            &mut *work,
            &mut *room,
        );
        if 20 <= g.answer {
            return g;
        }
    }
    g
}
