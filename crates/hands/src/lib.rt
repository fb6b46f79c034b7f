// The right click and the chord by hand, which the passes follow.
// The contracts cite rules' Passes; specs/Hand has the count of a chord.
#![tactic(auto)]

ghost use Rattle.std.specs.Prelude.{◌≡◌, ◌*◌, ◌<◌, ◌≤◌};
ghost use Rattle.rules.specs.Passes.{right_click, chording_click};
ghost use Rattle.cells.specs.Promises.{AbleAt, Plays};
ghost use Rattle.hands.specs.Hand.{counted};

use rules::{Played, Position};

// RIGHT: right + 1; a closed cell is flagged, and the passes follow; a flag or a question mark is taken back.
pub fn right_click(
    p: Position,
    mines: &[i8],
    shown: &mut [u8],
    bits: &mut [u8],
    work: &mut [u16],
    cell: usize,
) -> Played
    requires able_at { AbleAt mines.now p shown.old bits.old work.old }
    requires cell_bound { cell < p.settings.rows * p.settings.columns }
    ensures { Plays (right_click mines.now cell) p shown.old bits.old work.old result shown.new bits.new work.new }
{
    if shown[cell] == 10 {
        let f = marking::flag(p, mines, shown, bits, cell);
        let position = passes::passes_after_flag(f, mines, shown, bits, work);
        return Played {
            answer: 1,
            position,
        };
    }
    marking::take_back(p, shown, cell)
}

// A chord by hand that opened adds to dce.
fn add_dce(o: Played) -> Played
    requires { o.position.counts.dce ≤ 70000 }
    ensures { result ≡ counted o }
{
    if o.answer == 0 {
        return o;
    }
    let n = o.position.counts.dce + 1;
    let position = o.position.with_dce(n);
    Played { position, ..o }
}

// CHORD by hand: double + 1, and the passes follow, even where the chord answers 0; its own answer stays.
pub fn chording_click(
    p: Position,
    mines: &[i8],
    shown: &mut [u8],
    bits: &mut [u8],
    work: &mut [u16],
    cell: usize,
) -> Played
    requires able_at { AbleAt mines.now p shown.old bits.old work.old }
    requires cell_bound { cell < p.settings.rows * p.settings.columns }
    ensures { Plays (chording_click mines.now cell) p shown.old bits.old work.old result shown.new bits.new work.new }
{
    let n = p.counts.double + 1;
    let q = p.with_double(n);
    let o = chords::perform_chord(q, mines, shown, work, cell);
    let c = add_dce(o);
    let position = passes::passes_after_chord(c.position, mines, shown, bits, work);
    Played { position, ..c }
}
