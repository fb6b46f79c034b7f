// What stands around the events of a printed game: the boards that a book begins with, the line of a play, and the end.
// The contracts cite rules/specs/Printout.antt; specs/Boards.antt has what is said of the boards.
#![tactic(auto)]

ghost use Rattle.std.specs.Prelude.{◌≡◌, ◌∷◌, [], ◌+◌, ◌*◌, ◌≤◌, length};
ghost use Rattle.rules.specs.States.{game_number, mouse_number};
ghost use Rattle.rules.specs.Clicks.{desk};
ghost use Rattle.rules.specs.Book.{book_of};
ghost use Rattle.rules.specs.Printout.{line_of, end_lines};
ghost use Rattle.cells.specs.Ground.{Mined};
ghost use Rattle.game.specs.Core.{Blank};
ghost use Rattle.writing.specs.Put.{PutWithin};
ghost use Rattle.text.specs.Rows.{RowsFit};
ghost use Rattle.printing.specs.Boards.{Fit, Begun, Ended};

use rules::{Book, Played, Position};

// The board of a book is numbered, its desk is fresh, and the work 0.
pub fn begin(
    s: &[u8],
    b: Book,
    mines: &mut [i8],
    shown: &mut [u8],
    bits: &mut [u8],
    work: &mut [u16],
) -> Position
    requires b_value { (b ≡ book_of s.now) × (b.number ≡ 0) }
    requires fit { Fit b.settings mines.old shown.old bits.old work.old }
    ensures { Begun s.now b work.old result mines.new shown.new bits.new work.new }
{
    let settings = b.settings;
    let list = book::mines(s, b);
    // the mines of an accepted book are not refused
    let _ = numbering::number_mines(settings.rows, settings.columns, list, &mut *mines);
    let cells = boards::cell_count(settings.rows, settings.columns);
    cells::clear(&mut *work, 8 * cells + 8);
    boards::fresh_desk(settings, &*mines, &mut *shown, &mut *bits)
}

// The line of a play, accepted or refused.
pub fn put_play(out: &mut [u8], at: usize, number: u16, o: Played) -> usize
    requires { at + 20 ≤ length out.old }
    ensures { PutWithin 20 (line_of (number ∷ o.answer ∷ game_number o.position.game ∷ mouse_number o.position.mouse ∷ [])) at out.old out.new result }
{
    let p = o.position;
    let game = u8::from(p.game);
    let mouse = u8::from(p.mouse);
    text::put_event_line(out, at, number, o.answer, game, mouse)
}

// The counts, the 3BV and the shown rows.
pub fn finish(
    p: Position,
    mines: &[i8],
    shown: &[u8],
    work: &mut [u16],
    out: &mut [u8],
    at: usize,
) -> usize
    requires mined { Mined mines.now p.settings.rows p.settings.columns }
    requires blank { Blank p.settings work.old }
    requires rows_fit { RowsFit p.settings.rows p.settings.columns shown.now (at + 131) out.old }
    ensures { Ended (131 + 4 * (p.settings.rows * p.settings.columns)) (end_lines mines.now (desk p shown.now [])) at out.old out.new result work.old work.new }
{
    let rows = usize::from(p.settings.rows);
    let columns = usize::from(p.settings.columns);
    let total = judging::total_3bv(mines, &mut *work, rows, columns);
    let left = judging::left_to_solve(mines, shown, &mut *work, rows, columns);
    text::put_end(&mut *out, at, p, total as u32, left as u32, shown)
}
