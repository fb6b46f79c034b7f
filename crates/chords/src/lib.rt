// The chord without the counts of the hand.
// The contracts cite rules' Clicks.
#![tactic(auto)]

ghost use Rattle.std.specs.Prelude.{◌≡◌, List, [], ◌∷◌, ◌++◌, ℕ, ◌+◌, ◌*◌, ◌/◌, ◌<◌, ◌≤◌, length, take};
ghost use Rattle.rules.specs.Cells.{cell_list};
ghost use Rattle.rules.specs.Grid.{cell_of};
ghost use Rattle.rules.specs.Clicks.{chord_is_useful, closed_around, chord_counts, perform_chord};
ghost use Rattle.cells.specs.Ground.{Sized, Below};
ghost use Rattle.cells.specs.Stack.{stacked};
ghost use Rattle.cells.specs.Promises.{LaidAt, PassRoomAt, Acts};
ghost use Rattle.clicks.specs.Parts.{Adds};
ghost use Rattle.chords.specs.Collected.{Collected};

use rules::{Cells, Played, Position};

// A shown 8 is never chorded; needed: flags around equal the number, and a neighbour shows 10.
pub fn useful_at(shown: &[u8], rows: usize, columns: usize, row: usize, column: usize) -> bool
    requires sized { Sized rows columns }
    requires row_lt_rows { (row < rows) × (column < columns) }
    requires shown_len { length shown.now ≡ rows * columns }
    ensures { result ≡ chord_is_useful rows columns shown.now (cell_of columns row column) }
{
    let v = shown[row * columns + column];
    if 8 <= v {
        return false;
    }
    let seen = cells::shown_around(shown, rows, columns, row, column);
    if seen.flags != v {
        return false;
    }
    0 < seen.closed
}

// The same, from a cell's number.
fn chord_is_useful(shown: &[u8], rows: usize, columns: usize, cell: usize) -> bool
    requires sized { Sized rows columns }
    requires shown_len { length shown.now ≡ rows * columns }
    requires cell_bound { cell < rows * columns }
    ensures { result ≡ chord_is_useful rows columns shown.now cell }
{
    useful_at(shown, rows, columns, cell / columns, cell % columns)
}

// The closed neighbours of a cell, in row order.
fn closed_around(shown: &[u8], rows: usize, columns: usize, cell: usize) -> Cells
    requires sized { Sized rows columns }
    requires cell_bound { cell < rows * columns }
    ensures { Collected (closed_around rows columns shown.now cell) 8 (cell_list result) }
{
    let row = cell / columns;
    let column = cell % columns;
    let mut found = Cells::new();
    for k in 0..8 {
        let q = cells::neighbour_at(rows, columns, row, column, k);
        if opening::closed(shown, q) {
            found.push(q as u16);
        }
    }
    found
}

// Chorded numbers without a 0 neighbour add to solved_chord, then each opening newly judged.
fn chord_counts(p: Position, mines: &[i8], shown: &[u8], work: &mut [u16], cells: Cells) -> Position
    requires laid_at { LaidAt mines.now p shown.now work.old }
    requires below { Below (p.settings.rows * p.settings.columns) (cell_list cells) }
    requires solved_chord_bound { p.secrets.solved_chord ≤ 1000000 }
    ensures { Adds (chord_counts mines.now (stacked (cell_list cells))) p shown.now work.old result work.new }
{
    let rows = usize::from(p.settings.rows);
    let columns = usize::from(p.settings.columns);
    let lone = lones::lone_cells(mines, rows, columns, cells);
    let judged = judging::op_num_around_cell(mines, shown, work, rows, columns, cells);
    let n = p.secrets.solved_chord + lone as u32 + judged as u32;
    p.with_solved_chord(n)
}

// CHORD, but for double and dce: a mine: Loss, 4; else 3; a chord that cannot run answers 0.
pub fn perform_chord(
    p: Position,
    mines: &[i8],
    shown: &mut [u8],
    work: &mut [u16],
    cell: usize,
) -> Played
    requires laid_at { LaidAt mines.now p shown.old work.old }
    requires cell_bound { cell < p.settings.rows * p.settings.columns }
    requires pass_room_at { PassRoomAt p shown.old }
    ensures { Acts (perform_chord mines.now cell) p shown.old work.old result shown.new work.new }
{
    let rows = usize::from(p.settings.rows);
    let columns = usize::from(p.settings.columns);
    if !chord_is_useful(shown, rows, columns, cell) {
        return Played {
            answer: 0,
            position: p,
        };
    }
    let cells = closed_around(shown, rows, columns, cell);
    let q = chord_counts(p, mines, shown, work, cells);
    clicks::open_cells(q, mines, shown, work, cells, 3)
}
