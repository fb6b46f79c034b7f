// The chord pass over lent slices: scans that chord each useful cell, until one opens nothing or the game is over.
// The contracts cite rules' Passes; specs/ has what the parts require and ensure.
#![tactic(auto)]

ghost use Rattle.std.specs.Prelude.{◌≡◌, not, ◌&&◌, List, ℕ, ◌+◌, ◌-◌, ◌*◌, ◌<◌, ◌≤◌, length};
ghost use Rattle.rules.specs.Words.{every};
ghost use Rattle.rules.specs.States.{is_playing};
ghost use Rattle.rules.specs.Grid.{cell_of};
ghost use Rattle.rules.specs.Clicks.{desk, chord_is_useful};
ghost use Rattle.rules.specs.Passes.{chord_one, chord_round, chord_pass};
ghost use Rattle.cells.specs.Ground.{Sized};
ghost use Rattle.cells.specs.Promises.{LaidAt, PassRoomAt};
ghost use Rattle.chording.specs.Seeking.{First, useful_inside, OnlyEnds};
ghost use Rattle.chording.specs.Scanning.{yes, scan, Scans};

use rules::{GameState, Position};

// A position, whether this scan opened something, and whether this pass did: the parts of the definition `Scan`.
#[derive(Clone, Copy)]
pub struct Scanned {
    pub position: Position,
    pub any: bool,
    pub ever: bool,
}

// A chord opened something: yes for the scan and for the pass, and no count of the hand.
fn opened(position: Position) -> Scanned
    ensures { result ≡ yes position }
{
    Scanned {
        position,
        any: true,
        ever: true,
    }
}

// A cell with all its neighbours is useful, told from the first of the nine cells. Every test is made: there is no branch.
fn useful_inside(shown: &[u8], columns: usize, first: usize) -> bool
    requires columns_bound { columns ≤ 64 }
    requires columns_in_bounds { first + 2 * columns + 2 < length shown.now }
    requires shown_len_bound { length shown.now ≤ 2048 }
    ensures { result ≡ useful_inside columns shown.now first }
{
    let v = shown[first + columns + 1];
    let flags = cells::ring_shows(shown, columns, first, 11);
    let closed = cells::ring_shows(shown, columns, first, 10);
    (v < 8) & ((flags == v) & (0 < closed))
}

// No cell of a row but its two ends is useful; `above` is where the row above begins.
// The loop has no branch, so that the compiler lets it take many cells at once.
fn none_inside(shown: &[u8], columns: usize, above: usize) -> bool
    requires le_columns { (2 ≤ columns) × (columns ≤ 64) }
    requires columns_in_bounds { above + 3 * columns ≤ length shown.now }
    requires shown_len_bound { length shown.now ≤ 2048 }
    ensures { result ≡ every (λ (k : ℕ). not (useful_inside columns shown.now (above + k))) (columns - 2) }
{
    let mut none = true;
    for k in 0..columns - 2 {
        let useful = useful_inside(shown, columns, above + k);
        none = none & !useful;
    }
    none
}

// Yes only where no cell of a row but its two ends is useful; a row at the border of the board gets no.
fn only_ends(shown: &[u8], rows: usize, columns: usize, row: usize) -> bool
    requires sized { Sized rows columns }
    requires row_lt_rows { row < rows }
    requires shown_len { length shown.now ≡ rows * columns }
    ensures { OnlyEnds rows columns shown.now row result }
{
    if row < 1 {
        return false;
    }
    if rows <= row + 1 {
        return false;
    }
    if columns < 2 {
        return false;
    }
    none_inside(shown, columns, (row - 1) * columns)
}

// The first useful cell of a row from a column on: its column, or `columns`.
fn useful_from(shown: &[u8], rows: usize, columns: usize, row: usize, from: usize) -> usize
    requires sized { Sized rows columns }
    requires row_lt_rows { (row < rows) × (from ≤ columns) }
    requires shown_len { length shown.now ≡ rows * columns }
    ensures { First (λ (c : ℕ). chord_is_useful rows columns shown.now (cell_of columns row c)) from columns result }
{
    for column in from..columns {
        if chords::useful_at(shown, rows, columns, row, column) {
            return column;
        }
    }
    columns
}

// The first useful cell of a row: its column, or `columns`.
fn useful_of(shown: &[u8], rows: usize, columns: usize, row: usize) -> usize
    requires sized { Sized rows columns }
    requires row_lt_rows { row < rows }
    requires shown_len { length shown.now ≡ rows * columns }
    ensures { First (λ (c : ℕ). chord_is_useful rows columns shown.now (cell_of columns row c)) 0 columns result }
{
    if !only_ends(shown, rows, columns, row) {
        return useful_from(shown, rows, columns, row, 0);
    }
    if chords::useful_at(shown, rows, columns, row, 0) {
        return 0;
    }
    useful_from(shown, rows, columns, row, columns - 1)
}

// The first useful cell from the start of a row on; rows * columns where there is none.
fn useful_below(shown: &[u8], rows: usize, columns: usize, from: usize) -> usize
    requires sized { Sized rows columns }
    requires from_le_rows { from ≤ rows }
    requires shown_len { length shown.now ≡ rows * columns }
    ensures { First (chord_is_useful rows columns shown.now) (from * columns) (rows * columns) result }
{
    for row in from..rows {
        let at = useful_of(shown, rows, columns, row);
        if at < columns {
            return row * columns + at;
        }
    }
    rows * columns
}

// The first useful cell after a cell; rows * columns where there is none.
fn next_useful(shown: &[u8], rows: usize, columns: usize, cell: usize) -> usize
    requires sized { Sized rows columns }
    requires cell_bound { cell < rows * columns }
    requires shown_len { length shown.now ≡ rows * columns }
    ensures { First (chord_is_useful rows columns shown.now) (cell + 1) (rows * columns) result }
{
    let row = cell / columns;
    let at = useful_from(shown, rows, columns, row, cell % columns + 1);
    if at < columns {
        return row * columns + at;
    }
    useful_below(shown, rows, columns, row + 1)
}

// A cell is chorded, while Playing; one where a chord cannot run is left alone.
fn chord_one(s: Scanned, mines: &[i8], shown: &mut [u8], work: &mut [u16], cell: usize) -> Scanned
    requires laid_at { LaidAt mines.now s.position shown.old work.old }
    requires cell_bound { cell < s.position.settings.rows * s.position.settings.columns }
    requires pass_room_at { PassRoomAt s.position shown.old }
    ensures { Scans (λ (b : List ℕ). chord_one mines.now cell (scan s shown.old b)) work.old result shown.new work.new }
{
    let p = s.position;
    if p.game != GameState::Playing {
        return s;
    }
    let o = chords::perform_chord(p, mines, shown, work, cell);
    if o.answer == 0 {
        return s;
    }
    opened(o.position)
}

// One scan: the cells in row order, each on what the ones before it left. A cell that is not useful is passed over: it changes nothing.
fn chord_round(s: Scanned, mines: &[i8], shown: &mut [u8], work: &mut [u16]) -> Scanned
    requires laid_at { LaidAt mines.now s.position shown.old work.old }
    requires pass_room_at { PassRoomAt s.position shown.old }
    ensures { Scans (λ (b : List ℕ). chord_round mines.now (scan s shown.old b)) work.old result shown.new work.new }
{
    let position = s.position;
    let rows = usize::from(position.settings.rows);
    let columns = usize::from(position.settings.columns);
    let cells = rows * columns;
    let mut t = Scanned {
        position,
        any: false,
        ever: s.ever,
    };
    // No `for`: the next cell is found on what the chord before it left.
    let mut i = useful_below(shown, rows, columns, 0);
    while i < cells {
        t = chord_one(t, mines, shown, work, i);
        i = next_useful(shown, rows, columns, i);
    }
    t
}

// There is more to do: something was opened, and the game goes on.
pub fn goes_on(opened: bool, p: Position) -> bool
    ensures { result ≡ (opened && is_playing p.game) }
{
    opened && p.game == GameState::Playing
}

// The chord pass: until a scan opens nothing, or the game is over.
pub fn chord_pass(p: Position, mines: &[i8], shown: &mut [u8], work: &mut [u16]) -> Scanned
    requires laid_at { LaidAt mines.now p shown.old work.old }
    requires pass_room_at { PassRoomAt p shown.old }
    ensures { Scans (λ (b : List ℕ). chord_pass mines.now (desk p shown.old b)) work.old result shown.new work.new }
{
    let mut s = Scanned {
        position: p,
        any: false,
        ever: false,
    };
    // A `loop` with a `break` would say the same in as many lines, and is no plainer.
    let mut go = true;
    while go {
        s = chord_round(s, mines, shown, work);
        go = goes_on(s.any, s.position);
    }
    s
}
