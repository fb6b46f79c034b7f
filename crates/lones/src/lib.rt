// The numbers without a 0 neighbour, lone numbers for short: one cell, a chord's cells, and those not open of a row and of the whole board.
// The contracts cite rules/specs/Board.antt and Judging.antt; specs/Counts.antt has what the counts ensure.
#![tactic(auto)]

ghost use Rattle.std.specs.Prelude.{◌≡◌, ◌&&◌, ◌*◌, ◌<◌, ◌≤◌, length};
ghost use Rattle.rules.specs.Cells.{cell_list};
ghost use Rattle.rules.specs.Words.{bit};
ghost use Rattle.rules.specs.Grid.{cell_of};
ghost use Rattle.rules.specs.Board.{face_at, lone_at};
ghost use Rattle.rules.specs.Judging.{not_open_at};
ghost use Rattle.cells.specs.Ground.{Mined, Below};
ghost use Rattle.cells.specs.Stack.{stacked};
ghost use Rattle.lones.specs.Counts.{Lone, LoneRow};

use rules::Cells;

// A number has no 0 neighbour; that the cell is one is known. Small enough for the compiler to take it into the loop over a row of events.
pub fn lone_number(mines: &[i8], rows: usize, columns: usize, row: usize, column: usize) -> bool
    requires mined { Mined mines.now rows columns }
    requires row_lt_rows { (row < rows) × (column < columns) }
    requires fact { (face_at mines.now (cell_of columns row column) ≡ 0 → ⊥) × (face_at mines.now (cell_of columns row column) ≡ 15 → ⊥) }
    ensures { result ≡ lone_at mines.now rows columns (cell_of columns row column) }
{
    let beside = cells::zero_beside(mines, rows, columns, row, column);
    !beside
}

// A number without a 0 neighbour, by its row and column.
fn lone_at(mines: &[i8], rows: usize, columns: usize, row: usize, column: usize) -> bool
    requires mined { Mined mines.now rows columns }
    requires row_lt_rows { (row < rows) × (column < columns) }
    ensures { result ≡ lone_at mines.now rows columns (cell_of columns row column) }
{
    let v = cells::face_at(mines, row * columns + column);
    if v == 0 {
        return false;
    }
    if v == 15 {
        return false;
    }
    lone_number(mines, rows, columns, row, column)
}

// A number without a 0 neighbour.
pub fn cell_is_bbbv(mines: &[i8], rows: usize, columns: usize, cell: usize) -> bool
    requires mined { Mined mines.now rows columns }
    requires cell_bound { cell < rows * columns }
    ensures { result ≡ lone_at mines.now rows columns cell }
{
    lone_at(mines, rows, columns, cell / columns, cell % columns)
}

// The numbers without a 0 neighbour among a chord's cells.
pub fn lone_cells(mines: &[i8], rows: usize, columns: usize, cells: Cells) -> usize
    requires mined { Mined mines.now rows columns }
    requires below { Below (rows * columns) (cell_list cells) }
    ensures { Lone mines.now rows columns (stacked (cell_list cells)) result }
{
    let mut sum = 0;
    let given = cells.as_slice();
    for cell in given {
        let q = usize::from(*cell);
        let lone = cell_is_bbbv(mines, rows, columns, q);
        sum += usize::from(lone);
    }
    sum
}

// The cell does not show 0 to 8; where nothing is shown, nothing is open.
pub fn not_open(shown: &[u8], cell: usize) -> bool
    ensures { result ≡ not_open_at shown.now cell }
{
    shown.len() <= cell || 8 < shown[cell]
}

// A number without a 0 neighbour that is not open.
fn lone_left(
    mines: &[i8],
    shown: &[u8],
    rows: usize,
    columns: usize,
    row: usize,
    column: usize,
) -> bool
    requires mined { Mined mines.now rows columns }
    requires row_lt_rows { (row < rows) × (column < columns) }
    ensures { result ≡ (not_open_at shown.now (cell_of columns row column) && lone_at mines.now rows columns (cell_of columns row column)) }
{
    not_open(shown, row * columns + column) && lone_at(mines, rows, columns, row, column)
}

// The numbers of a row without a 0 neighbour, those not open.
fn lone_row(mines: &[i8], shown: &[u8], rows: usize, columns: usize, row: usize) -> usize
    requires mined { Mined mines.now rows columns }
    requires row_lt_rows { row < rows }
    ensures { LoneRow mines.now rows columns (not_open_at shown.now) (row * columns) columns result }
{
    let mut sum = 0;
    for column in 0..columns {
        let lone = lone_left(mines, shown, rows, columns, row, column);
        sum += usize::from(lone);
    }
    sum
}

// The numbers of the board without a 0 neighbour, those not open.
pub fn lone_board(mines: &[i8], shown: &[u8], rows: usize, columns: usize) -> usize
    requires { Mined mines.now rows columns }
    ensures { LoneRow mines.now rows columns (not_open_at shown.now) 0 (rows * columns) result }
{
    let mut sum = 0;
    for row in 0..rows {
        sum += lone_row(mines, shown, rows, columns, row);
    }
    sum
}
