// The board check, refusals 20 to 24, with the cell that is wrong; how many cells are safe; and the fresh desk.
// The contracts cite Board and Calls of rules; specs/ has what the search for that cell requires.
#![tactic(auto)]

ghost use Rattle.std.specs.Prelude.{◌≡◌, true, ◌*◌, ◌<◌, ◌≤◌, length};
ghost use Rattle.rules.specs.Words.{first_not};
ghost use Rattle.rules.specs.Grid.{cell_of};
ghost use Rattle.rules.specs.Board.{value_ok, value_ok_at, values_ok, number_ok, numbers_ok, some_safe, safe_in, board_refusal, board_check, place_of, fault_of};
ghost use Rattle.rules.specs.Lent.{bit_bytes};
ghost use Rattle.rules.specs.Refusals.{found_number};
ghost use Rattle.rules.specs.Clicks.{desk};
ghost use Rattle.rules.specs.Calls.{cells_in, fresh_desk};
ghost use Rattle.cells.specs.Ground.{Valued, Mined};
ghost use Rattle.boards.specs.Faults.{Placeable};

use rules::{Place, Position, Refusal, Settings};

// How many cells a board has.
pub fn cell_count(rows: u8, columns: u8) -> usize
    ensures { (result ≡ rows * columns) × (result ≤ 65025) }
{
    usize::from(rows) * usize::from(columns)
}

fn value_ok(v: i8) -> bool
    ensures { result ≡ value_ok v }
{
    (-1..=8).contains(&v)
}

// The first cell whose value is not -1 to 8, or the board's length.
fn value_fault(mines: &[i8]) -> usize
    ensures { result ≡ first_not (value_ok_at mines.now) (length mines.now) }
{
    for cell in 0..mines.len() {
        if !value_ok(mines[cell]) {
            return cell;
        }
    }
    mines.len()
}

// 22: every value is -1 to 8.
fn values_ok(mines: &[i8]) -> bool
    ensures { result ≡ values_ok mines.now }
{
    value_fault(mines) == mines.len()
}

// A mine, or a number that is its count of mine neighbours.
fn number_ok(mines: &[i8], rows: usize, columns: usize, row: usize, column: usize) -> bool
    requires mined { Mined mines.now rows columns }
    requires row_lt_rows { (row < rows) × (column < columns) }
    ensures { result ≡ number_ok mines.now rows columns (cell_of columns row column) }
{
    let f = cells::face_at(mines, row * columns + column);
    if f == 15 {
        return true;
    }
    let n = cells::faces_around(mines, rows, columns, row, column, 15);
    f == n
}

// The first column of a row whose number is wrong, or the number of columns.
fn row_fault(mines: &[i8], rows: usize, columns: usize, row: usize) -> usize
    requires mined { Mined mines.now rows columns }
    requires row_lt_rows { row < rows }
    ensures { result ≡ first_not (λ column. number_ok mines.now rows columns (cell_of columns row column)) columns }
{
    for column in 0..columns {
        if !number_ok(mines, rows, columns, row, column) {
            return column;
        }
    }
    columns
}

// The first safe cell whose number is not its count of mine neighbours, or the board's length.
fn number_fault(mines: &[i8], rows: usize, columns: usize) -> usize
    requires { Mined mines.now rows columns }
    ensures { result ≡ first_not (number_ok mines.now rows columns) (length mines.now) }
{
    for row in 0..rows {
        let column = row_fault(mines, rows, columns, row);
        if column < columns {
            return row * columns + column;
        }
    }
    mines.len()
}

// 23: every safe cell's number is its count of mine neighbours.
fn numbers_ok(mines: &[i8], rows: usize, columns: usize) -> bool
    requires { Mined mines.now rows columns }
    ensures { result ≡ numbers_ok mines.now rows columns }
{
    number_fault(mines, rows, columns) == mines.len()
}

// 24: some cell is safe.
fn some_safe(mines: &[i8]) -> bool
    requires { Valued mines.now }
    ensures { result ≡ some_safe mines.now }
{
    for i in 0..mines.len() {
        if cells::face_at(mines, i) != 15 {
            return true;
        }
    }
    false
}

// The first refusal of 20 to 24, where `fit` says that every buffer of the call has its length.
pub fn board_refusal(rows: u8, columns: u8, fit: bool, mines: &[i8]) -> Result<(), Refusal>
    requires { fit ≡ true → length mines.now ≡ rows * columns }
    ensures { found_number result ≡ board_refusal rows columns fit mines.now }
{
    if !cells::size_ok(rows, columns) {
        return Err(Refusal::Size);
    }
    if !fit {
        return Err(Refusal::Length);
    }
    if !values_ok(mines) {
        return Err(Refusal::Value);
    }
    if !numbers_ok(mines, usize::from(rows), usize::from(columns)) {
        return Err(Refusal::Number);
    }
    if !some_safe(mines) {
        return Err(Refusal::AllMines);
    }
    Ok(())
}

// The board check: 20 to 24, without shown board or bits.
pub fn board_check(rows: u8, columns: u8, mines: &[i8]) -> Result<(), Refusal>
    ensures { found_number result ≡ board_check rows columns mines.now }
{
    let fit = mines.len() == cell_count(rows, columns);
    board_refusal(rows, columns, fit, mines)
}

// The row and the column of a cell.
fn place_of(columns: u8, cell: usize) -> Place
    requires { (1 ≤ columns) × (cell ≤ 64 * columns) }
    ensures { result ≡ place_of columns cell }
{
    let c = usize::from(columns);
    let row = (cell / c) as u8;
    let column = (cell % c) as u8;
    Place::At { row, column }
}

// The faulty cell beside 22 and 23, by the number, as the definition has it. It is searched for again: a board that is accepted pays nothing.
pub fn fault_of(rows: u8, columns: u8, mines: &[i8], n: u16) -> Place
    requires { Placeable rows columns mines.now n }
    ensures { result ≡ fault_of rows columns mines.now n }
{
    if n == 22 {
        let cell = value_fault(mines);
        return place_of(columns, cell);
    }
    if n == 23 {
        let cell = number_fault(mines, usize::from(rows), usize::from(columns));
        return place_of(columns, cell);
    }
    Place::Nowhere
}

// How many cells are safe.
pub fn safe_cells(mines: &[i8]) -> u32
    requires valued { Valued mines.now }
    requires mines_len_bound { length mines.now ≤ 2048 }
    ensures { result ≡ safe_in mines.now }
{
    let mut n = 0;
    for i in 0..mines.len() {
        let f = cells::face_at(mines, i);
        let one = u32::from(f != 15);
        n += one;
    }
    n
}

// The fresh desk: every cell closed, every bit 0, and the position of a game that nobody has touched.
pub fn fresh_desk(s: Settings, mines: &[i8], shown: &mut [u8], bits: &mut [u8]) -> Position
    requires mined { Mined mines.now s.rows s.columns }
    requires shown_len { length shown.old ≡ cells_in s }
    requires bits_len { length bits.old ≡ bit_bytes (cells_in s) }
    ensures { desk result shown.new bits.new ≡ fresh_desk s mines.now }
{
    cells::fill(&mut *shown, 10);
    cells::fill(&mut *bits, 0);
    let safe = safe_cells(mines);
    rules::fresh(s, safe)
}
