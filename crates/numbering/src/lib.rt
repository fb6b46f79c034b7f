// Numbering a board from a mine list: refusals 20, 21, 42 and 24, or the whole numbered board.
// The contracts cite Board and Calls of rules; specs/ has what the passes do to a board.
#![tactic(auto)]

ghost use Rattle.std.specs.Prelude.{◌≡◌, ℕ, ◌*◌, ◌<◌, length};
ghost use Rattle.rules.specs.Words.{every};
ghost use Rattle.rules.specs.Board.{mines_in, mine_cell, mine_ok, numbering_refusal};
ghost use Rattle.rules.specs.Refusals.{found_number};
ghost use Rattle.rules.specs.Calls.{numbering_of};
ghost use Rattle.cells.specs.Ground.{Mined};
ghost use Rattle.numbering.specs.Numbering.{placed, number_one, number_first};

use rules::Refusal;

// The cell of the n-th mine of a list.
fn mine_cell(columns: u8, list: &[u8], n: usize) -> usize
    requires { n < mines_in list.now }
    ensures { (result ≡ mine_cell columns list.now n) × (result < 65536) }
{
    let row = list[2 * n];
    let column = list[2 * n + 1];
    boards::cell_count(row, columns) + usize::from(column)
}

// The n-th mine is on the board and after the one before it.
fn mine_ok(rows: u8, columns: u8, list: &[u8], n: usize) -> bool
    requires { n < mines_in list.now }
    ensures { result ≡ mine_ok rows columns list.now n }
{
    if rows <= list[2 * n] {
        return false;
    }
    if columns <= list[2 * n + 1] {
        return false;
    }
    if n < 1 {
        return true;
    }
    mine_cell(columns, list, n - 1) < mine_cell(columns, list, n)
}

// 42: every mine is on the board, and they rise.
fn mines_ok(rows: u8, columns: u8, list: &[u8]) -> bool
    ensures { result ≡ every (mine_ok rows columns list.now) (mines_in list.now) }
{
    for n in 0..list.len() / 2 {
        if !mine_ok(rows, columns, list, n) {
            return false;
        }
    }
    true
}

// The first refusal of numbering. It writes nothing.
fn numbering_refusal(rows: u8, columns: u8, list: &[u8], mines: &[i8]) -> Result<(), Refusal>
    ensures { found_number result ≡ numbering_refusal rows columns list.now mines.now }
{
    if !cells::size_ok(rows, columns) {
        return Err(Refusal::Size);
    }
    if mines.len() != boards::cell_count(rows, columns) {
        return Err(Refusal::Length);
    }
    if list.len() % 2 != 0 {
        return Err(Refusal::Length);
    }
    if !mines_ok(rows, columns, list) {
        return Err(Refusal::MineList);
    }
    if mines.len() <= list.len() / 2 {
        return Err(Refusal::AllMines);
    }
    Ok(())
}

fn place_mines(columns: u8, list: &[u8], mines: &mut [i8])
    requires { (n : ℕ) → n < mines_in list.now → mine_cell columns list.now n < length mines.old }
    ensures { mines.new ≡ placed columns list.now (mines_in list.now) mines.old }
{
    for n in 0..list.len() / 2 {
        let cell = mine_cell(columns, list, n);
        mines[cell] = -1;
    }
}

// A cell that is no mine gets its count of mine neighbours.
fn number_cell(mines: &mut [i8], rows: usize, columns: usize, cell: usize)
    requires mined { Mined mines.old rows columns }
    requires cell_bound { cell < rows * columns }
    ensures { mines.new ≡ number_one rows columns mines.old cell }
{
    if cells::face_at(&*mines, cell) == 15 {
        return;
    }
    let n = cells::faces_around(&*mines, rows, columns, cell / columns, cell % columns, 15);
    mines[cell] = n as i8;
}

// The counts look at mines alone, so that a number written early disturbs none that is written later.
fn number_cells(mines: &mut [i8], rows: usize, columns: usize)
    requires { Mined mines.old rows columns }
    ensures { mines.new ≡ number_first rows columns (rows * columns) mines.old }
{
    for i in 0..mines.len() {
        number_cell(&mut *mines, rows, columns, i);
    }
}

// Numbers a board from a list of mines, a row byte and a column byte each, or refuses and writes nothing.
pub fn number_mines(rows: u8, columns: u8, list: &[u8], mines: &mut [i8]) -> Result<(), Refusal>
    ensures { record { number = found_number result; board = mines.new } ≡ numbering_of rows columns list.now mines.old }
{
    numbering_refusal(rows, columns, list, &*mines)?;
    mines.fill(0);
    place_mines(columns, list, &mut *mines);
    number_cells(&mut *mines, usize::from(rows), usize::from(columns));
    Ok(())
}
