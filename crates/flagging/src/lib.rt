// The flag pass over lent boards: one scan in row order flags the closed neighbours of each ripe cell as it comes to it.
// The contracts cite rules' Passes; specs/ has the scan, and what its parts require and ensure.
#![tactic(auto)]

ghost use Rattle.std.specs.Prelude.{◌≡◌, ◌+◌, ◌*◌, ◌<◌, ◌≤◌, length};
ghost use Rattle.rules.specs.Grid.{cell_of};
ghost use Rattle.rules.specs.Clicks.{desk};
ghost use Rattle.rules.specs.Passes.{remainder, all_closed_of, ripe_at, flag_one, flag_pass};
ghost use Rattle.cells.specs.Ground.{Sized, Valued};
ghost use Rattle.cells.specs.Promises.{closed_in};
ghost use Rattle.flagging.specs.Scan.{flag_around, flag_beside, flag_row, flag_rows, Flaggable, Flags};

use rules::Position;

// What is left of a number after its flags: signed.
fn remainder(number: u8, flags: u8) -> i8
    requires { (number < 9) × (flags < 9) }
    ensures { result ≡ remainder number flags }
{
    (number as i8) - (flags as i8)
}

// The remainder is above 0 and equal to the closed neighbours.
fn all_closed(number: u8, flags: u8, closed: u8) -> bool
    requires { (number < 9) × (flags < 9) }
    ensures { result ≡ all_closed_of (remainder number flags) closed }
{
    let rest = remainder(number, flags);
    if rest < 0 {
        return false;
    }
    if rest == 0 {
        return false;
    }
    rest as u8 == closed
}

// An open 1 to 8 whose remainder is all its closed neighbours.
fn ripe(shown: &[u8], rows: usize, columns: usize, row: usize, column: usize) -> bool
    requires sized { Sized rows columns }
    requires row_lt_rows { (row < rows) × (column < columns) }
    requires shown_len { length shown.now ≡ rows * columns }
    ensures { result ≡ ripe_at rows columns shown.now (cell_of columns row column) }
{
    let v = shown[row * columns + column];
    if v < 1 {
        return false;
    }
    if 8 < v {
        return false;
    }
    let seen = cells::shown_around(shown, rows, columns, row, column);
    all_closed(v, seen.flags, seen.closed)
}

// A cell that shows 10 is flagged, and counted.
fn flag_one(mines: &[i8], shown: &mut [u8], bits: &mut [u8], q: usize, past: u32) -> u32
    requires valued { Valued mines.now }
    requires shown_len { length shown.old ≡ length mines.now }
    requires mines_len_bound { length mines.now ≤ 8 * length bits.old }
    requires shown_bound { past + closed_in shown.old ≤ 2048 }
    ensures { Flags (flag_one mines.now q) past shown.old bits.old result shown.new bits.new }
{
    if shown.len() <= q {
        return past;
    }
    if shown[q] == 10 {
        shown[q] = 11;
        marking::mark_mine(mines, bits, q);
        return past + 1;
    }
    past
}

// Flags the closed neighbours of a cell, and counts them.
fn flag_around(
    mines: &[i8],
    shown: &mut [u8],
    bits: &mut [u8],
    rows: usize,
    columns: usize,
    row: usize,
    column: usize,
) -> u32
    requires flaggable { Flaggable mines.now shown.old bits.old rows columns }
    requires row_lt_rows { (row < rows) × (column < columns) }
    ensures { Flags (flag_around mines.now rows columns (cell_of columns row column) 8) 0 shown.old bits.old result shown.new bits.new }
{
    let mut n: u32 = 0;
    for k in 0..8 {
        let q = cells::neighbour_at(rows, columns, row, column, k);
        n = flag_one(mines, shown, bits, q, n);
    }
    n
}

// Flags the closed neighbours of a ripe cell: both its counts are read before the first flag.
fn flag_beside(
    mines: &[i8],
    shown: &mut [u8],
    bits: &mut [u8],
    rows: usize,
    columns: usize,
    row: usize,
    column: usize,
    past: u32,
) -> u32
    requires flaggable { Flaggable mines.now shown.old bits.old rows columns }
    requires row_lt_rows { (row < rows) × (column < columns) }
    requires shown_bound { past + closed_in shown.old ≤ 2048 }
    ensures { Flags (flag_beside mines.now rows columns (cell_of columns row column)) past shown.old bits.old result shown.new bits.new }
{
    if ripe(shown, rows, columns, row, column) {
        let n = flag_around(mines, shown, bits, rows, columns, row, column);
        return past + n;
    }
    past
}

// One row of the scan.
fn flag_row(
    mines: &[i8],
    shown: &mut [u8],
    bits: &mut [u8],
    rows: usize,
    columns: usize,
    row: usize,
    past: u32,
) -> u32
    requires flaggable { Flaggable mines.now shown.old bits.old rows columns }
    requires row_lt_rows { row < rows }
    requires shown_bound { past + closed_in shown.old ≤ 2048 }
    ensures { Flags (flag_row mines.now rows columns row columns) past shown.old bits.old result shown.new bits.new }
{
    let mut n = past;
    for column in 0..columns {
        n = flag_beside(mines, shown, bits, rows, columns, row, column, n);
    }
    n
}

// The scan, and how many cells it flagged.
fn flag_rows(mines: &[i8], shown: &mut [u8], bits: &mut [u8], rows: usize, columns: usize) -> u32
    requires { Flaggable mines.now shown.old bits.old rows columns }
    ensures { Flags (flag_rows mines.now rows columns rows) 0 shown.old bits.old result shown.new bits.new }
{
    let mut n: u32 = 0;
    for row in 0..rows {
        n = flag_row(mines, shown, bits, rows, columns, row, n);
    }
    n
}

// The flag pass: one scan (a second would find nothing: proofs/OneScan.antt), and its flags go into the position once.
pub fn flag_pass(p: Position, mines: &[i8], shown: &mut [u8], bits: &mut [u8]) -> Position
    requires flaggable { Flaggable mines.now shown.old bits.old p.settings.rows p.settings.columns }
    requires shown_bound { p.counts.flag + closed_in shown.old ≤ 65535 }
    ensures { desk result shown.new bits.new ≡ flag_pass mines.now (desk p shown.old bits.old) }
{
    let rows = usize::from(p.settings.rows);
    let columns = usize::from(p.settings.columns);
    let n = p.counts.flag + flag_rows(mines, shown, bits, rows, columns);
    p.with_flag(n)
}
