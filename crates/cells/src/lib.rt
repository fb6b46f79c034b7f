// Leaves over the boards: the neighbours of a cell in row order, what a cell shows once open, counts around a cell, lent lists filled, and the tests of a size and a mode.
// A cell is given by its row and column, which its caller takes apart once. The contracts cite rules' Grid and Board, and specs/Ground.
#![tactic(auto)]

ghost use Rattle.std.specs.Prelude.{◌≡◌, Bool, ◌++◌, ℕ, ◌+◌, ◌*◌, ◌/◌, ◌%◌, ◌<◌, ◌≤◌, eqb, leb, length, get_or, drop, replicate};
ghost use Rattle.rules.specs.Grid.{size_ok, cell_of, ninth, cell_before, around};
ghost use Rattle.rules.specs.Board.{face_at};
ghost use Rattle.rules.specs.Mouse.{rules_ok};
ghost use Rattle.rules.specs.Calls.{mode_ok};
ghost use Rattle.cells.specs.Ground.{Sized, Valued, Mined, is_inner, ring_at, ring, face_is, Saw, SeenAround};

// Place 4 of nine is the cell itself.
fn ninth_of(k: usize) -> usize
    requires { k < 8 }
    ensures { result ≡ ninth k }
{
    if 4 <= k {
        return k + 1;
    }
    k
}

// The cell one row above and one column before (r, c); rows * columns, which is no cell, where that is off the board.
fn cell_before(rows: usize, columns: usize, r: usize, c: usize) -> usize
    requires { Sized rows columns }
    ensures { result ≡ cell_before rows columns r c }
{
    if r < 1 {
        return rows * columns;
    }
    if rows < r {
        return rows * columns;
    }
    if c < 1 {
        return rows * columns;
    }
    if columns < c {
        return rows * columns;
    }
    (r - 1) * columns + (c - 1)
}

// The k-th neighbour of the cell at a row and a column, in row order; rows * columns where it is off the board.
pub fn neighbour_at(rows: usize, columns: usize, row: usize, column: usize, k: usize) -> usize
    requires sized { Sized rows columns }
    requires row_lt_rows { (row < rows) × (column < columns) }
    requires k_bound { k < 8 }
    ensures { result ≡ cell_before rows columns (row + ninth k / 3) (column + ninth k % 3) }
{
    let j = ninth_of(k);
    cell_before(rows, columns, row + j / 3, column + j % 3)
}

// The cell has all its eight neighbours.
fn is_inner(rows: usize, columns: usize, row: usize, column: usize) -> bool
    requires { (row < rows) × (column < columns) }
    ensures { result ≡ is_inner rows columns row column }
{
    (1 <= row) & ((row + 1 < rows) & ((1 <= column) & (column + 1 < columns)))
}

// The k-th of the eight cells around the middle of nine: the first of the nine is given, and a row lower is `columns` further on.
fn ring_at(columns: usize, first: usize, k: usize) -> usize
    requires columns_bound { (columns ≤ 64) × (first ≤ 2048) }
    requires k_bound { k < 8 }
    ensures { result ≡ ring_at columns first k }
{
    let j = ninth_of(k);
    first + j / 3 * columns + j % 3
}

// What a cell shows once it is open: its number, or 15 for a mine.
pub fn face_at(mines: &[i8], cell: usize) -> u8
    requires cell_in_bounds { cell < length mines.now }
    requires valued { Valued mines.now }
    ensures { result ≡ face_at mines.now cell }
{
    let v = mines[cell];
    if v < 0 {
        return 15;
    }
    v as u8
}

// How many neighbours of a cell show 11, and how many 10.
#[derive(Clone, Copy)]
pub struct Around {
    pub flags: u8,
    pub closed: u8,
}

// One neighbour more is looked at; off the board nothing is shown.
fn see(shown: &[u8], q: usize, past: Around) -> Around
    requires { (past.flags < 8) × (past.closed < 8) }
    ensures { Saw shown.now q past result }
{
    if shown.len() <= q {
        return past;
    }
    let v = shown[q];
    if v == 11 {
        return Around {
            flags: past.flags + 1,
            ..past
        };
    }
    if v == 10 {
        return Around {
            closed: past.closed + 1,
            ..past
        };
    }
    past
}

// The flags and the closed cells around a cell, each place tested for being on the board: both in one pass, as `edge_faces` counts one face.
fn edge_around(shown: &[u8], rows: usize, columns: usize, row: usize, column: usize) -> Around
    requires sized { Sized rows columns }
    requires row_lt_rows { (row < rows) × (column < columns) }
    ensures { SeenAround shown.now rows columns (cell_of columns row column) result }
{
    let mut seen = Around {
        flags: 0,
        closed: 0,
    };
    for k in 0..8 {
        let q = neighbour_at(rows, columns, row, column, k);
        seen = see(shown, q, seen);
    }
    seen
}

// How many of the eight cells around the middle of nine pass a test: no place is tested for being on the board, and there is no branch.
fn ring_count<F: Fn(usize) -> bool>(columns: usize, first: usize, test: F) -> u8
    requires columns_bound { (columns ≤ 64) × (first ≤ 2048) }
    requires callable { (k : ℕ) → k < 8 → F.pre test (ring_at columns first k) }
    ensures few { result ≤ 8 }
    ensures counted { (p : ℕ → Bool) → ((k : ℕ) → k < 8 → (b : Bool) → F.post test (ring_at columns first k) b → b ≡ p (ring_at columns first k)) → result ≡ ring columns p first }
{
    let mut n: u8 = 0;
    for k in 0..8 {
        let q = ring_at(columns, first, k);
        n += u8::from(test(q));
    }
    n
}

// How many of these show v.
pub fn ring_shows(shown: &[u8], columns: usize, first: usize, v: u8) -> u8
    requires columns_bound { columns ≤ 64 }
    requires columns_in_bounds { first + 2 * columns + 2 < length shown.now }
    requires shown_len_bound { length shown.now ≤ 2048 }
    ensures { result ≡ ring columns (λ (q : ℕ). eqb (get_or shown.now q 0) v) first }
{
    ring_count(columns, first, |q| shown[q] == v)
}

// The flags and the closed cells around a cell.
pub fn shown_around(shown: &[u8], rows: usize, columns: usize, row: usize, column: usize) -> Around
    requires sized { Sized rows columns }
    requires row_lt_rows { (row < rows) × (column < columns) }
    requires shown_len { length shown.now ≡ rows * columns }
    ensures { SeenAround shown.now rows columns (cell_of columns row column) result }
{
    if is_inner(rows, columns, row, column) {
        let first = (row - 1) * columns + (column - 1);
        let flags = ring_shows(shown, columns, first, 11);
        let closed = ring_shows(shown, columns, first, 10);
        return Around { flags, closed };
    }
    edge_around(shown, rows, columns, row, column)
}

// A cell of the board whose face is f; off the board there is none.
fn has_face(mines: &[i8], q: usize, f: u8) -> bool
    requires { Valued mines.now }
    ensures { result ≡ face_is mines.now f q }
{
    q < mines.len() && face_at(mines, q) == f
}

// How many neighbours of a cell have the face f, each place tested for being on the board.
fn edge_faces(mines: &[i8], rows: usize, columns: usize, row: usize, column: usize, f: u8) -> u8
    requires sized { Sized rows columns }
    requires row_lt_rows { (row < rows) × (column < columns) }
    requires valued { Valued mines.now }
    ensures { (result ≡ around rows columns (face_is mines.now f) (cell_of columns row column)) × (result ≤ 8) }
{
    let mut n: u8 = 0;
    for k in 0..8 {
        let q = neighbour_at(rows, columns, row, column, k);
        let one = u8::from(has_face(mines, q, f));
        n += one;
    }
    n
}

// How many of the eight around the middle of nine have the face f.
fn ring_faces(mines: &[i8], columns: usize, first: usize, f: u8) -> u8
    requires columns_bound { columns ≤ 64 }
    requires columns_in_bounds { first + 2 * columns + 2 < length mines.now }
    requires mines_len_bound { length mines.now ≤ 2048 }
    requires valued { Valued mines.now }
    ensures { (result ≡ ring columns (face_is mines.now f) first) × (result ≤ 8) }
{
    ring_count(columns, first, |q| face_at(mines, q) == f)
}

// One of the eight around the middle of nine is a 0. There is no branch: the compiler makes three instructions of each.
// A loop of its own, for speed: `1 <= ring_faces(..)` counts the bits too, and `zero_beside` was 4 % slower by it.
fn ring_zero(mines: &[i8], columns: usize, first: usize) -> bool
    requires columns_bound { columns ≤ 64 }
    requires columns_in_bounds { first + 2 * columns + 2 < length mines.now }
    requires mines_len_bound { length mines.now ≤ 2048 }
    requires valued { Valued mines.now }
    ensures { result ≡ leb 1 (ring columns (face_is mines.now 0) first) }
{
    let mut any = false;
    for k in 0..8 {
        let q = ring_at(columns, first, k);
        let face = face_at(mines, q);
        any = any | (face == 0);
    }
    any
}

// How many neighbours of a cell have the face f: 15 for mines, 0 for the 0 cells.
pub fn faces_around(
    mines: &[i8],
    rows: usize,
    columns: usize,
    row: usize,
    column: usize,
    f: u8,
) -> u8
    requires mined { Mined mines.now rows columns }
    requires row_lt_rows { (row < rows) × (column < columns) }
    ensures { (result ≡ around rows columns (face_is mines.now f) (cell_of columns row column)) × (result ≤ 8) }
{
    if is_inner(rows, columns, row, column) {
        let first = (row - 1) * columns + (column - 1);
        return ring_faces(mines, columns, first, f);
    }
    edge_faces(mines, rows, columns, row, column, f)
}

// A neighbour of a cell is a 0.
pub fn zero_beside(mines: &[i8], rows: usize, columns: usize, row: usize, column: usize) -> bool
    requires mined { Mined mines.now rows columns }
    requires row_lt_rows { (row < rows) × (column < columns) }
    ensures { result ≡ leb 1 (around rows columns (face_is mines.now 0) (cell_of columns row column)) }
{
    if is_inner(rows, columns, row, column) {
        let first = (row - 1) * columns + (column - 1);
        return ring_zero(mines, columns, first);
    }
    let zeros = edge_faces(mines, rows, columns, row, column, 0);
    1 <= zeros
}

// ---- lent lists ------------------------------------------------------------------------------------------------------------------------

pub fn fill(bytes: &mut [u8], v: u8)
    ensures { bytes.new ≡ replicate (length bytes.old) v }
{
    bytes.fill(v);
}

// The first n entries become 0.
pub fn clear(work: &mut [u16], n: usize)
    requires { n ≤ length work.old }
    ensures { work.new ≡ replicate n 0 ++ drop n work.old }
{
    work[..n].fill(0);
}

// ---- numbers ---------------------------------------------------------------------------------------------------------------------------

// Rows and columns 1 to 64, and at most 2,048 cells.
pub fn size_ok(rows: u8, columns: u8) -> bool
    ensures { result ≡ size_ok rows columns }
{
    let cells = usize::from(rows) * usize::from(columns);
    (1 <= rows) & ((rows <= 64) & ((1 <= columns) & ((columns <= 64) & (cells <= 2048))))
}

// Modes 0 to 5 and 11 to 16.
pub fn mode_ok(mode: u8) -> bool
    ensures { result ≡ mode_ok mode }
{
    (mode <= 5) | ((11 <= mode) & (mode <= 16))
}

// The league's rules: 1 and 2.
pub fn rules_ok(rules: u8) -> bool
    ensures { result ≡ rules_ok rules }
{
    (rules == 1) | (rules == 2)
}
