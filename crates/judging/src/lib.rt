// The opening walks of a left click and of a chord, left to solve and the 3BV total. Stack and marks stand in the lent work, which comes back as it was.
// The contracts cite rules' Judging, and specs/Parts for what the inner functions do.
#![tactic(auto)]

ghost use Rattle.std.specs.Prelude.{◌≡◌, true, false, [], ◌+◌, ◌-◌, ◌*◌, ◌<◌, ◌≤◌, eqb, length, get_or, set};
ghost use Rattle.rules.specs.Cells.{cell_list};
ghost use Rattle.rules.specs.Words.{stack_of};
ghost use Rattle.rules.specs.Grid.{push_if, cells_if, pushed};
ghost use Rattle.rules.specs.Lent.{work_room};
ghost use Rattle.rules.specs.Judging.{free_at, judged_left, openings_judged, total3bv, not_open_at, left_to_solve};
ghost use Rattle.cells.specs.Ground.{Sized, Mined, Zeros, Below};
ghost use Rattle.cells.specs.Promises.{Laid, Leaves};
ghost use Rattle.cells.specs.Stack.{stacked, Grown};
ghost use Rattle.judging.specs.Parts.{stack_room, marks_of, top_of, unstopped, Walkable, Stepped, Went, Judged, JudgedIf, Tallied};

use rules::Cells;

// The cell q is on the board and has no mark.
fn free(work: &[u16], size: usize, q: usize) -> bool
    requires size_bound { size ≤ 2048 }
    requires size_in_bounds { work_room size ≤ length work.now }
    ensures { result ≡ free_at (marks_of size work.now) q }
{
    q < size && work[7 * size + 8 + q] == 0
}

// Pushes q if it has no mark.
fn push_free(work: &mut [u16], size: usize, top: usize, q: usize) -> usize
    requires size_bound { size ≤ 2048 }
    requires size_in_bounds { work_room size ≤ length work.old }
    requires top_bound { top < stack_room size }
    requires q_bound { q ≤ 2048 }
    ensures { Grown work.old top 1 (push_if (free_at (marks_of size work.old) q) q (stack_of work.old top)) work.new result }
{
    if free(work, size, q) {
        work[top] = q as u16;
        return top + 1;
    }
    top
}

// Pushes the neighbours of a cell that have no mark.
fn push_around(work: &mut [u16], rows: usize, columns: usize, cell: usize, top: usize) -> usize
    requires sized { Sized rows columns }
    requires cell_bound { cell < rows * columns }
    requires columns_in_bounds { work_room (rows * columns) ≤ length work.old }
    requires top_bound { top ≤ 7 * (rows * columns) }
    ensures { Grown work.old top 8 (pushed rows columns (free_at (marks_of (rows * columns) work.old)) cell 8 (stack_of work.old top)) work.new result }
{
    let size = rows * columns;
    let row = cell / columns;
    let column = cell % columns;
    let mut t = top;
    for k in 0..8 {
        let q = cells::neighbour_at(rows, columns, row, column, k);
        t = push_free(work, size, t, q);
    }
    t
}

// The cell shows 11; where nothing is shown, it does not.
fn flagged(shown: &[u8], cell: usize) -> bool
    ensures { result ≡ eqb (get_or shown.now cell 0) 11 }
{
    cell < shown.len() && shown[cell] == 11
}

// Marks a 0 and pushes its neighbours without a mark.
fn mark_zero(work: &mut [u16], rows: usize, columns: usize, cell: usize, top: usize) -> usize
    requires sized { Sized rows columns }
    requires cell_bound { cell < rows * columns }
    requires columns_in_bounds { work_room (rows * columns) ≤ length work.old }
    requires top_bound { top ≤ 7 * (rows * columns) }
    ensures { Grown (set work.old (stack_room (rows * columns) + cell) 1) top 8 (pushed rows columns (free_at (marks_of (rows * columns) (set work.old (stack_room (rows * columns) + cell) 1))) cell 8 (stack_of (set work.old (stack_room (rows * columns) + cell) 1) top)) work.new result }
{
    let at = 7 * (rows * columns) + 8 + cell;
    work[at] = 1;
    push_around(work, rows, columns, cell, top)
}

// Takes the top cell off the stack and works it off; gives where the top then stands, or nothing where a flag stops the walk.
fn walk_top(
    mines: &[i8],
    shown: &[u8],
    work: &mut [u16],
    rows: usize,
    columns: usize,
    top: usize,
) -> Option<usize>
    requires walkable { Walkable mines.now work.old rows columns }
    requires top_nonzero { 0 < top }
    requires top_bound { top ≤ stack_room (rows * columns) }
    requires top_bound_2 { free_at (marks_of (rows * columns) work.old) (get_or work.old (top - 1) 0) ≡ true → top ≤ 7 * (rows * columns) + 1 }
    ensures { Stepped mines.now rows columns shown.now (get_or work.old (top - 1) 0) (top - 1) work.old true work.new (top_of result) (unstopped result) }
{
    let at = top - 1;
    let cell = usize::from(work[at]);
    if !free(work, rows * columns, cell) {
        return Some(at);
    }
    let v = cells::face_at(mines, cell);
    if v != 0 {
        return Some(at);
    }
    if flagged(shown, cell) {
        return None;
    }
    let t = mark_zero(work, rows, columns, cell, at);
    Some(t)
}

// A whole walk from one cell, on the marks that are there.
fn walk(
    mines: &[i8],
    shown: &[u8],
    work: &mut [u16],
    rows: usize,
    columns: usize,
    start: usize,
) -> bool
    requires walkable { Walkable mines.now work.old rows columns }
    requires start_bound { start < rows * columns }
    ensures { Went mines.now rows columns shown.now start work.old work.new result }
{
    work[0] = start as u16;
    let mut top = 1;
    while 0 < top {
        let Some(next) = walk_top(mines, shown, work, rows, columns, top) else {
            return false;
        };
        top = next;
    }
    true
}

// LEFT: the opening of a 0 has no cell showing 11.
pub fn cell_is_op_completed(
    mines: &[i8],
    shown: &[u8],
    work: &mut [u16],
    rows: usize,
    columns: usize,
    cell: usize,
) -> bool
    requires laid { Laid mines.now shown.now work.old rows columns }
    requires cell_bound { cell < rows * columns }
    ensures { Leaves result (judged_left mines.now rows columns shown.now cell) work.old work.new }
{
    let whole = walk(mines, shown, work, rows, columns, cell);
    cells::clear(work, 8 * (rows * columns) + 8);
    whole
}

// Openings counted, and whether a walk was made: no Option, since a walk that a flag stops leaves its marks and counts nothing.
#[derive(Clone, Copy)]
pub struct Sum {
    pub count: usize,
    pub walked: bool,
}

// A walk from q if it is a 0 without a mark, counted where it is not stopped.
fn judge_one(
    mines: &[i8],
    shown: &[u8],
    work: &mut [u16],
    rows: usize,
    columns: usize,
    q: usize,
    sum: Sum,
) -> Sum
    requires walkable { Walkable mines.now work.old rows columns }
    requires q_bound { q < rows * columns }
    requires count_bound { sum.count ≤ 2048 }
    ensures { Judged mines.now rows columns shown.now q work.old sum work.new result }
{
    if !free(work, rows * columns, q) {
        return sum;
    }
    let v = cells::face_at(mines, q);
    if v != 0 {
        return sum;
    }
    if walk(mines, shown, work, rows, columns, q) {
        return Sum {
            count: sum.count + 1,
            walked: true,
        };
    }
    Sum {
        count: sum.count,
        walked: true,
    }
}

// The walks from a chord's cells, with one set of marks.
fn judge_cells(
    mines: &[i8],
    shown: &[u8],
    work: &mut [u16],
    rows: usize,
    columns: usize,
    cells: &[u16],
) -> Sum
    requires walkable { Walkable mines.now work.old rows columns }
    requires zeros { Zeros (work_room (rows * columns)) work.old }
    requires n_bound { length cells.now ≤ 8 }
    requires below { Below (rows * columns) cells.now }
    ensures { Tallied mines.now rows columns shown.now (stacked cells.now) work.old work.new result }
{
    let mut sum = Sum {
        count: 0,
        walked: false,
    };
    for cell in cells {
        let q = usize::from(*cell);
        sum = judge_one(mines, shown, work, rows, columns, q, sum);
    }
    sum
}

// CHORD: the openings newly judged among the cells that it opens.
pub fn op_num_around_cell(
    mines: &[i8],
    shown: &[u8],
    work: &mut [u16],
    rows: usize,
    columns: usize,
    cells: Cells,
) -> usize
    requires laid { Laid mines.now shown.now work.old rows columns }
    requires below { Below (rows * columns) (cell_list cells) }
    ensures { Leaves result (openings_judged mines.now rows columns shown.now (stacked (cell_list cells))) work.old work.new }
{
    let sum = judge_cells(mines, shown, work, rows, columns, cells.as_slice());
    if sum.walked {
        cells::clear(work, 8 * (rows * columns) + 8);
    }
    sum.count
}

// A walk from q if it is not open. The walk is shown nothing, so no flag stops it.
fn judge_left(
    mines: &[i8],
    shown: &[u8],
    work: &mut [u16],
    rows: usize,
    columns: usize,
    q: usize,
    sum: Sum,
) -> Sum
    requires walkable { Walkable mines.now work.old rows columns }
    requires q_bound { q < rows * columns }
    requires count_bound { sum.count ≤ 2048 }
    ensures { JudgedIf (not_open_at shown.now q) mines.now rows columns q work.old sum work.new result }
{
    if !lones::not_open(shown, q) {
        return sum;
    }
    judge_one(mines, &[], work, rows, columns, q, sum)
}

// The openings with a 0 that is not open: the walks from those of the board's cells, in row order.
fn judge_board(mines: &[i8], shown: &[u8], work: &mut [u16], rows: usize, columns: usize) -> Sum
    requires walkable { Walkable mines.now work.old rows columns }
    requires zeros { Zeros (work_room (rows * columns)) work.old }
    ensures { Tallied mines.now rows columns [] (cells_if (not_open_at shown.now) (rows * columns)) work.old work.new result }
{
    let n = rows * columns;
    let mut sum = Sum {
        count: 0,
        walked: false,
    };
    for i in 0..n {
        sum = judge_left(mines, shown, work, rows, columns, i, sum);
    }
    sum
}

// Left to solve: openings with a 0 not open, plus numbers without a 0 neighbour not open.
pub fn left_to_solve(
    mines: &[i8],
    shown: &[u8],
    work: &mut [u16],
    rows: usize,
    columns: usize,
) -> usize
    requires mined { Mined mines.now rows columns }
    requires columns_in_bounds { work_room (rows * columns) ≤ length work.old }
    requires zeros { Zeros (work_room (rows * columns)) work.old }
    ensures { Leaves result (left_to_solve mines.now rows columns shown.now) work.old work.new }
{
    let openings = judge_board(mines, shown, work, rows, columns);
    cells::clear(work, 8 * (rows * columns) + 8);
    let numbers = lones::lone_board(mines, shown, rows, columns);
    openings.count + numbers
}

// 3BV total: what is left to solve where nothing is shown.
pub fn total_3bv(mines: &[i8], work: &mut [u16], rows: usize, columns: usize) -> usize
    requires mined { Mined mines.now rows columns }
    requires columns_in_bounds { work_room (rows * columns) ≤ length work.old }
    requires zeros { Zeros (work_room (rows * columns)) work.old }
    ensures { Leaves result (total3bv mines.now rows columns) work.old work.new }
{
    left_to_solve(mines, &[], work, rows, columns)
}
