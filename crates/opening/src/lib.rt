// Opening cells: `refresh_board` over flat lent slices, with the lent work as its stack. A cell is opened when it is found, and only a 0 goes on
// the stack: specs/Quick says so, and proofs/Quick that the outcome is that of rules' Opening. The laws of opening stand in proofs/Opening.
#![tactic(auto)]

ghost use Rattle.std.specs.Prelude.{◌≡◌, true, false, [], ◌+◌, ◌-◌, ◌*◌, ◌<◌, ◌≤◌, length, get_or, set};
ghost use Rattle.rules.specs.Cells.{cell_list};
ghost use Rattle.rules.specs.Words.{stack_of};
ghost use Rattle.rules.specs.Grid.{cell_of};
ghost use Rattle.rules.specs.Board.{face_at};
ghost use Rattle.rules.specs.Lent.{work_room};
ghost use Rattle.rules.specs.Opening.{closed_at, wrong_flag, crossed, refreshed, count_shown};
ghost use Rattle.rules.specs.Lawful.{shows};
ghost use Rattle.cells.specs.Ground.{Valued, Fitting, Below};
ghost use Rattle.cells.specs.Stack.{stacked};
ghost use Rattle.cells.specs.Promises.{open_in, Ticked, Laid, Leaves};
ghost use Rattle.opening.specs.Quick.{front, touched, touched_around, touched_all};
ghost use Rattle.opening.specs.Parts.{Spare, Roomy, Seated, Moved, Worked, opened};

use rules::Cells;

// Where the stack's top is, whether a mine was hit, and how many cells were opened. No Option and no Result: a hit stops nothing, and what was opened
// beside it counts.
#[derive(Clone, Copy)]
pub struct Turn {
    pub top: usize,
    pub hit: bool,
    pub opened: u32,
}

// What an opening did: whether it hit a mine, and how many cells went from closed to showing 0 to 8, on a hit too.
#[derive(Clone, Copy)]
pub struct Outcome {
    pub hit: bool,
    pub opened: u32,
}

// The cell shows 10; off the board nothing does.
pub fn closed(shown: &[u8], q: usize) -> bool
    ensures { result ≡ closed_at shown.now q }
{
    q < shown.len() && shown[q] == 10
}

// Opens a cell if it is closed; a 0 goes on the stack.
fn touch(mines: &[i8], shown: &mut [u8], work: &mut [u16], q: usize, past: Turn) -> Turn
    requires roomy { Roomy mines.now shown.old work.old past.top }
    requires opened_bound { past.opened ≤ open_in shown.old }
    ensures { Moved (touched mines.now q (front (stack_of work.old past.top) shown.old past.hit)) work.old past.top shown.new work.new result.top result.hit × Ticked past.opened shown.old result.opened shown.new }
{
    if closed(shown, q) {
        let v = cells::face_at(mines, q);
        shown[q] = v;
        if v == 15 {
            return Turn { hit: true, ..past };
        }
        let opened = past.opened + 1;
        if v == 0 {
            work[past.top] = q as u16;
            return Turn {
                top: past.top + 1,
                opened,
                ..past
            };
        }
        return Turn { opened, ..past };
    }
    past
}

// Touches the neighbours of the cell at a row and a column.
fn touch_around(
    mines: &[i8],
    shown: &mut [u8],
    work: &mut [u16],
    rows: usize,
    columns: usize,
    row: usize,
    column: usize,
    past: Turn,
) -> Turn
    requires seated { Seated mines.now rows columns shown.old work.old past.top }
    requires row_lt_rows { (row < rows) × (column < columns) }
    requires opened_bound { past.opened ≤ open_in shown.old }
    ensures { Moved (touched_around mines.now rows columns (cell_of columns row column) 8 (front (stack_of work.old past.top) shown.old past.hit)) work.old past.top shown.new work.new result.top result.hit × Ticked past.opened shown.old result.opened shown.new }
{
    let mut turn = past;
    for k in 0..8 {
        let q = cells::neighbour_at(rows, columns, row, column, k);
        turn = touch(mines, shown, work, q, turn);
    }
    turn
}

// Takes the top 0 off the stack and touches its neighbours.
fn spread_top(
    mines: &[i8],
    shown: &mut [u8],
    work: &mut [u16],
    rows: usize,
    columns: usize,
    past: Turn,
) -> Turn
    requires seated { Seated mines.now rows columns shown.old work.old past.top }
    requires top_nonzero { 0 < past.top }
    requires top_bound { get_or work.old (past.top - 1) 0 < rows * columns }
    requires opened_bound { past.opened ≤ open_in shown.old }
    ensures { Moved (touched_around mines.now rows columns (get_or work.old (past.top - 1) 0) 8 (front (stack_of (set work.old (past.top - 1) 0) (past.top - 1)) shown.old past.hit)) (set work.old (past.top - 1) 0) (past.top - 1) shown.new work.new result.top result.hit × Ticked past.opened shown.old result.opened shown.new }
{
    let at = past.top - 1;
    let cell = usize::from(work[at]);
    work[at] = 0;
    let turn = Turn { top: at, ..past };
    touch_around(
        mines,
        shown,
        work,
        rows,
        columns,
        cell / columns,
        cell % columns,
        turn,
    )
}

// Works the stack off.
fn work_off(
    mines: &[i8],
    shown: &mut [u8],
    work: &mut [u16],
    rows: usize,
    columns: usize,
    past: Turn,
) -> Outcome
    requires fitting { Fitting mines.now shown.old work.old rows columns }
    requires shown_bound { past.top + count_shown (shows 10) shown.old ≤ rows * columns }
    requires below { Below (rows * columns) (stack_of work.old past.top) }
    requires spare { Spare past.top (work_room (rows * columns)) work.old }
    requires opened_bound { past.opened ≤ open_in shown.old }
    ensures { Worked mines.now rows columns past.top shown.old work.old past.hit shown.new work.new result.hit × Ticked past.opened shown.old result.opened shown.new }
{
    let mut turn = past;
    while 0 < turn.top {
        turn = spread_top(mines, shown, work, rows, columns, turn);
    }
    Outcome {
        hit: turn.hit,
        opened: turn.opened,
    }
}

// Touches the given cells.
fn touch_given(mines: &[i8], shown: &mut [u8], work: &mut [u16], given: &[u16]) -> Turn
    requires roomy { Roomy mines.now shown.old work.old 0 }
    ensures { Moved (touched_all mines.now (stacked given.now) (front [] shown.old false)) work.old 0 shown.new work.new result.top result.hit × Ticked 0 shown.old result.opened shown.new }
{
    let mut turn = Turn {
        top: 0,
        hit: false,
        opened: 0,
    };
    for cell in given {
        let q = usize::from(*cell);
        turn = touch(mines, shown, work, q, turn);
    }
    turn
}

// A flag on a safe cell becomes a wrong flag.
fn cross_flag(mines: &[i8], shown: &mut [u8], i: usize)
    requires i_in_bounds { i < length shown.old }
    requires mines_len { length mines.now ≡ length shown.old }
    requires valued { Valued mines.now }
    ensures { shown.new ≡ set shown.old i (wrong_flag (face_at mines.now i) (get_or shown.old i 0)) }
{
    if shown[i] == 11 && cells::face_at(mines, i) != 15 {
        shown[i] = 14;
    }
}

// Every flag on a safe cell becomes a wrong flag.
fn cross_flags(mines: &[i8], shown: &mut [u8])
    requires mines_len { length mines.now ≡ length shown.old }
    requires valued { Valued mines.now }
    ensures { shown.new ≡ crossed mines.now (length shown.old) shown.old }
{
    for i in 0..shown.len() {
        cross_flag(mines, shown, i);
    }
}

// Opens the given cells, with all that a 0 opens; where a mine is hit, each flag on a safe cell becomes 14. A hit mine is not counted as opened.
// The work comes back as it was.
pub fn refresh_board(
    mines: &[i8],
    shown: &mut [u8],
    work: &mut [u16],
    rows: usize,
    columns: usize,
    cells: Cells,
) -> Outcome
    requires laid { Laid mines.now shown.old work.old rows columns }
    requires below { Below (rows * columns) (cell_list cells) }
    ensures { Leaves (opened shown.new result.hit) (refreshed mines.now rows columns (stacked (cell_list cells)) shown.old) work.old work.new × Ticked 0 shown.old result.opened shown.new }
{
    let turn = touch_given(mines, shown, work, cells.as_slice());
    let o = work_off(mines, shown, work, rows, columns, turn);
    if o.hit {
        cross_flags(mines, shown);
    }
    o
}
