// The left click, and how every opening ends.
// The contracts cite rules' Clicks, and specs/Parts for what the parts of a left click ask and do.
#![tactic(auto)]

ghost use Rattle.std.specs.Prelude.{◌≡◌, List, ℕ, ◌+◌, ◌*◌, ◌<◌, ◌≤◌, length, ℤ};
ghost use Rattle.rules.specs.Cells.{cell_list};
ghost use Rattle.rules.specs.Words.{bit};
ghost use Rattle.rules.specs.States.{with_left, with_lce, with_solved_left};
ghost use Rattle.rules.specs.Grid.{cell_of};
ghost use Rattle.rules.specs.Clicks.{desk, ended, left_opens, left_click};
ghost use Rattle.cells.specs.Ground.{Below};
ghost use Rattle.cells.specs.Stack.{stacked};
ghost use Rattle.cells.specs.Promises.{Ticked, LaidAt, RoomAt, play, Acts};
ghost use Rattle.opening.specs.Parts.{opened};
ghost use Rattle.clicks.specs.Parts.{NumberAt, SpreadsAt, Told, Adds, opens_with, left_adds};

use opening::Outcome;
use rules::{Cells, GameState, Played, Position};

// ---- opening ---------------------------------------------------------------------------------------------------------------------------

// How an opening ends: as many safe cells fewer still closed as it opened; a mine is Loss and 4; else Win where none is left, and the answer is
// the one given. The boards are not read.
fn end_opening(p: Position, o: Outcome, n: u16) -> Played
    ensures { (past shown bits : List ℕ) → Ticked 0 past o.opened shown → play result shown bits ≡ ended n (desk p past bits) (opened shown o.hit) }
{
    let left = p.counts.unopened.saturating_sub(o.opened);
    let q = p.with_unopened(left);
    if o.hit {
        let z = q.with_game(GameState::Loss);
        return Played {
            answer: 4,
            position: z,
        };
    }
    if left == 0 {
        let z = q.with_game(GameState::Win);
        return Played {
            answer: n,
            position: z,
        };
    }
    Played {
        answer: n,
        position: q,
    }
}

// Opens the cells, and ends with the answer given where no mine is hit.
pub fn open_cells(
    p: Position,
    mines: &[i8],
    shown: &mut [u8],
    work: &mut [u16],
    cells: Cells,
    n: u16,
) -> Played
    requires laid_at { LaidAt mines.now p shown.old work.old }
    requires below { Below (p.settings.rows * p.settings.columns) (cell_list cells) }
    ensures { Acts (opens_with mines.now n (stacked (cell_list cells))) p shown.old work.old result shown.new work.new }
{
    let rows = usize::from(p.settings.rows);
    let columns = usize::from(p.settings.columns);
    let o = opening::refresh_board(mines, shown, work, rows, columns, cells);
    end_opening(p, o, n)
}

// ---- left ------------------------------------------------------------------------------------------------------------------------------

pub fn add_left(p: Position) -> Position
    requires { p.counts.left ≤ 70000 }
    ensures { result ≡ with_left p (p.counts.left + 1) }
{
    let n = p.counts.left + 1;
    p.with_left(n)
}

// lce + 1, and solved_left where the cell solves.
fn left_counts(p: Position, solves: bool) -> Position
    requires { (p.counts.lce ≤ 70000) × (p.secrets.solved_left ≤ 1000000) }
    ensures { result ≡ with_solved_left (with_lce p (p.counts.lce + 1)) (p.secrets.solved_left + bit solves) }
{
    let one = u32::from(solves);
    let k = p.counts.lce + 1;
    let q = p.with_lce(k);
    let n = p.secrets.solved_left + one;
    q.with_solved_left(n)
}

// LEFT on a closed number, lone or not: it is shown, and opens nothing more.
// Whether it is lone is asked before, and the position comes last: so the compiler takes this into the loop over a row of events, which then
// keeps its position at hand.
pub fn left_number(p: Position, shown: &mut [u8], cell: usize, face: u8, lone: bool) -> Played
    requires cell_in_bounds { cell < length shown.old }
    requires room_at { RoomAt p shown.old }
    ensures { (B : List ℤ) (bits : List ℕ) → NumberAt B p.settings shown.old cell face lone → play result shown.new bits ≡ left_click B cell (desk p shown.old bits) }
{
    shown[cell] = face;
    let q = add_left(p);
    let z = left_counts(q, lone);
    let o = Outcome {
        hit: false,
        opened: 1,
    };
    end_opening(z, o, 2)
}

// A mine counts nothing; the opening of a 0 is judged before it opens.
fn spread_counts(
    p: Position,
    mines: &[i8],
    shown: &[u8],
    work: &mut [u16],
    cell: usize,
    face: u8,
) -> Position
    requires laid_at { LaidAt mines.now p shown.now work.old }
    requires cell_bound { cell < p.settings.rows * p.settings.columns }
    requires lce_bound { (p.counts.lce ≤ 70000) × (p.secrets.solved_left ≤ 1000000) }
    requires spreads_at { SpreadsAt mines.now cell face }
    ensures { Adds (left_adds mines.now cell) p shown.now work.old result work.new }
{
    if face == 15 {
        return p;
    }
    let rows = usize::from(p.settings.rows);
    let columns = usize::from(p.settings.columns);
    let solves = judging::cell_is_op_completed(mines, shown, work, rows, columns, cell);
    left_counts(p, solves)
}

// A closed 0 or mine is opened, and ends with 2 where it is no mine.
fn left_spreads(
    p: Position,
    mines: &[i8],
    shown: &mut [u8],
    work: &mut [u16],
    cell: usize,
    face: u8,
) -> Played
    requires laid_at { LaidAt mines.now p shown.old work.old }
    requires cell_bound { cell < p.settings.rows * p.settings.columns }
    requires lce_bound { (p.counts.lce ≤ 70000) × (p.secrets.solved_left ≤ 1000000) }
    requires spreads_at { SpreadsAt mines.now cell face }
    ensures { Acts (left_opens mines.now cell) p shown.old work.old result shown.new work.new }
{
    let z = spread_counts(p, mines, shown, work, cell, face);
    open_cells(z, mines, shown, work, Cells::only(cell as u16), 2)
}

pub fn is_number(face: u8) -> bool
    ensures { Told face result }
{
    face != 0 && face != 15
}

// LEFT: left + 1; unless the cell shows 10, answer 0; a mine: 15, Loss, 4; else open it, lce + 1, test for the win, 2.
pub fn left_click(
    p: Position,
    mines: &[i8],
    shown: &mut [u8],
    work: &mut [u16],
    row: usize,
    column: usize,
) -> Played
    requires laid_at { LaidAt mines.now p shown.old work.old }
    requires room_at { RoomAt p shown.old }
    requires row_lt_rows { (row < p.settings.rows) × (column < p.settings.columns) }
    ensures { Acts (left_click mines.now (cell_of p.settings.columns row column)) p shown.old work.old result shown.new work.new }
{
    let columns = usize::from(p.settings.columns);
    let cell = row * columns + column;
    if shown[cell] != 10 {
        let q = add_left(p);
        return Played {
            answer: 0,
            position: q,
        };
    }
    let face = cells::face_at(mines, cell);
    if is_number(face) {
        let rows = usize::from(p.settings.rows);
        let lone = lones::lone_number(mines, rows, columns, row, column);
        return left_number(p, shown, cell, face, lone);
    }
    let q = add_left(p);
    left_spreads(q, mines, shown, work, cell, face)
}
