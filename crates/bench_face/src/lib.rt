// What the bench calls to open and to play: inner functions under plain names, numbers and slices only.
#![tactic(auto)]

ghost use Rattle.std.specs.Prelude.{◌≡◌, [], ◌∷◌, ◌*◌, ◌<◌};
ghost use Rattle.rules.specs.Opening.{refreshed};
ghost use Rattle.cells.specs.Promises.{Laid, Ticked};

use rules::{Answer, Cells, Position, Settings};

// `opening::refresh_board` for one cell; gives how many cells it opened.
#[unsafe(no_mangle)]
pub extern "C" fn bench_refresh_board(
    mines: &[i8],
    shown: &mut [u8],
    work: &mut [u16],
    rows: usize,
    columns: usize,
    cell: u16,
) -> u32
    requires laid { Laid mines.now shown.old work.old rows columns }
    requires cell_bound { cell < rows * columns }
    ensures { (shown.new ≡ (refreshed mines.now rows columns (cell ∷ []) shown.old).shown) × (work.new ≡ work.old) × Ticked 0 shown.old result shown.new }
{
    let o = opening::refresh_board(mines, shown, work, rows, columns, Cells::only(cell));
    o.opened
}

// A position's counts, in the printout's order, and how many cells were opened, where there is room.
fn tell(p: Position, opened: u32, counts: &mut [u32]) {
    if counts.len() < 10 {
        return;
    }
    counts[..10].copy_from_slice(&[
        p.counts.left,
        p.counts.right,
        p.counts.double,
        p.counts.lce,
        p.secrets.rce,
        p.counts.dce,
        p.counts.flag,
        p.secrets.solved_left,
        p.secrets.solved_chord,
        opened,
    ]);
}

// `board::setup`, and `board::step_flow` from there.
fn flow(
    settings: Settings,
    events: &[u8],
    mines: &[i8],
    shown: &mut [u8],
    bits: &mut [u8],
    work: &mut [u16],
) -> Answer {
    let a = board::setup(settings, mines, &mut *shown, &mut *bits);
    if a.number != 0 {
        return a;
    }
    let p = a.position;
    board::step_flow(p, events, mines, &mut *shown, &mut *bits, &mut *work)
}

// A fresh game and a row of events.
#[unsafe(no_mangle)]
pub extern "C" fn bench_flow(
    rows: u8,
    columns: u8,
    mode: u8,
    question: bool,
    events: &[u8],
    mines: &[i8],
    shown: &mut [u8],
    bits: &mut [u8],
    work: &mut [u16],
    counts: &mut [u32],
) -> u16 {
    let settings = Settings {
        rows,
        columns,
        mode,
        question,
        rules: 1,
    };
    let a = flow(settings, events, mines, &mut *shown, &mut *bits, &mut *work);
    let p = a.position;
    tell(p, a.value, &mut *counts);
    a.number
}

// The same, and one event more by `board::step`, which tests all.
#[unsafe(no_mangle)]
pub extern "C" fn bench_step(
    rows: u8,
    columns: u8,
    mode: u8,
    question: bool,
    events: &[u8],
    code: u8,
    row: u8,
    column: u8,
    mines: &[i8],
    shown: &mut [u8],
    bits: &mut [u8],
    work: &mut [u16],
    counts: &mut [u32],
) -> u16 {
    let settings = Settings {
        rows,
        columns,
        mode,
        question,
        rules: 1,
    };
    let a = flow(settings, events, mines, &mut *shown, &mut *bits, &mut *work);
    let p = a.position;
    let o = board::step(
        p,
        code,
        row,
        column,
        mines,
        &mut *shown,
        &mut *bits,
        &mut *work,
    );
    let q = o.position;
    tell(q, o.value, &mut *counts);
    o.number
}
