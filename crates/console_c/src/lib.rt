// The console's calls for C and Rust firmware: each export is the console's function of that name and states its clauses again, since a crate is
// either a library or a static library. What each call does, to the byte, stands in console's specs/Promises.antt.
#![tactic(auto)]

ghost use Rattle.std.specs.Prelude.{◌≡◌};
ghost use Rattle.rules.specs.Promises.{NumberMinesIs};
ghost use Rattle.console.specs.Promises.{CheckBoardIs, SetupIs, ResetIs, ResolveIs, StepIs, StepFlowIs, CheckPositionIs, StepGameStateIs, BbbvSolvedIs, LeftToSolveIs, Total3bvIs, ReadBookIs};

use flats::{FlatAnswer, FlatBook, FlatPosition, FlatValue};

// ---- the board -------------------------------------------------------------------------------------------------------------------------

// The board check: 20 to 24.
#[unsafe(no_mangle)]
pub extern "C" fn lm_check_board(rows: u8, columns: u8, mines: &[i8]) -> FlatValue
    ensures { CheckBoardIs rows columns mines.now result }
{
    console::lm_check_board(rows, columns, mines)
}

// Numbering from a mine list: 20, 21, 42, 24.
#[unsafe(no_mangle)]
pub extern "C" fn lm_number_mines(rows: u8, columns: u8, list: &[u8], mines: &mut [i8]) -> u32
    ensures { NumberMinesIs rows columns list.now mines.old result mines.new }
{
    console::lm_number_mines(rows, columns, list, mines)
}

// The 3BV total: 20 to 24.
#[unsafe(no_mangle)]
pub extern "C" fn lm_total_3bv(rows: u8, columns: u8, mines: &[i8], work: &mut [u16]) -> FlatValue
    ensures { Total3bvIs rows columns mines.now work.old result work.new }
{
    console::lm_total_3bv(rows, columns, mines, work)
}

// ---- setup and reset -------------------------------------------------------------------------------------------------------------------

// Setup: 20 to 25, 45. Of the question byte it asks only whether it is 0.
#[unsafe(no_mangle)]
pub extern "C" fn lm_setup(
    rows: u8,
    columns: u8,
    mode: u8,
    question: u8,
    rules: u8,
    mines: &[i8],
    shown: &mut [u8],
    bits: &mut [u8],
) -> FlatAnswer
    ensures { SetupIs rows columns mode question rules mines.now shown.old bits.old result shown.new bits.new }
{
    console::lm_setup(rows, columns, mode, question, rules, mines, shown, bits)
}

// Reset is setup with the position's own settings, 20 to 25, 45; it reads no other byte, but a refusal gives all of them back.
#[unsafe(no_mangle)]
pub extern "C" fn lm_reset(
    f: FlatPosition,
    mines: &[i8],
    shown: &mut [u8],
    bits: &mut [u8],
) -> FlatAnswer
    ensures { ResetIs f mines.now shown.old bits.old result shown.new bits.new }
{
    console::lm_reset(f, mines, shown, bits)
}

// ---- the position ----------------------------------------------------------------------------------------------------------------------

// The position check: 20 to 264.
#[unsafe(no_mangle)]
pub extern "C" fn lm_check_position(
    f: FlatPosition,
    mines: &[i8],
    shown: &[u8],
    bits: &[u8],
) -> FlatValue
    ensures { CheckPositionIs f mines.now shown.now bits.now result }
{
    console::lm_check_position(f, mines, shown, bits)
}

// "replay" is 0 and "fail" 1: 20 to 264, 33, or Loss.
#[unsafe(no_mangle)]
pub extern "C" fn lm_step_game_state(
    f: FlatPosition,
    mines: &[i8],
    shown: &[u8],
    bits: &[u8],
    event: u8,
) -> FlatAnswer
    ensures { StepGameStateIs f mines.now shown.now bits.now event result }
{
    console::lm_step_game_state(f, mines, shown, bits, event)
}

// Both solved counts together: 20 to 264.
#[unsafe(no_mangle)]
pub extern "C" fn lm_get_bbbv_solved(
    f: FlatPosition,
    mines: &[i8],
    shown: &[u8],
    bits: &[u8],
) -> FlatAnswer
    ensures { BbbvSolvedIs f mines.now shown.now bits.now result }
{
    console::lm_get_bbbv_solved(f, mines, shown, bits)
}

// Openings with a 0 not open, plus numbers without a 0 neighbour not open: 20 to 264.
#[unsafe(no_mangle)]
pub extern "C" fn lm_left_to_solve(
    f: FlatPosition,
    mines: &[i8],
    shown: &[u8],
    bits: &[u8],
    work: &mut [u16],
) -> FlatAnswer
    ensures { LeftToSolveIs f mines.now shown.now bits.now work.old result work.new }
{
    console::lm_left_to_solve(f, mines, shown, bits, work)
}

// ---- resolving, a step, and a row of events ----------------------------------------------------------------------------------------------

// l, r or m into a plain code, which is the value: 20 to 31. It counts no event; m flips the middle flag.
#[unsafe(no_mangle)]
pub extern "C" fn lm_resolve(
    f: FlatPosition,
    code: u8,
    row: u8,
    column: u8,
    mines: &[i8],
    shown: &[u8],
    bits: &[u8],
) -> FlatAnswer
    ensures { ResolveIs f code row column mines.now shown.now bits.now result }
{
    console::lm_resolve(f, code, row, column, mines, shown, bits)
}

// A plain step tests all, 20 to 33.
#[unsafe(no_mangle)]
pub extern "C" fn lm_step(
    f: FlatPosition,
    code: u8,
    row: u8,
    column: u8,
    mines: &[i8],
    shown: &mut [u8],
    bits: &mut [u8],
    work: &mut [u16],
) -> FlatAnswer
    ensures { StepIs f code row column mines.now shown.old bits.old work.old result shown.new bits.new work.new }
{
    console::lm_step(f, code, row, column, mines, shown, bits, work)
}

// A row of events as a book has them: 20 to 264 once, then up to the first refused event.
#[unsafe(no_mangle)]
pub extern "C" fn lm_step_flow(
    f: FlatPosition,
    events: &[u8],
    mines: &[i8],
    shown: &mut [u8],
    bits: &mut [u8],
    work: &mut [u16],
) -> FlatAnswer
    ensures { StepFlowIs f events.now mines.now shown.old bits.old work.old result shown.new bits.new work.new }
{
    console::lm_step_flow(f, events, mines, shown, bits, work)
}

// ---- the book --------------------------------------------------------------------------------------------------------------------------

// What a book says, or its first fault: 40 to 45, 20, 24, 25.
#[unsafe(no_mangle)]
pub extern "C" fn lm_read_book(s: &[u8]) -> FlatBook
    ensures { ReadBookIs s.now result }
{
    console::lm_read_book(s)
}
