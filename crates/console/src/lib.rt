// The calls for C and Rust firmware, which console_c exports: board's calls and the book reader under plain names, over lent slices and a flat position
// whose states are bytes. Every byte pattern is taken; a state byte that means nothing is refused with 264, after 20 to 263 (specs/Promises.antt).
#![tactic(auto)]

ghost use Rattle.std.specs.Prelude.{◌≡◌};
ghost use Rattle.rules.specs.Promises.{NumberMinesIs};
ghost use Rattle.console.specs.Promises.{CheckBoardIs, SetupIs, ResetIs, ResolveIs, StepIs, StepFlowIs, CheckPositionIs, StepGameStateIs, BbbvSolvedIs, LeftToSolveIs, Total3bvIs, ReadBookIs};

use flats::{FlatAnswer, FlatBook, FlatPosition, FlatValue};
use rules::Position;

// ---- the board -------------------------------------------------------------------------------------------------------------------------

// The board check: 20 to 24.
pub fn lm_check_board(rows: u8, columns: u8, mines: &[i8]) -> FlatValue
    ensures { CheckBoardIs rows columns mines.now result }
{
    let v = board::check_board(rows, columns, mines);
    FlatValue::from(v)
}

// Numbering from a mine list: 20, 21, 42, 24.
pub fn lm_number_mines(rows: u8, columns: u8, list: &[u8], mines: &mut [i8]) -> u32
    ensures { NumberMinesIs rows columns list.now mines.old result mines.new }
{
    u32::from(board::number_mines(rows, columns, list, mines))
}

// The 3BV total: 20 to 24.
pub fn lm_total_3bv(rows: u8, columns: u8, mines: &[i8], work: &mut [u16]) -> FlatValue
    ensures { Total3bvIs rows columns mines.now work.old result work.new }
{
    let v = board::total_3bv(rows, columns, mines, work);
    FlatValue::from(v)
}

// ---- setup and reset -------------------------------------------------------------------------------------------------------------------

// Setup: 20 to 25, 45. Of the question byte it asks only whether it is 0.
pub fn lm_setup(
    rows: u8,
    columns: u8,
    mode: u8,
    question: u8,
    rules: u8,
    mines: &[i8],
    shown: &mut [u8],
    bits: &mut [u8],
) -> FlatAnswer
    ensures { SetupIs rows columns mode question rules mines.now shown.old bits.old result shown.new bits.new }
{
    let s = flats::settings_of(rows, columns, mode, question, rules);
    let a = board::setup(s, mines, shown, bits);
    FlatAnswer::from(a)
}

// Reset is setup with the position's own settings, 20 to 25, 45; it reads no other byte, but a refusal gives all of them back.
pub fn lm_reset(f: FlatPosition, mines: &[i8], shown: &mut [u8], bits: &mut [u8]) -> FlatAnswer
    ensures { ResetIs f mines.now shown.old bits.old result shown.new bits.new }
{
    let p = Position::from(f);
    let a = board::reset(p, mines, shown, bits);
    reads::reset_for(f, a)
}

// ---- the position ----------------------------------------------------------------------------------------------------------------------

// The position check: 20 to 264.
pub fn lm_check_position(f: FlatPosition, mines: &[i8], shown: &[u8], bits: &[u8]) -> FlatValue
    ensures { CheckPositionIs f mines.now shown.now bits.now result }
{
    let p = reads::position_for(f);
    let v = board::check_position(p, mines, shown, bits);
    FlatValue::from(v)
}

// "replay" is 0 and "fail" 1: 20 to 264, 33, or Loss.
pub fn lm_step_game_state(
    f: FlatPosition,
    mines: &[i8],
    shown: &[u8],
    bits: &[u8],
    event: u8,
) -> FlatAnswer
    ensures { StepGameStateIs f mines.now shown.now bits.now event result }
{
    let p = reads::position_for(f);
    let a = board::step_game_state(p, mines, shown, bits, event);
    reads::answer_for(f, a)
}

// Both solved counts together: 20 to 264.
pub fn lm_get_bbbv_solved(f: FlatPosition, mines: &[i8], shown: &[u8], bits: &[u8]) -> FlatAnswer
    ensures { BbbvSolvedIs f mines.now shown.now bits.now result }
{
    let p = reads::position_for(f);
    let a = board::get_bbbv_solved(p, mines, shown, bits);
    reads::answer_for(f, a)
}

// Openings with a 0 not open, plus numbers without a 0 neighbour not open: 20 to 264.
pub fn lm_left_to_solve(
    f: FlatPosition,
    mines: &[i8],
    shown: &[u8],
    bits: &[u8],
    work: &mut [u16],
) -> FlatAnswer
    ensures { LeftToSolveIs f mines.now shown.now bits.now work.old result work.new }
{
    let p = reads::position_for(f);
    let a = board::left_to_solve(p, mines, shown, bits, work);
    reads::answer_for(f, a)
}

// ---- resolving, a step, and a row of events ----------------------------------------------------------------------------------------------

// l, r or m into a plain code, which is the value: 20 to 31. It counts no event; m flips the middle flag.
pub fn lm_resolve(
    f: FlatPosition,
    code: u8,
    row: u8,
    column: u8,
    mines: &[i8],
    shown: &[u8],
    bits: &[u8],
) -> FlatAnswer
    ensures { ResolveIs f code row column mines.now shown.now bits.now result }
{
    let p = reads::position_for(f);
    let a = board::resolve(p, code, row, column, mines, shown, bits);
    reads::answer_for(f, a)
}

// A plain step tests all, 20 to 33.
pub fn lm_step(
    f: FlatPosition,
    code: u8,
    row: u8,
    column: u8,
    mines: &[i8],
    shown: &mut [u8],
    bits: &mut [u8],
    work: &mut [u16],
) -> FlatAnswer
    ensures { StepIs f code row column mines.now shown.old bits.old work.old result shown.new bits.new work.new }
{
    let p = reads::position_for(f);
    let a = board::step(p, code, row, column, mines, shown, bits, work);
    reads::answer_for(f, a)
}

// A row of events as a book has them: 20 to 264 once, then up to the first refused event.
pub fn lm_step_flow(
    f: FlatPosition,
    events: &[u8],
    mines: &[i8],
    shown: &mut [u8],
    bits: &mut [u8],
    work: &mut [u16],
) -> FlatAnswer
    ensures { StepFlowIs f events.now mines.now shown.old bits.old work.old result shown.new bits.new work.new }
{
    let p = reads::position_for(f);
    let a = board::step_flow(p, events, mines, shown, bits, work);
    reads::answer_for(f, a)
}

// ---- the book --------------------------------------------------------------------------------------------------------------------------

// What a book says, or its first fault: 40 to 45, 20, 24, 25.
pub fn lm_read_book(s: &[u8]) -> FlatBook
    ensures { ReadBookIs s.now result }
{
    let b = book::read_book(s);
    FlatBook::from(b)
}
