// The public calls that play no event: the board's own, setup and reset, the checks, and what is counted. None has a `requires`: for every input
// its contract, one equation of rules' Promises, determines the answer, the position, the value and every lent list.
#![tactic(auto)]

ghost use Rattle.std.specs.Prelude.{◌≡◌, ◌+◌, ◌*◌, ◌≤◌, length};
ghost use Rattle.rules.specs.Refusals.{refusal_number, found_number};
ghost use Rattle.rules.specs.Lent.{bit_bytes, work_room};
ghost use Rattle.rules.specs.Calls.{cells_in, answers, set_up, setup_by};
ghost use Rattle.cells.specs.Ground.{Mined};
ghost use Rattle.boards.specs.Faults.{Placeable};
ghost use Rattle.rules.specs.Promises.{CheckBoardIs, NumberMinesIs, Total3bvIs, SetupIs, ResetIs, CheckPositionIs, StepGameStateIs, BbbvSolvedIs, LeftToSolveIs};
ghost use Rattle.calls.specs.Parts.{LeftMade};

use rules::{Answer, GameState, Place, Position, Refusal, Settings, Value};

// An answer that has no place.
pub fn answer(n: u16, p: Position, v: u32) -> Answer
    ensures { result ≡ answers n p v }
{
    Answer {
        number: n,
        place: Place::Nowhere,
        position: p,
        value: v,
    }
}

// A refusal that has no place.
pub fn refused(refusal: Refusal, p: Position) -> Answer
    ensures { result ≡ answers (refusal_number refusal) p 0 }
{
    answer(u16::from(refusal), p, 0)
}

// ---- the board -------------------------------------------------------------------------------------------------------------------------

// The board check: 20 to 24.
pub fn check_board(rows: u8, columns: u8, mines: &[i8]) -> Value
    ensures { CheckBoardIs rows columns mines.now result }
{
    let found = boards::board_check(rows, columns, mines);
    refusals::found(rows, columns, mines, found)
}

// Numbering from a mine list, a row byte and a column byte for each mine.
// It answers a number and no Result, since NumberMinesIs of rules' Promises and the C interface do.
pub fn number_mines(rows: u8, columns: u8, list: &[u8], mines: &mut [i8]) -> u16
    ensures { NumberMinesIs rows columns list.now mines.old result mines.new }
{
    let numbered = numbering::number_mines(rows, columns, list, mines);
    refusals::number_of(numbered)
}

// Work comes in as it comes: it is cleared first, and the count gives it back so.
fn left_on(rows: u8, columns: u8, mines: &[i8], shown: &[u8], work: &mut [u16]) -> u32
    requires mined { Mined mines.now rows columns }
    requires columns_in_bounds { work_room (rows * columns) ≤ length work.old }
    ensures { LeftMade mines.now rows columns shown.now work.old result work.new }
{
    let cells = boards::cell_count(rows, columns);
    cells::clear(&mut *work, 8 * cells + 8);
    let r = usize::from(rows);
    let c = usize::from(columns);
    let left = judging::left_to_solve(mines, shown, &mut *work, r, c);
    left as u32
}

// The 3BV total, what is left to solve where nothing is shown: 20 to 24.
pub fn total_3bv(rows: u8, columns: u8, mines: &[i8], work: &mut [u16]) -> Value
    ensures { Total3bvIs rows columns mines.now work.old result work.new }
{
    if let Err(refusal) = refusals::total_refusal(rows, columns, mines, &*work) {
        return refusals::found(rows, columns, mines, Err(refusal));
    }
    let none = [0u8; 0];
    let total = left_on(rows, columns, mines, &none, &mut *work);
    Value {
        number: 0,
        place: Place::Nowhere,
        value: total,
    }
}

// ---- setup and reset -------------------------------------------------------------------------------------------------------------------

// The fresh desk; or the refusal that was found, and the position that it gives back.
fn set_up(
    found: Result<(), Refusal>,
    otherwise: Position,
    s: Settings,
    mines: &[i8],
    shown: &mut [u8],
    bits: &mut [u8],
) -> Answer
    requires placeable { Placeable otherwise.settings.rows otherwise.settings.columns mines.now (found_number found) }
    requires mined { found_number found ≡ 0 → Mined mines.now s.rows s.columns × ((length shown.old ≡ cells_in s) × (length bits.old ≡ bit_bytes (cells_in s))) }
    ensures { set_up result shown.new bits.new ≡ setup_by (found_number found) mines.now otherwise s shown.old bits.old }
{
    if let Err(refusal) = found {
        return refusals::refuse_by(refusal, otherwise, mines);
    }
    let p = boards::fresh_desk(s, mines, &mut *shown, &mut *bits);
    answer(0, p, 0)
}

// Setup: 20 to 25, 45.
pub fn setup(settings: Settings, mines: &[i8], shown: &mut [u8], bits: &mut [u8]) -> Answer
    ensures { SetupIs settings mines.now shown.old bits.old result shown.new bits.new }
{
    let found = refusals::setup_refusal(settings, mines, &*shown, &*bits);
    let p = rules::fresh(settings, 0);
    set_up(found, p, settings, mines, &mut *shown, &mut *bits)
}

// Reset is setup with the position's own settings.
pub fn reset(p: Position, mines: &[i8], shown: &mut [u8], bits: &mut [u8]) -> Answer
    ensures { ResetIs p mines.now shown.old bits.old result shown.new bits.new }
{
    let s = p.settings;
    let found = refusals::setup_refusal(s, mines, &*shown, &*bits);
    set_up(found, p, s, mines, &mut *shown, &mut *bits)
}

// ---- the position ----------------------------------------------------------------------------------------------------------------------

// The position check: 20 to 264.
pub fn check_position(p: Position, mines: &[i8], shown: &[u8], bits: &[u8]) -> Value
    ensures { CheckPositionIs p mines.now shown.now bits.now result }
{
    let found = refusals::check_refusal(p, mines, shown, bits);
    refusals::found(p.settings.rows, p.settings.columns, mines, found)
}

// "replay" is 0 and "fail" 1: both give Loss in any state; anything else is 33. It counts no event.
pub fn step_game_state(p: Position, mines: &[i8], shown: &[u8], bits: &[u8], event: u8) -> Answer
    ensures { StepGameStateIs p mines.now shown.now bits.now event result }
{
    if let Err(refusal) = refusals::check_refusal(p, mines, shown, bits) {
        return refusals::refuse_by(refusal, p, mines);
    }
    if 1 < event {
        return refused(Refusal::Event, p);
    }
    let q = p.with_game(GameState::Loss);
    answer(0, q, 0)
}

// Both solved counts together; a lawful position's are at most its open cells.
fn solved(p: Position) -> u32
    requires { p.secrets.solved_left + p.secrets.solved_chord ≤ 2048 }
    ensures { result ≡ p.secrets.solved_left + p.secrets.solved_chord }
{
    p.secrets.solved_left + p.secrets.solved_chord
}

pub fn get_bbbv_solved(p: Position, mines: &[i8], shown: &[u8], bits: &[u8]) -> Answer
    ensures { BbbvSolvedIs p mines.now shown.now bits.now result }
{
    if let Err(refusal) = refusals::check_refusal(p, mines, shown, bits) {
        return refusals::refuse_by(refusal, p, mines);
    }
    let both = solved(p);
    answer(0, p, both)
}

// Openings with a 0 not open, plus numbers without a 0 neighbour not open: 20 to 264.
pub fn left_to_solve(
    p: Position,
    mines: &[i8],
    shown: &[u8],
    bits: &[u8],
    work: &mut [u16],
) -> Answer
    ensures { LeftToSolveIs p mines.now shown.now bits.now work.old result work.new }
{
    if let Err(refusal) = refusals::lent_refusal(p, mines, shown, bits, &*work) {
        return refusals::refuse_by(refusal, p, mines);
    }
    let left = left_on(
        p.settings.rows,
        p.settings.columns,
        mines,
        shown,
        &mut *work,
    );
    answer(0, p, left)
}
