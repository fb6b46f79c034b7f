// The library for firmware of the no-flag class: its setup, step and book reading, and the board's reset, under plain names, over the console's flat
// position (specs/Promises.antt). Every byte pattern is taken; a state byte that means nothing is refused with 264, after 20 to 263.
#![tactic(auto)]

ghost use Rattle.std.specs.Prelude.{◌≡◌};
ghost use Rattle.console.specs.Promises.{ResetIs};
ghost use Rattle.noflag_console.specs.Promises.{SetupIs, StepIs, ReadBookIs};

use flats::{FlatAnswer, FlatBook, FlatPosition};
use rules::Position;

// Setup: 20 to 24, 25 unless the mode is 0, 45. Of the question byte it asks only whether it is 0.
#[unsafe(no_mangle)]
pub extern "C" fn lm_noflag_setup(
    rows: u8,
    columns: u8,
    mode: u8,
    question: u8,
    rules: u8,
    mines: &[i8],
    shown: &mut [u8],
    bits: &mut [u8],
) -> FlatAnswer
    ensures { SetupIs rows columns mode question rules mines.now shown.old bits.old result shown.new bits.new }
{
    let s = flats::settings_of(rows, columns, mode, question, rules);
    let a = noflag_board::setup(s, mines, shown, bits);
    FlatAnswer::from(a)
}

// Reset is the board's: setup with the position's own settings.
#[unsafe(no_mangle)]
pub extern "C" fn lm_noflag_reset(
    f: FlatPosition,
    mines: &[i8],
    shown: &mut [u8],
    bits: &mut [u8],
) -> FlatAnswer
    ensures { ResetIs f mines.now shown.old bits.old result shown.new bits.new }
{
    let p = Position::from(f);
    let a = noflag_board::reset(p, mines, shown, bits);
    reads::reset_for(f, a)
}

// A step takes l and m too: 20 to 24, 25, 261 to 264, 30, 31, 34, 33.
#[unsafe(no_mangle)]
pub extern "C" fn lm_noflag_step(
    f: FlatPosition,
    code: u8,
    row: u8,
    column: u8,
    mines: &[i8],
    shown: &mut [u8],
    bits: &mut [u8],
    work: &mut [u16],
) -> FlatAnswer
    ensures { StepIs f code row column mines.now shown.old bits.old work.old result shown.new bits.new work.new }
{
    let p = reads::position_for(f);
    let a = noflag_board::step(p, code, row, column, mines, shown, bits, work);
    reads::answer_for(f, a)
}

// What a book says, or its first fault: 25 at 3 unless the mode is 0.
#[unsafe(no_mangle)]
pub extern "C" fn lm_noflag_read_book(s: &[u8]) -> FlatBook
    ensures { ReadBookIs s.now result }
{
    let b = noflag_board::read_book(s);
    FlatBook::from(b)
}
