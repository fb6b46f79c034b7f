// THE FACE OF THE NO-FLAG CLASS: its setup, its step, which takes toggles too, and its book reading; reset is the board's. No public function has a
// `requires`: for every input its contract, one equation of rules' specs/Noflag.antt, determines the answer, the position, the value and every
// lent list.
#![tactic(auto)]

ghost use Rattle.std.specs.Prelude.{◌≡◌, ltb};
ghost use Rattle.rules.specs.Refusals.{refusal_number, found_number};
ghost use Rattle.rules.specs.Clicks.{desk};
ghost use Rattle.rules.specs.Step.{pointer_of};
ghost use Rattle.rules.specs.Noflag.{forbidden, class_book_of, ClassSetupIs, ClassStepIs};
ghost use Rattle.noflag.specs.Class.{forbids};
ghost use Rattle.book.specs.Laid.{Counted};
ghost use Rattle.noflag_board.specs.Parts.{moded, other_moded, unplayed_of, given_back, mode_wrong, other_mode};

pub use calls::reset;
use rules::{Answer, Book, Position, Refusal, Settings};

// ---- what the class refuses --------------------------------------------------------------------------------------------------------------

// rc, rr, cc, pf and r.
pub fn forbidden(code: u8) -> bool
    ensures { result ≡ forbidden code }
{
    (code == 2) | ((code == 3) | ((code == 7) | ((code == 8) | (code == 10))))
}

// What a forbidden event is refused with: 30, then 31, then 34.
pub fn forbids(p: Position, row: u8, column: u8) -> Refusal
    ensures { refusal_number result ≡ forbids (ltb p.events 65535) (pointer_of p.settings row column) }
{
    let Some(_) = mouse::decode(p.settings, row, column) else {
        return Refusal::Pointer;
    };
    if faults::is_full(p) {
        return Refusal::Full;
    }
    Refusal::Forbidden
}

// The refusal in another mode than 0, by what the board has found: 20 to 24 come before 25, all else after.
fn other_moded(found: Result<(), Refusal>) -> Refusal
    ensures { refusal_number result ≡ other_moded (found_number found) }
{
    match found {
        Err(Refusal::Size) => Refusal::Size,
        Err(Refusal::Length) => Refusal::Length,
        Err(Refusal::Value) => Refusal::Value,
        Err(Refusal::Number) => Refusal::Number,
        Err(Refusal::AllMines) => Refusal::AllMines,
        _ => Refusal::Mode,
    }
}

// What the board has found, with 25 in its place unless the mode is 0.
fn moded(mode: u8, found: Result<(), Refusal>) -> Result<(), Refusal>
    ensures { found_number result ≡ moded mode (found_number found) }
{
    if mode == 0 {
        return found;
    }
    Err(other_moded(found))
}

// ---- setup -------------------------------------------------------------------------------------------------------------------------------

// Setup: 20 to 24, 25 unless the mode is 0, 45.
pub fn setup(settings: Settings, mines: &[i8], shown: &mut [u8], bits: &mut [u8]) -> Answer
    ensures { ClassSetupIs settings mines.now shown.old bits.old result shown.new bits.new }
{
    if settings.mode == 0 {
        return calls::setup(settings, mines, &mut *shown, &mut *bits);
    }
    let found = refusals::setup_refusal(settings, mines, &*shown, &*bits);
    let n = refusals::number_of(moded(settings.mode, found));
    let p = rules::fresh(settings, 0);
    refusals::refuse(n, p, mines)
}

// ---- step --------------------------------------------------------------------------------------------------------------------------------

// An event that is not played: its code is forbidden, or the mode is not 0.
fn unplayed(
    p: Position,
    row: u8,
    column: u8,
    mines: &[i8],
    shown: &[u8],
    bits: &[u8],
    work: &[u16],
) -> Answer
    ensures { result ≡ unplayed_of mines.now row column (desk p shown.now bits.now) work.now }
{
    let found = refusals::lent_refusal(p, mines, shown, bits, work);
    if let Err(refusal) = moded(p.settings.mode, found) {
        return refusals::refuse_by(refusal, p, mines);
    }
    let barred = forbids(p, row, column);
    calls::refused(barred, p)
}

// A refusal gives back the position that came in, whatever it was tested on.
fn given_back(a: Answer, p: Position) -> Answer
    ensures { result ≡ given_back a p }
{
    if 20 <= a.number {
        return Answer { position: p, ..a };
    }
    a
}

// A step: 20 to 24, 25 unless the mode is 0, 261 to 264, 30, 31, 34, 33. Every code but the forbidden ones is resolved and played as in the full
// game, with the one check of the board's own step.
pub fn step(
    p: Position,
    code: u8,
    row: u8,
    column: u8,
    mines: &[i8],
    shown: &mut [u8],
    bits: &mut [u8],
    work: &mut [u16],
) -> Answer
    ensures { ClassStepIs p code row column mines.now shown.old bits.old work.old result shown.new bits.new work.new }
{
    let mode = p.settings.mode;
    let barred = forbidden(code);
    if barred | (mode != 0) {
        return unplayed(p, row, column, mines, &*shown, &*bits, &*work);
    }
    let plain = mouse::code_at(p, code);
    let middle = mouse::flip(code, p.middle);
    let q = p.with_middle(middle);
    let a = board::step(
        q,
        plain,
        row,
        column,
        mines,
        &mut *shown,
        &mut *bits,
        &mut *work,
    );
    given_back(a, p)
}

// ---- the game book -----------------------------------------------------------------------------------------------------------------------

// Of settings whose bytes are there: question and size are right, and the mode is not 0.
fn mode_wrong(s: &[u8]) -> bool
    requires { Counted s.now }
    ensures { result ≡ mode_wrong s.now }
{
    let rows = s[1];
    let columns = s[2];
    let mode = s[3];
    let question = s[4];
    let size_right = cells::size_ok(rows, columns);
    (question <= 1) & (size_right & (mode != 0))
}

// The settings of a book are in order up to their mode, and that is not 0.
fn other_mode(s: &[u8]) -> bool
    ensures { result ≡ other_mode s.now }
{
    if s.len() < 1 {
        return false;
    }
    let count = s[0];
    if !((count == 4) | (count == 5)) {
        return false;
    }
    let end = 1 + usize::from(count);
    if s.len() < end {
        return false;
    }
    mode_wrong(s)
}

// What a byte string says as a book of the class, or its first fault with the byte place: 25 at 3 unless the mode is 0, and all else as the board's
// books are read.
pub fn read_book(s: &[u8]) -> Book
    ensures { result ≡ class_book_of s.now }
{
    let other = other_mode(s);
    let b = book::read_book(s);
    if other {
        return book::refuse(Refusal::Mode, 3);
    }
    b
}
