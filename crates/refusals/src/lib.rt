// The refusals 20 to 264, found before anything is written, and what is answered for them. Each chain gives the first that applies.
// The contracts cite rules' Calls; specs/Rows.antt has the table of all refusals, and proofs/Places.antt that each stands in its place.
#![tactic(auto)]

ghost use Rattle.std.specs.Prelude.{◌≡◌, true, ◌*◌, length};
ghost use Rattle.rules.specs.Words.{unless};
ghost use Rattle.rules.specs.Refusals.{refusal_number, found_number};
ghost use Rattle.rules.specs.Clicks.{desk};
ghost use Rattle.rules.specs.Mouse.{rules_ok};
ghost use Rattle.rules.specs.Calls.{refuses, checks, boards_fit, work_fits, settings_refusal, position_refusal, position_check, lent_refusal, setup_refusal, total_refusal, flow_refusal};
ghost use Rattle.boards.specs.Faults.{Placeable};

use rules::{Answer, Position, Refusal, Settings, Value};

// ---- what is lent ----------------------------------------------------------------------------------------------------------------------

fn boards_fit(s: Settings, mines: &[i8], shown: &[u8], bits: &[u8]) -> bool
    ensures { result ≡ boards_fit s mines.now shown.now bits.now }
{
    let cells = boards::cell_count(s.rows, s.columns);
    (mines.len() == cells) & ((shown.len() == cells) & (bits.len() == (cells + 7) / 8))
}

fn work_fits(s: Settings, work: &[u16]) -> bool
    ensures { result ≡ work_fits s work.now }
{
    let cells = boards::cell_count(s.rows, s.columns);
    8 * cells + 8 <= work.len()
}

// ---- the chains ------------------------------------------------------------------------------------------------------------------------

// The first refusal of 20 to 25, where `fit` says that every buffer of the call has its length.
fn settings_refusal(s: Settings, fit: bool, mines: &[i8]) -> Result<(), Refusal>
    requires { fit ≡ true → length mines.now ≡ s.rows * s.columns }
    ensures { found_number result ≡ settings_refusal s fit mines.now 0 }
{
    boards::board_refusal(s.rows, s.columns, fit, mines)?;
    if !cells::mode_ok(s.mode) {
        return Err(Refusal::Mode);
    }
    Ok(())
}

// The first refusal of 20 to 264.
fn position_refusal(
    p: Position,
    mines: &[i8],
    shown: &[u8],
    bits: &[u8],
    fit: bool,
) -> Result<(), Refusal>
    requires { fit ≡ true → boards_fit p.settings mines.now shown.now bits.now ≡ true }
    ensures { found_number result ≡ position_refusal fit mines.now (desk p shown.now bits.now) }
{
    settings_refusal(p.settings, fit, mines)?;
    lawful::lawful_refusal(p, mines, shown, bits)
}

// The same for a call that is lent no work.
pub fn check_refusal(p: Position, mines: &[i8], shown: &[u8], bits: &[u8]) -> Result<(), Refusal>
    ensures { found_number result ≡ position_check mines.now (desk p shown.now bits.now) }
{
    let fits = boards_fit(p.settings, mines, shown, bits);
    position_refusal(p, mines, shown, bits, fits)
}

// And for one that is.
pub fn lent_refusal(
    p: Position,
    mines: &[i8],
    shown: &[u8],
    bits: &[u8],
    work: &[u16],
) -> Result<(), Refusal>
    ensures { found_number result ≡ lent_refusal mines.now (desk p shown.now bits.now) work.now }
{
    let boards = boards_fit(p.settings, mines, shown, bits);
    let room = work_fits(p.settings, work);
    position_refusal(p, mines, shown, bits, boards & room)
}

// 45 for rules that are not the league's.
fn rules_refusal(rules: u8) -> Result<(), Refusal>
    ensures { found_number result ≡ unless 45 (rules_ok rules) 0 }
{
    if !cells::rules_ok(rules) {
        return Err(Refusal::Rules);
    }
    Ok(())
}

// The first refusal of 20 to 25 and 45.
pub fn setup_refusal(s: Settings, mines: &[i8], shown: &[u8], bits: &[u8]) -> Result<(), Refusal>
    ensures { found_number result ≡ setup_refusal s mines.now shown.now bits.now }
{
    let fit = boards_fit(s, mines, shown, bits);
    settings_refusal(s, fit, mines)?;
    rules_refusal(s.rules)
}

pub fn total_refusal(rows: u8, columns: u8, mines: &[i8], work: &[u16]) -> Result<(), Refusal>
    ensures { found_number result ≡ total_refusal rows columns mines.now work.now }
{
    let cells = boards::cell_count(rows, columns);
    let fit = (mines.len() == cells) & (8 * cells + 8 <= work.len());
    boards::board_refusal(rows, columns, fit, mines)
}

// The first refusal of 20 to 264 for a row of events, whose last one must be whole.
pub fn flow_refusal(
    p: Position,
    events: &[u8],
    mines: &[i8],
    shown: &[u8],
    bits: &[u8],
    work: &[u16],
) -> Result<(), Refusal>
    ensures { found_number result ≡ flow_refusal mines.now events.now (desk p shown.now bits.now) work.now }
{
    let boards = boards_fit(p.settings, mines, shown, bits);
    let room = work_fits(p.settings, work);
    let whole = events.len() % 3 == 0;
    position_refusal(p, mines, shown, bits, boards & (room & whole))
}

// ---- what is answered ------------------------------------------------------------------------------------------------------------------

// What a test found as the number that the public calls and the C interface answer: 0 for none.
pub fn number_of(found: Result<(), Refusal>) -> u16
    ensures { result ≡ found_number found }
{
    match found {
        Ok(()) => 0,
        Err(refusal) => u16::from(refusal),
    }
}

// A refusal by its number, as `refuses` of rules/specs has it: the position as it was, and beside 22 and 23 the faulty cell.
pub fn refuse(n: u16, p: Position, mines: &[i8]) -> Answer
    requires { Placeable p.settings.rows p.settings.columns mines.now n }
    ensures { result ≡ refuses mines.now p n }
{
    Answer {
        number: n,
        place: boards::fault_of(p.settings.rows, p.settings.columns, mines, n),
        position: p,
        value: 0,
    }
}

// The same by its name.
pub fn refuse_by(refusal: Refusal, p: Position, mines: &[i8]) -> Answer
    requires { Placeable p.settings.rows p.settings.columns mines.now (refusal_number refusal) }
    ensures { result ≡ refuses mines.now p (refusal_number refusal) }
{
    refuse(u16::from(refusal), p, mines)
}

// What a check has found, 0 too, with that cell.
pub fn found(rows: u8, columns: u8, mines: &[i8], found: Result<(), Refusal>) -> Value
    requires { Placeable rows columns mines.now (found_number found) }
    ensures { result ≡ checks rows columns mines.now (found_number found) }
{
    let n = number_of(found);
    Value {
        number: n,
        place: boards::fault_of(rows, columns, mines, n),
        value: 0,
    }
}
