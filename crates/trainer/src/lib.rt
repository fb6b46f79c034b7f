// The trainer: a hint on a shown board, and the score of hints asked for and followed. No function here, and none that it calls, is given a mine board.
// The contracts cite rules/specs/Trainer.antt.
#![tactic(auto)]

ghost use Rattle.std.specs.Prelude.{◌≡◌, ◌*◌, ◌/◌, ◌%◌, ◌<◌, length};
ghost use Rattle.cells.specs.Ground.{Sized};
ghost use Rattle.rules.specs.Trainer.{justifies, offered, offered_cell, justifier, hint_at, offer_of, one_more_of, points_at, after_hint, HintIs, AskIs, ReportIs};
ghost use Rattle.trainer.specs.Found.{found};

use rules::{Advice, Hint, Place, Score};

// ---- a hint ----------------------------------------------------------------------------------------------------------------------------

// An open number 1 to 8 with exactly that many flags around it; off the board there is none.
fn justifies_at(shown: &[u8], rows: usize, columns: usize, cell: usize) -> bool
    requires sized { Sized rows columns }
    requires shown_len { length shown.now ≡ rows * columns }
    ensures { result ≡ justifies rows columns shown.now cell }
{
    if shown.len() <= cell {
        return false;
    }
    let v = shown[cell];
    if v < 1 {
        return false;
    }
    if 8 < v {
        return false;
    }
    let seen = cells::shown_around(shown, rows, columns, cell / columns, cell % columns);
    seen.flags == v
}

// Which neighbour of a cell, in row order, is the first that justifies it.
fn justifier_of(shown: &[u8], rows: usize, columns: usize, cell: usize) -> Option<usize>
    requires sized { Sized rows columns }
    requires shown_len { length shown.now ≡ rows * columns }
    requires cell_bound { cell < rows * columns }
    ensures { result ≡ found 8 (justifier rows columns shown.now cell) }
{
    let row = cell / columns;
    let column = cell % columns;
    for k in 0..8 {
        let q = cells::neighbour_at(rows, columns, row, column, k);
        let fine = justifies_at(shown, rows, columns, q);
        if fine {
            return Some(k);
        }
    }
    None
}

// A cell showing 10 with some number beside it that justifies it.
fn offered_at(shown: &[u8], rows: usize, columns: usize, cell: usize) -> bool
    requires sized { Sized rows columns }
    requires shown_len { length shown.now ≡ rows * columns }
    requires cell_bound { cell < rows * columns }
    ensures { result ≡ offered rows columns shown.now cell }
{
    if shown[cell] != 10 {
        return false;
    }
    justifier_of(shown, rows, columns, cell).is_some()
}

// The first cell offered.
fn offered_cell(shown: &[u8], rows: usize, columns: usize) -> Option<usize>
    requires sized { Sized rows columns }
    requires shown_len { length shown.now ≡ rows * columns }
    ensures { result ≡ found (rows * columns) (offered_cell rows columns shown.now) }
{
    for i in 0..shown.len() {
        let fine = offered_at(shown, rows, columns, i);
        if fine {
            return Some(i);
        }
    }
    None
}

// A cell's row and its column, as bytes.
fn place_of(rows: usize, columns: usize, cell: usize) -> (u8, u8)
    requires sized { Sized rows columns }
    requires cell_bound { cell < rows * columns }
    ensures { (result.0 ≡ cell / columns) × (result.1 ≡ cell % columns) }
{
    let row = (cell / columns) as u8;
    let column = (cell % columns) as u8;
    (row, column)
}

// The hint of an offered cell.
fn hint_at(shown: &[u8], rows: usize, columns: usize, cell: usize) -> Hint
    requires sized { Sized rows columns }
    requires shown_len { length shown.now ≡ rows * columns }
    requires cell_bound { cell < rows * columns }
    requires cell_bound_2 { justifier rows columns shown.now cell < 8 }
    ensures { result ≡ hint_at rows columns shown.now cell }
{
    let k = justifier_of(shown, rows, columns, cell).unwrap();
    let q = cells::neighbour_at(rows, columns, cell / columns, cell % columns, k);
    let (row, column) = place_of(rows, columns, cell);
    let (by_row, by_column) = place_of(rows, columns, q);
    Hint::Cell {
        row,
        column,
        by_row,
        by_column,
    }
}

// The first cell offered with the first number that justifies it, or nothing to show.
fn offer(shown: &[u8], rows: usize, columns: usize) -> Hint
    requires sized { Sized rows columns }
    requires shown_len { length shown.now ≡ rows * columns }
    ensures { result ≡ offer_of rows columns shown.now }
{
    match offered_cell(shown, rows, columns) {
        Some(i) => hint_at(shown, rows, columns, i),
        None => Hint::Nothing,
    }
}

// A HINT: refused with 20, 21 or 261; else the first cell offered, or nothing to show.
pub fn hint_on(rows: u8, columns: u8, shown: &[u8]) -> Hint
    ensures { HintIs rows columns shown.now result }
{
    match showing::shown_refusal(rows, columns, shown, true) {
        Ok(()) => offer(shown, usize::from(rows), usize::from(columns)),
        // A number, since it is the one that the definition `hint_number` gives back.
        Err(refusal) => Hint::Refused(u16::from(refusal)),
    }
}

// ---- the score -------------------------------------------------------------------------------------------------------------------------

// One more, at most 65,535.
fn one_more(n: u16) -> u16
    ensures { result ≡ one_more_of n }
{
    n.saturating_add(1)
}

// The hint lives, and its cell is the pointer's.
fn points_at(hint: Place, row: u8, column: u8) -> bool
    ensures { result ≡ points_at hint row column }
{
    matches!(hint, Place::At { row: r, column: c } if (r == row) & (c == column))
}

// Asking counts; a cell replaces the hint before it, nothing drops it; a refused question changes nothing.
fn after_hint(score: Score, hint: Hint) -> Score
    ensures { result ≡ after_hint hint score }
{
    let latest = match hint {
        Hint::Cell { row, column, .. } => Place::At { row, column },
        Hint::Nothing => Place::Nowhere,
        Hint::Refused(_) => return score,
    };
    Score {
        asked: one_more(score.asked),
        hint: latest,
        ..score
    }
}

// A QUESTION: the hint on a shown board, and the score after it.
pub fn ask(score: Score, rows: u8, columns: u8, shown: &[u8]) -> Advice
    ensures { AskIs score rows columns shown.now result }
{
    let hint = hint_on(rows, columns, shown);
    let after = after_hint(score, hint);
    Advice { hint, score: after }
}

// A REPORT of an event: its pointer, and how many cells it opened.
pub fn report(score: Score, row: u8, column: u8, opened: u32) -> Score
    ensures { ReportIs score row column opened result }
{
    if opened == 0 {
        return score;
    }
    let spent = Score {
        hint: Place::Nowhere,
        ..score
    };
    if !points_at(score.hint, row, column) {
        return spent;
    }
    Score {
        followed: one_more(score.followed),
        ..spent
    }
}
