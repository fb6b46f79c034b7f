// The library for the practice unit: the trainer's calls under plain names, over lent bytes and a flat score. Every byte pattern is taken
// (specs/Unit.antt).
#![tactic(auto)]

ghost use Rattle.std.specs.Prelude.{◌≡◌};
ghost use Rattle.unit.specs.Unit.{place_in, score_in, flat_score, flat_hint, flat_advice, HintIs, AskIs, ReportIs};

use rules::{Advice, Hint, Place, Score};

// The score: 6 bytes without padding. The latest hint's cell is two bytes, 255 255 where none lives.
#[repr(C)]
#[derive(Clone, Copy)]
pub struct FlatScore {
    pub asked: u16,
    pub followed: u16,
    pub row: u8,
    pub column: u8,
}

// A hint: 6 bytes without padding. The cell and its number's cell are two bytes each, 255 255 where there is none.
#[repr(C)]
#[derive(Clone, Copy)]
pub struct FlatHint {
    pub number: u16,
    pub row: u8,
    pub column: u8,
    pub by_row: u8,
    pub by_column: u8,
}

// What a question gives: 12 bytes without padding.
#[repr(C)]
#[derive(Clone, Copy)]
pub struct FlatAdvice {
    pub hint: FlatHint,
    pub score: FlatScore,
}

// ---- what the bytes mean ---------------------------------------------------------------------------------------------------------------

fn place_in(row: u8, column: u8) -> Place
    ensures { result ≡ place_in row column }
{
    match (row, column) {
        (255, 255) => Place::Nowhere,
        _ => Place::At { row, column },
    }
}

impl From<FlatScore> for Score {
    ghost from_gives = { λ f s. s ≡ score_in f };

    fn from(f: FlatScore) -> Score {
        Score {
            asked: f.asked,
            followed: f.followed,
            hint: place_in(f.row, f.column),
        }
    }
}

impl From<Score> for FlatScore {
    ghost from_gives = { λ s f. f ≡ flat_score s };

    fn from(score: Score) -> FlatScore {
        FlatScore {
            asked: score.asked,
            followed: score.followed,
            row: rules::row_byte(score.hint),
            column: rules::column_byte(score.hint),
        }
    }
}

impl From<Hint> for FlatHint {
    ghost from_gives = { λ h f. f ≡ flat_hint h };

    fn from(hint: Hint) -> FlatHint {
        let none = FlatHint {
            number: 0,
            row: 255,
            column: 255,
            by_row: 255,
            by_column: 255,
        };
        match hint {
            Hint::Cell {
                row,
                column,
                by_row,
                by_column,
            } => FlatHint {
                number: 0,
                row,
                column,
                by_row,
                by_column,
            },
            Hint::Nothing => none,
            Hint::Refused(n) => FlatHint { number: n, ..none },
        }
    }
}

impl From<Advice> for FlatAdvice {
    ghost from_gives = { λ a f. f ≡ flat_advice a };

    fn from(a: Advice) -> FlatAdvice {
        FlatAdvice {
            hint: FlatHint::from(a.hint),
            score: FlatScore::from(a.score),
        }
    }
}

// ---- the calls -------------------------------------------------------------------------------------------------------------------------

// A hint on a shown board: 20, 21, 261.
#[unsafe(no_mangle)]
pub extern "C" fn lmt_hint(rows: u8, columns: u8, shown: &[u8]) -> FlatHint
    ensures { HintIs rows columns shown.now result }
{
    FlatHint::from(trainer::hint_on(rows, columns, shown))
}

// A question, which counts: 20, 21, 261. A refused one gives the score back.
#[unsafe(no_mangle)]
pub extern "C" fn lmt_ask(f: FlatScore, rows: u8, columns: u8, shown: &[u8]) -> FlatAdvice
    ensures { AskIs f rows columns shown.now result }
{
    FlatAdvice::from(trainer::ask(Score::from(f), rows, columns, shown))
}

// A report of an event: its pointer, and how many cells it opened.
#[unsafe(no_mangle)]
pub extern "C" fn lmt_report(f: FlatScore, row: u8, column: u8, opened: u32) -> FlatScore
    ensures { ReportIs f row column opened result }
{
    FlatScore::from(trainer::report(Score::from(f), row, column, opened))
}
