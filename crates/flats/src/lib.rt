// The flat forms of a position, an answer, a value and a book, which cross into C, and what their bytes mean (specs/Flat.antt).
// Every byte pattern is taken; a state byte that means nothing is read as the last state, and `means` says that there is one.
#![tactic(auto)]

ghost use Rattle.std.specs.Prelude.{◌≡◌};
ghost use Rattle.flats.specs.Flat.{means, settings_of, position_in, flat_of, gives, flat_answer, flat_value, flat_book};

use rules::{
    Answer, Book, Counts, GameState, MouseState, Place, Position, Secrets, Settings, Value,
};

// The position, with its states as bytes: 56 bytes without padding, so that a refusal can give every one of them back. `double` is a word of C.
#[repr(C)]
#[derive(Clone, Copy)]
pub struct FlatPosition {
    pub rows: u8,
    pub columns: u8,
    pub mode: u8,
    pub question: u8,
    pub game: u8,
    pub mouse: u8,
    pub middle: u8,
    pub rules: u8,
    pub preflags: u32,
    pub events: u32,
    pub left: u32,
    pub right: u32,
    pub doubles: u32,
    pub lce: u32,
    pub dce: u32,
    pub flag: u32,
    pub unopened: u32,
    pub rce: u32,
    pub solved_left: u32,
    pub solved_chord: u32,
}

// What a call on a position answers: 64 bytes without padding. The place is two bytes, 255 255 where there is none.
#[repr(C)]
#[derive(Clone, Copy)]
pub struct FlatAnswer {
    pub number: u16,
    pub row: u8,
    pub column: u8,
    pub position: FlatPosition,
    pub value: u32,
}

// What a call without one answers: 8 bytes, which pass in one register on x86-64 and on aarch64.
#[repr(C)]
#[derive(Clone, Copy)]
pub struct FlatValue {
    pub number: u16,
    pub row: u8,
    pub column: u8,
    pub value: u32,
}

// What a book says, or its first fault.
#[repr(C)]
#[derive(Clone, Copy)]
pub struct FlatBook {
    pub number: u16,
    pub rows: u8,
    pub columns: u8,
    pub mode: u8,
    pub question: u8,
    pub rules: u8,
    pub place: usize,
    pub mines_at: usize,
    pub mines: usize,
    pub events_at: usize,
    pub events: usize,
}

// ---- what the bytes mean ---------------------------------------------------------------------------------------------------------------

impl FlatPosition {
    // Does every state byte mean something?
    #[tactic(auto, unfolding(crate::specs::Flat::means))]
    pub fn means(self) -> bool
        ensures { result ≡ means self }
    {
        (self.question <= 1) & ((self.game <= 4) & ((self.mouse <= 6) & (self.middle <= 1)))
    }
}

// The five settings come one by one: so the C interface hands them to a setup.
pub fn settings_of(rows: u8, columns: u8, mode: u8, question: u8, rules: u8) -> Settings
    ensures { result ≡ settings_of rows columns mode question rules }
{
    Settings {
        rows,
        columns,
        mode,
        question: question != 0,
        rules,
    }
}

// The position that the bytes mean; of one that means nothing, the last state.
impl From<FlatPosition> for Position {
    ghost from_gives = { λ f p. p ≡ position_in f };

    fn from(f: FlatPosition) -> Position {
        Position {
            settings: settings_of(f.rows, f.columns, f.mode, f.question, f.rules),
            game: GameState::from(f.game),
            mouse: MouseState::from(f.mouse),
            middle: f.middle != 0,
            preflags: f.preflags,
            events: f.events,
            counts: Counts {
                left: f.left,
                right: f.right,
                double: f.doubles,
                lce: f.lce,
                dce: f.dce,
                flag: f.flag,
                unopened: f.unopened,
            },
            secrets: Secrets {
                rce: f.rce,
                solved_left: f.solved_left,
                solved_chord: f.solved_chord,
            },
        }
    }
}

// ---- the bytes -------------------------------------------------------------------------------------------------------------------------

impl From<Position> for FlatPosition {
    ghost from_gives = { λ p f. f ≡ flat_of p };

    fn from(p: Position) -> FlatPosition {
        FlatPosition {
            rows: p.settings.rows,
            columns: p.settings.columns,
            mode: p.settings.mode,
            question: u8::from(p.settings.question),
            game: u8::from(p.game),
            mouse: u8::from(p.mouse),
            middle: u8::from(p.middle),
            rules: p.settings.rules,
            preflags: p.preflags,
            events: p.events,
            left: p.counts.left,
            right: p.counts.right,
            doubles: p.counts.double,
            lce: p.counts.lce,
            dce: p.counts.dce,
            flag: p.counts.flag,
            unopened: p.counts.unopened,
            rce: p.secrets.rce,
            solved_left: p.secrets.solved_left,
            solved_chord: p.secrets.solved_chord,
        }
    }
}

impl FlatAnswer {
    // A number with its place and a value, beside a position that is flat already.
    pub fn new(number: u16, place: Place, position: FlatPosition, value: u32) -> FlatAnswer
        ensures { result ≡ gives number place position value }
    {
        FlatAnswer {
            number,
            row: rules::row_byte(place),
            column: rules::column_byte(place),
            position,
            value,
        }
    }
}

impl From<Answer> for FlatAnswer {
    ghost from_gives = { λ a f. f ≡ flat_answer a };

    fn from(a: Answer) -> FlatAnswer {
        let position = FlatPosition::from(a.position);
        FlatAnswer::new(a.number, a.place, position, a.value)
    }
}

impl From<Value> for FlatValue {
    ghost from_gives = { λ v f. f ≡ flat_value v };

    fn from(v: Value) -> FlatValue {
        FlatValue {
            number: v.number,
            row: rules::row_byte(v.place),
            column: rules::column_byte(v.place),
            value: v.value,
        }
    }
}

impl From<Book> for FlatBook {
    ghost from_gives = { λ b f. f ≡ flat_book b };

    fn from(b: Book) -> FlatBook {
        FlatBook {
            number: b.number,
            rows: b.settings.rows,
            columns: b.settings.columns,
            mode: b.settings.mode,
            question: u8::from(b.settings.question),
            rules: b.settings.rules,
            place: b.place,
            mines_at: b.mines_at,
            mines: b.mines,
            events_at: b.events_at,
            events: b.events,
        }
    }
}
