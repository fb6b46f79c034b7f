// The game's nouns: the position by value, the event whose cases hold a pointer, the answers; and the position with one part changed.
// The contracts cite specs/States.antt, which gives document 01's number for every state.
#![tactic(auto)]

ghost use Rattle.std.specs.Prelude.{◌≡◌, ◌≤◌};
ghost use Rattle.rules.specs.States.{game_number, game_at, mouse_number, mouse_at, with_game, with_mouse, with_middle, with_preflags, with_events, with_left, with_right, with_double, with_lce, with_dce, with_flag, with_unopened, with_rce, with_solved_left, with_solved_chord, zeroed, fresh_of};
ghost use Rattle.rules.specs.Refusals.{refusal_number};
ghost use Rattle.rules.specs.Board.{row_byte, column_byte};

#[derive(Clone, Copy, PartialEq, Eq)]
pub enum GameState {
    Ready,
    Playing,
    Win,
    Loss,
    PreFlaging,
}

// The left and the right button, up or down.
#[derive(Clone, Copy, PartialEq, Eq)]
pub enum MouseState {
    UpUp,
    UpDown,
    UpDownNotFlag,
    DownUp,
    Chording,
    ChordingNotFlag,
    DownUpAfterChording,
}

// Off the board is a pointer of its own and no missing one, which is the None of `mouse::decode`.
#[derive(Clone, Copy)]
pub enum Pointer {
    Cell { row: u8, column: u8 },
    Off,
}

// A plain event: l, r and m are resolved before one is made.
#[derive(Clone, Copy)]
pub enum Event {
    Lc(Pointer),
    Lr(Pointer),
    Rc(Pointer),
    Rr(Pointer),
    Mv(Pointer),
    Mc(Pointer),
    Mr(Pointer),
    Cc(Pointer),
    Pf(Pointer),
    Unknown { code: u8, pointer: Pointer },
}

// The league's rules are a number and no enum, since every byte is taken: 1 and 2 are allowed.
#[derive(Clone, Copy, PartialEq, Eq)]
pub struct Settings {
    pub rows: u8,
    pub columns: u8,
    pub mode: u8,
    pub question: bool,
    pub rules: u8,
}

// What a display may be handed during a game.
#[derive(Clone, Copy)]
pub struct Counts {
    pub left: u32,
    pub right: u32,
    pub double: u32,
    pub lce: u32,
    pub dce: u32,
    pub flag: u32,
    // Safe cells that do not show 0 to 8.
    pub unopened: u32,
}

// The counts that know hidden mines: shown only after the game.
#[derive(Clone, Copy)]
pub struct Secrets {
    pub rce: u32,
    pub solved_left: u32,
    pub solved_chord: u32,
}

#[derive(Clone, Copy)]
pub struct Position {
    pub settings: Settings,
    pub game: GameState,
    pub mouse: MouseState,
    pub middle: bool,
    pub preflags: u32,
    pub events: u32,
    pub counts: Counts,
    pub secrets: Secrets,
}

// What an action of the hand answers, and the position that it leaves. The answer is a number, since `Play` of rules/specs has 0 to 4 and the refusals in one.
#[derive(Clone, Copy)]
pub struct Played {
    pub answer: u16,
    pub position: Position,
}

// Where the fault is that a refusal is for: a cell beside 22 and 23, and beside no other number.
#[derive(Clone, Copy)]
pub enum Place {
    Nowhere,
    At { row: u8, column: u8 },
}

// Why a call is refused; the number that every face answers for it is its `u16`.
#[derive(Clone, Copy)]
pub enum Refusal {
    // of a board, its settings and what is lent
    Size,
    Length,
    Value,
    Number,
    AllMines,
    Mode,
    // of an event
    Pointer,
    Full,
    PreFlag,
    Event,
    Forbidden,
    // of a game book
    Short,
    Byte,
    MineList,
    Surplus,
    TooMany,
    Rules,
    // of a picture
    Mark,
    Measure,
    Maximum,
    Cell,
    End,
    // of a drag
    Stop,
    Stride,
    Room,
    // of a claims section
    Claims,
    // of a position
    Shown,
    Bits,
    Counts,
    States,
}

// What a public call answers: a number with its place, the position, and beside them the value asked for, 0 where none is.
// One record for an answer and a refusal, since `answers` and `refuses` of rules/specs and the C interface have one.
#[derive(Clone, Copy)]
pub struct Answer {
    pub number: u16,
    pub place: Place,
    pub position: Position,
    pub value: u32,
}

// What a public call without a position answers; one record too, by `checks` of rules/specs and the C interface.
#[derive(Clone, Copy)]
pub struct Value {
    pub number: u16,
    pub place: Place,
    pub value: u32,
}

// Cells of the board, at most eight: an array with a count, passed by value from the chord to opening and counting, without a heap.
#[derive(Clone, Copy)]
pub struct Cells {
    pub at: [u16; 8],
    pub n: usize,
    pub ghost few: { n ≤ 8 },
}

// What a book says: its settings, and where its mines and its events stand; or the first fault, with its byte place.
// One record with places, since `book_of` of rules/specs gives one and the C interface hands it out.
#[derive(Clone, Copy)]
pub struct Book {
    pub number: u16,
    pub place: usize,
    pub settings: Settings,
    pub mines_at: usize,
    pub mines: usize,
    pub events_at: usize,
    pub events: usize,
}

// What a picture says: its rows and its columns; or the first fault. One record, since `ReadPictureIs` of rules/specs is about one.
#[derive(Clone, Copy)]
pub struct Picture {
    pub number: u16,
    pub rows: u8,
    pub columns: u8,
}

// What a question is answered: a cell to open with its number's cell, nothing to show, or the number of a refusal, as `HintIs` of rules/specs has it.
#[derive(Clone, Copy)]
pub enum Hint {
    Cell {
        row: u8,
        column: u8,
        by_row: u8,
        by_column: u8,
    },
    Nothing,
    Refused(u16),
}

// Hints asked for, hints followed, and the latest hint's cell if it lives.
#[derive(Clone, Copy)]
pub struct Score {
    pub asked: u16,
    pub followed: u16,
    pub hint: Place,
}

// What a question gives: the hint, and the score after it.
#[derive(Clone, Copy)]
pub struct Advice {
    pub hint: Hint,
    pub score: Score,
}

// What is said of a visiting book and its claims; events and claims are numbered from 1.
#[derive(Clone, Copy)]
pub enum Verdict {
    Accepted,
    Refused { number: u16, place: usize },
    EventRefused { event: u32 },
    NotEnded,
    ClaimDiffers { claim: u32, says: u32, is: u32 },
}

// What a book without claims gets: the verdict on it, and its claims section.
#[derive(Clone, Copy)]
pub struct Claim {
    pub verdict: Verdict,
    pub section: [u8; 38],
}

impl From<GameState> for u8 {
    ghost from_gives = { λ g n. n ≡ game_number g };

    fn from(g: GameState) -> u8 {
        match g {
            GameState::Ready => 0,
            GameState::Playing => 1,
            GameState::Win => 2,
            GameState::Loss => 3,
            GameState::PreFlaging => 4,
        }
    }
}

impl From<MouseState> for u8 {
    ghost from_gives = { λ m n. n ≡ mouse_number m };

    fn from(m: MouseState) -> u8 {
        match m {
            MouseState::UpUp => 0,
            MouseState::UpDown => 1,
            MouseState::UpDownNotFlag => 2,
            MouseState::DownUp => 3,
            MouseState::Chording => 4,
            MouseState::ChordingNotFlag => 5,
            MouseState::DownUpAfterChording => 6,
        }
    }
}

// Every byte from 4 on is the last state.
impl From<u8> for GameState {
    ghost from_gives = { λ n g. g ≡ game_at n };

    #[tactic(auto, unfolding(crate::specs::States::game_at))]
    fn from(n: u8) -> GameState {
        match n {
            0 => GameState::Ready,
            1 => GameState::Playing,
            2 => GameState::Win,
            3 => GameState::Loss,
            _ => GameState::PreFlaging,
        }
    }
}

// Every byte from 6 on is the last state.
impl From<u8> for MouseState {
    ghost from_gives = { λ n m. m ≡ mouse_at n };

    #[tactic(auto, unfolding(crate::specs::States::mouse_at))]
    fn from(n: u8) -> MouseState {
        match n {
            0 => MouseState::UpUp,
            1 => MouseState::UpDown,
            2 => MouseState::UpDownNotFlag,
            3 => MouseState::DownUp,
            4 => MouseState::Chording,
            5 => MouseState::ChordingNotFlag,
            _ => MouseState::DownUpAfterChording,
        }
    }
}

impl From<Refusal> for u16 {
    ghost from_gives = { λ r n. n ≡ refusal_number r };

    fn from(r: Refusal) -> u16 {
        match r {
            Refusal::Size => 20,
            Refusal::Length => 21,
            Refusal::Value => 22,
            Refusal::Number => 23,
            Refusal::AllMines => 24,
            Refusal::Mode => 25,
            Refusal::Pointer => 30,
            Refusal::Full => 31,
            Refusal::PreFlag => 32,
            Refusal::Event => 33,
            Refusal::Forbidden => 34,
            Refusal::Short => 40,
            Refusal::Byte => 41,
            Refusal::MineList => 42,
            Refusal::Surplus => 43,
            Refusal::TooMany => 44,
            Refusal::Rules => 45,
            Refusal::Mark => 60,
            Refusal::Measure => 61,
            Refusal::Maximum => 62,
            Refusal::Cell => 63,
            Refusal::End => 64,
            Refusal::Stop => 70,
            Refusal::Stride => 71,
            Refusal::Room => 72,
            Refusal::Claims => 80,
            Refusal::Shown => 261,
            Refusal::Bits => 262,
            Refusal::Counts => 263,
            Refusal::States => 264,
        }
    }
}

impl Cells {
    ghost use Rattle.std.specs.Prelude.{[], ◌∷◌, ◌++◌, ◌<◌, length};
    ghost use Rattle.rules.specs.Cells.{cell_list};

    pub fn new() -> Cells
        ensures { cell_list result ≡ [] }
    {
        Cells { at: [0; 8], n: 0 }
    }

    pub fn only(cell: u16) -> Cells
        ensures { cell_list result ≡ cell ∷ [] }
    {
        Cells {
            at: [cell, 0, 0, 0, 0, 0, 0, 0],
            n: 1,
        }
    }

    pub fn push(&mut self, cell: u16)
        requires { length (cell_list self.old) < 8 }
        ensures { cell_list self.new ≡ cell_list self.old ++ cell ∷ [] }
    {
        self.at[self.n] = cell;
        self.n += 1;
    }

    pub fn as_slice(&self) -> &[u16]
        ensures { result.now ≡ cell_list self.now }
    {
        &self.at[..self.n]
    }
}

pub fn row_byte(x: Place) -> u8
    ensures { result ≡ row_byte x }
{
    match x {
        Place::Nowhere => 255,
        Place::At { row, column: _ } => row,
    }
}

pub fn column_byte(x: Place) -> u8
    ensures { result ≡ column_byte x }
{
    match x {
        Place::Nowhere => 255,
        Place::At { row: _, column } => column,
    }
}

// The position of a game that nobody has touched, with so many safe cells.
pub fn fresh(settings: Settings, unopened: u32) -> Position
    ensures { result ≡ fresh_of settings unopened }
{
    let counts = Counts {
        left: 0,
        right: 0,
        double: 0,
        lce: 0,
        dce: 0,
        flag: 0,
        unopened,
    };
    let secrets = Secrets {
        rce: 0,
        solved_left: 0,
        solved_chord: 0,
    };
    Position {
        settings,
        game: GameState::Ready,
        mouse: MouseState::UpUp,
        middle: false,
        preflags: 0,
        events: 0,
        counts,
        secrets,
    }
}

impl Position {
    pub fn with_game(self, g: GameState) -> Position
        ensures { result ≡ with_game self g }
    {
        Position { game: g, ..self }
    }

    pub fn with_mouse(self, m: MouseState) -> Position
        ensures { result ≡ with_mouse self m }
    {
        Position { mouse: m, ..self }
    }

    pub fn with_middle(mut self, b: bool) -> Position
        ensures { result ≡ with_middle self b }
    {
        self.middle = b;
        self
    }

    pub fn with_preflags(mut self, n: u32) -> Position
        ensures { result ≡ with_preflags self n }
    {
        self.preflags = n;
        self
    }

    pub fn with_events(mut self, n: u32) -> Position
        ensures { result ≡ with_events self n }
    {
        self.events = n;
        self
    }

    pub fn with_left(mut self, n: u32) -> Position
        ensures { result ≡ with_left self n }
    {
        self.counts.left = n;
        self
    }

    pub fn with_right(mut self, n: u32) -> Position
        ensures { result ≡ with_right self n }
    {
        self.counts.right = n;
        self
    }

    pub fn with_double(mut self, n: u32) -> Position
        ensures { result ≡ with_double self n }
    {
        self.counts.double = n;
        self
    }

    pub fn with_lce(mut self, n: u32) -> Position
        ensures { result ≡ with_lce self n }
    {
        self.counts.lce = n;
        self
    }

    pub fn with_dce(mut self, n: u32) -> Position
        ensures { result ≡ with_dce self n }
    {
        self.counts.dce = n;
        self
    }

    pub fn with_flag(mut self, n: u32) -> Position
        ensures { result ≡ with_flag self n }
    {
        self.counts.flag = n;
        self
    }

    pub fn with_unopened(mut self, n: u32) -> Position
        ensures { result ≡ with_unopened self n }
    {
        self.counts.unopened = n;
        self
    }

    pub fn with_rce(mut self, n: u32) -> Position
        ensures { result ≡ with_rce self n }
    {
        self.secrets.rce = n;
        self
    }

    pub fn with_solved_left(mut self, n: u32) -> Position
        ensures { result ≡ with_solved_left self n }
    {
        self.secrets.solved_left = n;
        self
    }

    pub fn with_solved_chord(mut self, n: u32) -> Position
        ensures { result ≡ with_solved_chord self n }
    {
        self.secrets.solved_chord = n;
        self
    }

    // Back to Ready with the counts cleared, but for the safe cells still closed, the solved counts, the pre-flag count and the events.
    pub fn zeroed(mut self) -> Position
        ensures { result ≡ zeroed self }
    {
        self.game = GameState::Ready;
        self.counts = Counts {
            left: 0,
            right: 0,
            double: 0,
            lce: 0,
            dce: 0,
            flag: 0,
            unopened: self.counts.unopened,
        };
        self.secrets.rce = 0;
        self
    }
}
