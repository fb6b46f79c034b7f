// The reader of the game book: what a byte string says as a book, and the parts of it that hold the mines and the event records.
// The contracts cite the format of rules/specs/Book.antt and the parts of specs/Parts.antt; every function takes every byte string.
// Each section answers a `Book`, refused or not, as its definition does (`events_from`, `mines_section`, `sections_of`): a `Result` between them
// would have to be taken back into a `Book` in every contract.
#![tactic(auto)]

ghost use Rattle.std.specs.Prelude.{◌≡◌, ◌<◌, ◌≤◌, ◌+◌, ◌*◌, length};
ghost use Rattle.rules.specs.Grid.{cell_of};
ghost use Rattle.rules.specs.Refusals.{refusal_number};
ghost use Rattle.rules.specs.Book.{word_at, refused_book, rules_at, mine_count_at, events_from, mines_section, sections_of, book_ends, book_of, part_of};
ghost use Rattle.book.specs.Parts.{mine_fits};
ghost use Rattle.book.specs.Laid.{Counted};

use rules::{Book, Refusal, Settings};

// The most events a book may have.
pub const MOST: usize = 8192;

// The bytes of the longest book: settings, at most 2,047 mines, events.
pub const LONGEST: usize = 6 + (2 + 2 * 2047) + (2 + 3 * MOST);

// A two-byte count, low byte first.
fn word_at(s: &[u8], at: usize) -> usize
    requires { at + 2 ≤ length s.now }
    ensures { (result ≡ word_at s.now at) × (result < 65536) }
{
    usize::from(s[at]) + 256 * usize::from(s[at + 1])
}

// No book: the number of why, and at which byte.
pub fn refused(number: u16, place: usize) -> Book
    ensures { result ≡ refused_book number place }
{
    let settings = Settings {
        rows: 0,
        columns: 0,
        mode: 0,
        question: false,
        rules: 0,
    };
    Book {
        number,
        place,
        settings,
        mines_at: 0,
        mines: 0,
        events_at: 0,
        events: 0,
    }
}

// The same, by the refusal's name.
pub fn refuse(refusal: Refusal, place: usize) -> Book
    ensures { result ≡ refused_book (refusal_number refusal) place }
{
    refused(u16::from(refusal), place)
}

// The number of a cell: as in `mouse`, which does not lie below.
fn cell(row: u8, column: u8, columns: u8) -> usize
    ensures { (result ≡ cell_of columns row column) × (result < 65536) }
{
    usize::from(row) * usize::from(columns) + usize::from(column)
}

// Is a mine on the board, and its cell not before `next`?
fn mine_fits(row: u8, column: u8, rows: u8, columns: u8, next: usize) -> bool
    ensures { result ≡ mine_fits rows columns row column next }
{
    if rows <= row {
        return false;
    }
    if columns <= column {
        return false;
    }
    next <= cell(row, column, columns)
}

// The events section at `at`.
fn read_events(s: &[u8], at: usize, settings: Settings, mines_at: usize, mines: usize) -> Book
    requires { at ≤ length s.now }
    ensures { result ≡ events_from s.now at settings mines_at mines }
{
    if s.len() < at + 2 {
        return refuse(Refusal::Short, s.len());
    }
    let n = word_at(s, at);
    if MOST < n {
        return refuse(Refusal::TooMany, at);
    }
    let first = at + 2;
    let end = first + 3 * n;
    if s.len() < end {
        return refuse(Refusal::Short, s.len());
    }
    Book {
        number: 0,
        place: 0,
        settings,
        mines_at,
        mines,
        events_at: first,
        events: n,
    }
}

// The mines section at `at`, and what follows it. Each mine's two bytes are taken before they are tested.
fn read_mines(s: &[u8], at: usize, settings: Settings) -> Book
    requires { at ≤ length s.now }
    ensures { result ≡ mines_section s.now at settings }
{
    let Settings { rows, columns, .. } = settings;
    if s.len() < at + 2 {
        return refuse(Refusal::Short, s.len());
    }
    let mines = word_at(s, at);
    if usize::from(rows) * usize::from(columns) <= mines {
        return refuse(Refusal::AllMines, at);
    }
    let from = at + 2;
    let mut place = from;
    let mut next = 0usize;
    for _n in 0..mines {
        if s.len() < place + 2 {
            return refuse(Refusal::Short, s.len());
        }
        let row = s[place];
        let column = s[place + 1];
        if !mine_fits(row, column, rows, columns, next) {
            return refuse(Refusal::MineList, place);
        }
        next = cell(row, column, columns) + 1;
        place += 2;
    }
    read_events(s, place, settings, from, mines)
}

// The rules number of settings whose bytes are there: 1 unless a fifth byte has it.
fn rules_at(s: &[u8]) -> u8
    requires { Counted s.now }
    ensures { result ≡ rules_at s.now }
{
    if s[0] == 5 { s[5] } else { 1 }
}

// The settings, whose bytes are there up to the mine count at `at`, and what follows them.
fn read_settings(s: &[u8], at: usize) -> Book
    requires { Counted s.now × (at ≡ mine_count_at s.now) }
    ensures { result ≡ sections_of s.now }
{
    let rows = s[1];
    let columns = s[2];
    let mode = s[3];
    let question = s[4];
    let rules = rules_at(s);
    let question_right = question <= 1;
    let size_right = cells::size_ok(rows, columns);
    let mode_right = cells::mode_ok(mode);
    let rules_right = cells::rules_ok(rules);
    if !question_right {
        return refuse(Refusal::Byte, 4);
    }
    if !size_right {
        return refuse(Refusal::Size, 1);
    }
    if !mode_right {
        return refuse(Refusal::Mode, 3);
    }
    if !rules_right {
        return refuse(Refusal::Rules, 5);
    }
    let settings = Settings {
        rows,
        columns,
        mode,
        question: question == 1,
        rules,
    };
    read_mines(s, at, settings)
}

// The three sections, up to the last event, or their first fault with the byte place. What follows them is not read.
pub fn read_sections(s: &[u8]) -> Book
    ensures { result ≡ sections_of s.now }
{
    if s.len() < 1 {
        return refuse(Refusal::Short, s.len());
    }
    let count = s[0];
    if !((count == 4) | (count == 5)) {
        return refuse(Refusal::Byte, 0);
    }
    let at = 1 + usize::from(count);
    if s.len() < at {
        return refuse(Refusal::Short, s.len());
    }
    read_settings(s, at)
}

// The book `b`, whose last section ends at `end`, unless bytes are left over.
pub fn ended(s: &[u8], end: usize, b: Book) -> Book
    ensures { result ≡ book_ends s.now end b }
{
    if b.number != 0 {
        return b;
    }
    if end < s.len() {
        return refuse(Refusal::Surplus, end);
    }
    b
}

// What a byte string says as a book, or its first fault with the byte place.
pub fn read_book(s: &[u8]) -> Book
    ensures { result ≡ book_of s.now }
{
    let b = read_sections(s);
    let end = b.events_at + 3 * b.events;
    ended(s, end, b)
}

// The bytes of `count` records of so many bytes each, from `at` on, without a copy; none where they do not fit.
fn part(s: &[u8], at: usize, size: usize, count: usize) -> &[u8]
    ensures { result.now ≡ part_of s.now at (size * count) }
{
    let Some(n) = size.checked_mul(count) else {
        return &s[..0];
    };
    if s.len() < at {
        return &s[..0];
    }
    if s.len() - at < n {
        return &s[..0];
    }
    let end = at + n;
    &s[at..end]
}

// The mine list of a book, a row byte and a column byte for each mine; none where the numbers of `b` do not fit `s`.
pub fn mines(s: &[u8], b: Book) -> &[u8]
    ensures { result.now ≡ part_of s.now b.mines_at (2 * b.mines) }
{
    part(s, b.mines_at, 2, b.mines)
}

// The event records of a book, three bytes each; none where the numbers of `b` do not fit `s`.
pub fn events(s: &[u8], b: Book) -> &[u8]
    ensures { result.now ≡ part_of s.now b.events_at (3 * b.events) }
{
    part(s, b.events_at, 3, b.events)
}
