// The printout's lines, written into a lent buffer: each function writes its text from a place on and answers the place after it.
// The contracts cite rules/specs/Printout.antt and specs/ for the texts and Put of writing for what writing is; the caller gives the room.
#![tactic(auto)]

ghost use Rattle.std.specs.Prelude.{◌∷◌, [], ◌<◌, ◌≤◌, ◌+◌, ◌*◌, length};
ghost use Rattle.rules.specs.Printout.{line_of, word_line, word_counts, word_bv, game_line, nine_counts, row_lines};
ghost use Rattle.writing.specs.Put.{Room, Put, PutWithin};
ghost use Rattle.text.specs.Texts.{refused_text, end_text};
ghost use Rattle.text.specs.Rows.{RowsFit};

use rules::{Position, Settings};

// A row of the shown board.
fn put_row(out: &mut [u8], at: usize, cells: &[u8]) -> usize
    requires { (1 ≤ length cells.now) × Room (line_of cells.now) at out.old }
    ensures { Put (line_of cells.now) at out.old out.new result }
{
    let first = writing::put_decimal(out, at, u32::from(cells[0]));
    let last = writing::put_cells(out, first, &cells[1..]);
    writing::put_byte(out, last, b'\n')
}

// The line of the settings.
pub fn put_game_line(out: &mut [u8], at: usize, settings: Settings) -> usize
    requires { at + 21 ≤ length out.old }
    ensures { PutWithin 21 (game_line settings) at out.old out.new result }
{
    let rows = u32::from(settings.rows);
    let columns = u32::from(settings.columns);
    let mode = u32::from(settings.mode);
    let question = u32::from(settings.question);
    let ns = [rows, columns, mode, question];
    writing::put_word_line(out, at, b"game", &ns)
}

// The line of an event: its number, its answer, and the numbers of the game's and the mouse's state.
pub fn put_event_line(
    out: &mut [u8],
    at: usize,
    number: u16,
    answer: u16,
    game: u8,
    mouse: u8,
) -> usize
    requires { at + 20 ≤ length out.old }
    ensures { PutWithin 20 (line_of (number ∷ answer ∷ game ∷ mouse ∷ [])) at out.old out.new result }
{
    let ns = [u32::from(answer), u32::from(game), u32::from(mouse)];
    writing::put_line(out, at, u32::from(number), &ns)
}

// The line of the counts.
pub fn put_counts(out: &mut [u8], at: usize, p: Position) -> usize
    requires { at + 106 ≤ length out.old }
    ensures { PutWithin 106 (word_line word_counts (nine_counts p)) at out.old out.new result }
{
    let c = p.counts;
    let s = p.secrets;
    let ns = [
        c.left,
        c.right,
        c.double,
        c.lce,
        s.rce,
        c.dce,
        c.flag,
        s.solved_left,
        s.solved_chord,
    ];
    writing::put_word_line(out, at, b"counts", &ns)
}

// The line of the 3BV: the total, and what is left to solve.
pub fn put_bv(out: &mut [u8], at: usize, total: u32, left: u32) -> usize
    requires { at + 25 ≤ length out.old }
    ensures { PutWithin 25 (word_line word_bv (total ∷ left ∷ [])) at out.old out.new result }
{
    let ns = [total, left];
    writing::put_word_line(out, at, b"bv", &ns)
}

// The shown rows.
pub fn put_rows(out: &mut [u8], at: usize, rows: usize, columns: usize, shown: &[u8]) -> usize
    requires { RowsFit rows columns shown.now at out.old }
    ensures { PutWithin (4 * (rows * columns)) (row_lines rows columns shown.now) at out.old out.new result }
{
    let mut o = at;
    for row in shown[..rows * columns].chunks_exact(columns) {
        o = put_row(out, o, row);
    }
    o
}

// What is left after the last event: the counts, the 3BV, the shown rows.
pub fn put_end(out: &mut [u8], at: usize, p: Position, total: u32, left: u32, shown: &[u8]) -> usize
    requires { RowsFit p.settings.rows p.settings.columns shown.now (at + 131) out.old }
    ensures { PutWithin (131 + 4 * (p.settings.rows * p.settings.columns)) (end_text p total left shown.now) at out.old out.new result }
{
    let rows = usize::from(p.settings.rows);
    let columns = usize::from(p.settings.columns);
    let bv = put_counts(out, at, p);
    let board = put_bv(out, bv, total, left);
    put_rows(out, board, rows, columns, shown)
}

// The one line of a refused book.
pub fn put_refused(out: &mut [u8], at: usize, number: u16, place: usize) -> usize
    requires { (place < 4294967296) × (at + 33 ≤ length out.old) }
    ensures { PutWithin 33 (refused_text number place) at out.old out.new result }
{
    let numbers = [u32::from(number)];
    let places = [place as u32];
    let first = writing::put_bytes(out, at, b"refused");
    let next = writing::put_spaced(out, first, &numbers);
    writing::put_word_line(out, next, b" at", &places)
}
