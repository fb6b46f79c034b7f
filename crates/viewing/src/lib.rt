// The reader of a picture, plain PGM. It takes every byte string and every room, and a refusal writes nothing: all is judged before a cell is written.
// The contracts cite rules/specs/Picture.antt.
#![tactic(auto)]

ghost use Rattle.std.specs.Prelude.{◌≡◌, ◌≤◌, length, drop};
ghost use Rattle.rules.specs.Picture.{next_cell, cell_values, cells_refusal, ReadPictureIs};
ghost use Rattle.rules.specs.Refusals.{refusal_number, found_number};
ghost use Rattle.writing.specs.Put.{Put};
ghost use Rattle.tokens.specs.Taken.{Taken};
ghost use Rattle.viewing.specs.Answers.{answered};

use heads::Head;
use rules::{Picture, Refusal};
use tokens::Number;

// The next cell: no comment stands among the cells.
fn cell_at(s: &[u8], from: usize) -> Result<Number, Refusal>
    ensures { Taken s.now 63 (next_cell (drop from s.now)) result }
{
    tokens::token(s, from, false, false, Refusal::Cell)
}

// Judges `n` cells, and then what follows them.
fn cells_fault(s: &[u8], from: usize, n: usize) -> Result<(), Refusal>
    ensures { found_number result ≡ cells_refusal n (drop from s.now) }
{
    let mut at = from;
    for _i in 0..n {
        let cell = cell_at(s, at)?;
        if !showing::is_shown(cell.value) {
            return Err(Refusal::Cell);
        }
        at = cell.next;
    }
    if tokens::skip(s, at, false) < s.len() {
        return Err(Refusal::End);
    }
    Ok(())
}

// `n` cells that have no fault, written to the front of the room.
fn take_cells(s: &[u8], from: usize, n: usize, cells: &mut [u8]) -> usize
    requires { (cells_refusal n (drop from s.now) ≡ 0) × (n ≤ length cells.old) }
    ensures { Put (cell_values n (drop from s.now)) 0 cells.old cells.new result }
{
    let mut at = from;
    for i in 0..n {
        let cell = cell_at(s, at).unwrap();
        writing::put_byte(cells, i, cell.value);
        at = cell.next;
    }
    n
}

// What stands before the cells of a picture that is read into the room.
fn take_picture(bytes: &[u8], cells: &mut [u8]) -> Result<Head, Refusal>
    ensures { ReadPictureIs bytes.now cells.old (answered result) cells.new }
{
    if cells.len() != 2048 {
        return Err(Refusal::Length);
    }
    let head = heads::read_head(bytes)?;
    let n = boards::cell_count(head.rows, head.columns);
    cells_fault(bytes, head.at, n)?;
    take_cells(bytes, head.at, n, cells);
    Ok(head)
}

// A `Picture` holds its number beside the size, since it is the type of the definition `ReadPictureIs`.
fn not_read(refusal: Refusal) -> Picture
    ensures { result ≡ record { number = refusal_number refusal; rows = 0; columns = 0 } }
{
    Picture {
        number: u16::from(refusal),
        rows: 0,
        columns: 0,
    }
}

// Reads a picture into room for 2,048 cells.
pub fn read_picture(bytes: &[u8], cells: &mut [u8]) -> Picture
    ensures { ReadPictureIs bytes.now cells.old result cells.new }
{
    match take_picture(bytes, cells) {
        Ok(head) => Picture {
            number: 0,
            rows: head.rows,
            columns: head.columns,
        },
        Err(refusal) => not_read(refusal),
    }
}
