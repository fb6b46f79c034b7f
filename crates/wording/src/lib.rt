// A hint in words, written into a lent buffer from a place on; the answer is the place after it.
// The contracts cite rules' chapter on the trainer for the words and Put of writing for what writing is; the caller gives the room.
#![tactic(auto)]

ghost use Rattle.std.specs.Prelude.{◌+◌, ◌≤◌, length};
ghost use Rattle.rules.specs.Trainer.{hint_words};
ghost use Rattle.writing.specs.Put.{Room, Put, PutWithin};

use rules::Hint;

// `cell R C by R C`: the cell at (row, column) by the number at (i, j).
fn put_cell(out: &mut [u8], at: usize, row: u8, column: u8, i: u8, j: u8) -> usize
    requires { Room (hint_words (Hint.Cell row column i j)) at out.old }
    ensures { Put (hint_words (Hint.Cell row column i j)) at out.old out.new result }
{
    let cell = [u32::from(row), u32::from(column)];
    let number = [u32::from(i), u32::from(j)];
    let first = writing::put_bytes(out, at, b"cell");
    let second = writing::put_spaced(out, first, &cell);
    let third = writing::put_bytes(out, second, b" by");
    writing::put_spaced(out, third, &number)
}

// `refused N`.
fn put_refused(out: &mut [u8], at: usize, n: u16) -> usize
    requires { Room (hint_words (Hint.Refused n)) at out.old }
    ensures { Put (hint_words (Hint.Refused n)) at out.old out.new result }
{
    let ns = [u32::from(n)];
    let first = writing::put_bytes(out, at, b"refused");
    writing::put_spaced(out, first, &ns)
}

// A hint in words, at most 51 bytes.
pub fn put_hint(out: &mut [u8], at: usize, hint: Hint) -> usize
    requires { at + 51 ≤ length out.old }
    ensures { PutWithin 51 (hint_words hint) at out.old out.new result }
{
    match hint {
        Hint::Cell {
            row,
            column,
            by_row,
            by_column,
        } => put_cell(out, at, row, column, by_row, by_column),
        Hint::Nothing => writing::put_bytes(out, at, b"nothing"),
        Hint::Refused(n) => put_refused(out, at, n),
    }
}
