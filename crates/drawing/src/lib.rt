// The writer of a picture, plain PGM: a shown board in its one plain form. It takes every board and every room, and a refusal writes nothing.
// The contracts cite rules/specs/Picture.antt for the texts and Put of writing for what writing is.
#![tactic(auto)]

ghost use Rattle.std.specs.Prelude.{◌≡◌, ◌∷◌, [], ◌++◌};
ghost use Rattle.rules.specs.Printout.{decimal};
ghost use Rattle.rules.specs.Picture.{number_lines, plain_form, WritePictureIs};
ghost use Rattle.writing.specs.Put.{Room, Put};
ghost use Rattle.rules.specs.declared.Place.TheVariants.{Nowhere};

use rules::{Place, Value};

// A number on its line.
fn put_number_line(out: &mut [u8], at: usize, n: u32) -> usize
    requires { Room (decimal n ++ (10 ∷ [])) at out.old }
    ensures { Put (decimal n ++ (10 ∷ [])) at out.old out.new result }
{
    let next = writing::put_decimal(out, at, n);
    writing::put_byte(out, next, b'\n')
}

// Cells, each on its line.
fn put_cell_lines(out: &mut [u8], at: usize, shown: &[u8]) -> usize
    requires { Room (number_lines shown.now) at out.old }
    ensures { Put (number_lines shown.now) at out.old out.new result }
{
    let mut o = at;
    for v in shown {
        o = put_number_line(out, o, u32::from(*v));
    }
    o
}

// The mark, the width, the height, the maximum, the cells.
fn put_picture(out: &mut [u8], rows: u8, columns: u8, shown: &[u8]) -> usize
    requires { Room (plain_form rows columns shown.now) 0 out.old }
    ensures { Put (plain_form rows columns shown.now) 0 out.old out.new result }
{
    let width = writing::put_bytes(out, 0, b"P2\n");
    let height = put_number_line(out, width, u32::from(columns));
    let maximum = put_number_line(out, height, u32::from(rows));
    let board = put_number_line(out, maximum, 17);
    put_cell_lines(out, board, shown)
}

// A `Value` holds its number beside the value, since it is the type of the definition `WritePictureIs`.
fn answer(number: u16, value: u32) -> Value
    ensures { result ≡ record { number = number; place = Nowhere; value = value } }
{
    Value {
        number,
        place: Place::Nowhere,
        value,
    }
}

// Writes a shown board as a picture into room of 6,156 bytes. The value is how many of them it has.
pub fn write_picture(rows: u8, columns: u8, shown: &[u8], out: &mut [u8]) -> Value
    ensures { WritePictureIs rows columns shown.now out.old result out.new }
{
    let fit = out.len() == 6156;
    match showing::shown_refusal(rows, columns, shown, fit) {
        Ok(()) => {
            let long = put_picture(out, rows, columns, shown);
            answer(0, long as u32)
        }
        Err(refusal) => answer(u16::from(refusal), 0),
    }
}
