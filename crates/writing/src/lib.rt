// Bytes, decimal numbers and lines of numbers, written into a lent buffer: each function writes its text from a place on and answers the place after it.
// The contracts cite rules/specs/Printout.antt for the texts and specs/Put.antt for what writing is; the caller gives the room.
#![tactic(auto)]

ghost use Rattle.std.specs.Prelude.{◌≡◌, ◌∷◌, [], ◌+◌, ◌/◌, ◌%◌, ◌<◌};
ghost use Rattle.rules.specs.Printout.{decimal, spaced, line_of, word_line};
ghost use Rattle.writing.specs.Put.{Room, Put};

pub fn put_byte(out: &mut [u8], at: usize, b: u8) -> usize
    requires { Room (b ∷ []) at out.old }
    ensures { Put (b ∷ []) at out.old out.new result }
{
    out[at] = b;
    at + 1
}

pub fn put_bytes(out: &mut [u8], at: usize, word: &[u8]) -> usize
    requires { Room word.now at out.old }
    ensures { Put word.now at out.old out.new result }
{
    let mut o = at;
    // One by one: `copy_from_slice` calls `memmove`, which an archive would need from outside.
    for b in word {
        o = put_byte(out, o, *b);
    }
    o
}

// Two digits.
fn put_pair(out: &mut [u8], at: usize, n: u32) -> usize
    requires n_bound { n < 100 }
    requires room { Room ((48 + n / 10) ∷ (48 + n % 10) ∷ []) at out.old }
    ensures { Put ((48 + n / 10) ∷ (48 + n % 10) ∷ []) at out.old out.new result }
{
    let next = put_byte(out, at, 48 + (n / 10) as u8);
    put_byte(out, next, 48 + (n % 10) as u8)
}

// A number's decimal digits, the first ones first, two to a call.
fn put_digits(out: &mut [u8], at: usize, n: u32) -> usize
    requires { Room (decimal n) at out.old }
    ensures { Put (decimal n) at out.old out.new result }
{
    if n < 10 {
        return put_byte(out, at, 48 + n as u8);
    }
    if n < 100 {
        return put_pair(out, at, n);
    }
    let next = put_digits(out, at, n / 100);
    put_pair(out, next, n % 100)
}

// The same: one digit, as most numbers have, is put without a call, which the compiler makes of every function that calls itself.
pub fn put_decimal(out: &mut [u8], at: usize, n: u32) -> usize
    requires { Room (decimal n) at out.old }
    ensures { Put (decimal n) at out.old out.new result }
{
    if n < 10 {
        return put_byte(out, at, 48 + n as u8);
    }
    put_digits(out, at, n)
}

// A number with a space before it.
fn put_number(out: &mut [u8], at: usize, n: u32) -> usize
    requires { Room (32 ∷ decimal n) at out.old }
    ensures { Put (32 ∷ decimal n) at out.old out.new result }
{
    let next = put_byte(out, at, b' ');
    put_decimal(out, next, n)
}

// Numbers with a space before each.
pub fn put_spaced(out: &mut [u8], at: usize, ns: &[u32]) -> usize
    requires { Room (spaced ns.now) at out.old }
    ensures { Put (spaced ns.now) at out.old out.new result }
{
    let mut o = at;
    for n in ns {
        o = put_number(out, o, *n);
    }
    o
}

// Cells with a space before each. One function with `put_spaced` over `Into<u32>` would not do: its bound says which results may come, and not the
// numbers, so the contract could not name the text that needs room.
pub fn put_cells(out: &mut [u8], at: usize, cells: &[u8]) -> usize
    requires { Room (spaced cells.now) at out.old }
    ensures { Put (spaced cells.now) at out.old out.new result }
{
    let mut o = at;
    for cell in cells {
        o = put_number(out, o, u32::from(*cell));
    }
    o
}

// A word, then numbers with a space before each, and the line's end.
pub fn put_word_line(out: &mut [u8], at: usize, word: &[u8], ns: &[u32]) -> usize
    requires { Room (word_line word.now ns.now) at out.old }
    ensures { Put (word_line word.now ns.now) at out.old out.new result }
{
    let first = put_bytes(out, at, word);
    let last = put_spaced(out, first, ns);
    put_byte(out, last, b'\n')
}

// A number, then numbers with a space before each, and the line's end.
pub fn put_line(out: &mut [u8], at: usize, n: u32, ns: &[u32]) -> usize
    requires { Room (line_of (n ∷ ns.now)) at out.old }
    ensures { Put (line_of (n ∷ ns.now)) at out.old out.new result }
{
    let first = put_decimal(out, at, n);
    let last = put_spaced(out, first, ns);
    put_byte(out, last, b'\n')
}
