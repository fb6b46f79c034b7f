// The claims section of a position: 38 bytes; and room for a book with one.
// The contracts cite Claims for the bytes and Put of writing for what writing is.
#![tactic(auto)]

ghost use Rattle.std.specs.Prelude.{◌≡◌, length};
ghost use Rattle.rules.specs.Claims.{four, fours, claims_of};
ghost use Rattle.writing.specs.Put.{Room, Put};

use rules::Position;

// A number in four bytes, low byte first.
fn put_four(out: &mut [u8], at: usize, n: u32) -> usize
    requires { Room (four n) at out.old }
    ensures { Put (four n) at out.old out.new result }
{
    writing::put_bytes(out, at, &n.to_le_bytes())
}

fn put_fours(out: &mut [u8], at: usize, ns: &[u32]) -> usize
    requires { Room (fours ns.now) at out.old }
    ensures { Put (fours ns.now) at out.old out.new result }
{
    let mut o = at;
    for n in ns {
        o = put_four(out, o, *n);
    }
    o
}

// The count byte, the nine counts and the game state.
pub fn section(p: Position) -> [u8; 38]
    ensures { result ≡ claims_of p }
{
    let values = claims::ten_values(p);
    let mut out = [0u8; 38];
    let first = writing::put_byte(&mut out, 0, 9);
    let last = put_fours(&mut out, first, &values[..9]);
    writing::put_byte(&mut out, last, u8::from(p.game));
    out
}

// One byte more than the longest book with claims has, which is 38 more than what is read of a book without.
pub fn claimed_buffer() -> [u8; 28719]
    ensures { 28719 ≡ length result }
{
    [0; 28719]
}
