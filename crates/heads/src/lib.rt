// What stands before the cells of a picture: the mark, the width, the height, the maximum. Every function takes every byte string.
// The contracts cite rules/specs/Picture.antt; specs/Headed.antt has a head by its places.
#![tactic(auto)]

ghost use Rattle.std.specs.Prelude.{◌≡◌};
ghost use Rattle.rules.specs.Picture.{is_marked, height_of, maximum_of, rest_of, size_refusal, maximum_refusal};
ghost use Rattle.heads.specs.Headed.{Headed};

use rules::Refusal;

// The rows and the columns, and the place after what was read.
#[derive(Clone, Copy)]
pub struct Head {
    pub rows: u8,
    pub columns: u8,
    pub at: usize,
}

// `P2`, ended as a number is.
fn is_marked(s: &[u8]) -> bool
    ensures { result ≡ is_marked s.now }
{
    if s.len() < 2 {
        return false;
    }
    if s.len() == 2 {
        return (s[0] == b'P') & (s[1] == b'2');
    }
    let third = tokens::is_gap(true, s[2]);
    (s[0] == b'P') & ((s[1] == b'2') & third)
}

// The mark, the width, the height, the size.
fn read_size(s: &[u8]) -> Result<Head, Refusal>
    ensures { Headed s.now (size_refusal s.now) (rest_of (height_of s.now)) result }
{
    if !is_marked(s) {
        return Err(Refusal::Mark);
    }
    let width = tokens::token(s, 2, true, true, Refusal::Measure)?;
    let height = tokens::token(s, width.next, true, true, Refusal::Measure)?;
    let rows = height.value;
    let columns = width.value;
    if !cells::size_ok(rows, columns) {
        return Err(Refusal::Measure);
    }
    let at = height.next;
    Ok(Head { rows, columns, at })
}

// All that stands before the cells.
pub fn read_head(s: &[u8]) -> Result<Head, Refusal>
    ensures { Headed s.now (λ rest. size_refusal s.now (maximum_refusal s.now rest)) (rest_of (maximum_of s.now)) result }
{
    let size = read_size(s)?;
    let maximum = tokens::token(s, size.at, true, false, Refusal::Maximum)?;
    if maximum.value != 17 {
        return Err(Refusal::Maximum);
    }
    Ok(Head {
        at: maximum.next,
        ..size
    })
}
