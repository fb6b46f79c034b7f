// Tokens of a picture: white space and comments skipped, and numbers, counted no further than 100. Every function over the bytes takes every byte string.
// The contracts cite rules/specs/Picture.antt; specs/Taken.antt has a token by its places.
#![tactic(auto)]

ghost use Rattle.std.specs.Prelude.{◌≡◌, true, false, ◌+◌, ◌-◌, ◌*◌, drop};
ghost use Rattle.rules.specs.Picture.{is_space, is_digit, is_gap, runs_on, skipped, number_from, token_of};
ghost use Rattle.rules.specs.Refusals.{refusal_number};
ghost use Rattle.tokens.specs.Taken.{counted, ended_at, Taken};

use rules::Refusal;

// A number that was due: its value as it is counted, and the place after it.
#[derive(Clone, Copy)]
pub struct Number {
    pub value: u8,
    pub next: usize,
}

// ---- bytes -----------------------------------------------------------------------------------------------------------------------------

#[tactic(auto, unfolding(rules::specs::Picture::is_space))]
fn is_space(b: u8) -> bool
    ensures { result ≡ is_space b }
{
    b" \t\r\n".contains(&b)
}

#[tactic(auto, unfolding(rules::specs::Picture::is_digit))]
fn is_digit(b: u8) -> bool
    ensures { result ≡ is_digit b }
{
    b.is_ascii_digit()
}

// White space or, where it counts, `#`.
#[tactic(auto, unfolding(rules::specs::Picture::is_gap))]
pub fn is_gap(hash: bool, b: u8) -> bool
    ensures { result ≡ is_gap hash b }
{
    is_space(b) | (hash & (b == b'#'))
}

// Does a comment run on after this byte?
#[tactic(auto, unfolding(rules::specs::Picture::runs_on))]
fn runs_on(hash: bool, inside: bool, b: u8) -> bool
    ensures { result ≡ runs_on hash inside b }
{
    if inside {
        return !matches!(b, b'\n' | b'\r');
    }
    hash & (b == b'#')
}

// ---- tokens ----------------------------------------------------------------------------------------------------------------------------

// The place after white space and, where `#` counts, comments.
pub fn skip(s: &[u8], from: usize, hash: bool) -> usize
    ensures { drop result s.now ≡ skipped hash false (drop from s.now) }
{
    let mut inside = false;
    for at in from..s.len() {
        let b = s[at];
        let passed = inside | is_gap(hash, b);
        if !passed {
            return at;
        }
        inside = runs_on(hash, inside, b);
    }
    s.len()
}

// One digit more. From 100 on the answer can no longer change.
fn add_digit(value: u8, b: u8) -> u8
    requires { is_digit b ≡ true }
    ensures { result ≡ counted (value * 10 + (b - 48)) }
{
    if 9 < value {
        return 100;
    }
    value * 10 + (b - b'0')
}

// A number ends at this byte, which is no digit, or there is none.
fn ended(at: usize, hash: bool, b: u8, value: u8, fault: Refusal) -> Result<Number, Refusal>
    ensures { result ≡ ended_at at (is_gap hash b) value fault }
{
    if is_gap(hash, b) {
        return Ok(Number { value, next: at });
    }
    Err(fault)
}

// The number whose digits stand from a place on.
fn number_from(s: &[u8], from: usize, hash: bool, fault: Refusal) -> Result<Number, Refusal>
    ensures { Taken s.now (refusal_number fault) (number_from hash 0 (drop from s.now)) result }
{
    let mut value = 0u8;
    for at in from..s.len() {
        let b = s[at];
        if !is_digit(b) {
            return ended(at, hash, b, value, fault);
        }
        value = add_digit(value, b);
    }
    let next = s.len();
    Ok(Number { value, next })
}

// The next token, where a number is due: the bytes have ended, or what is there is none and refused with `fault`.
pub fn token(
    s: &[u8],
    from: usize,
    before: bool,
    after: bool,
    fault: Refusal,
) -> Result<Number, Refusal>
    ensures { Taken s.now (refusal_number fault) (token_of before after (drop from s.now)) result }
{
    let at = skip(s, from, before);
    if s.len() <= at {
        return Err(Refusal::End);
    }
    if !is_digit(s[at]) {
        return Err(fault);
    }
    number_from(s, at, after, fault)
}
