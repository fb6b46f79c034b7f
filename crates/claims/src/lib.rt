// The claims section of a visiting book: read with the book that it follows, and held to what the game says.
// The contracts cite rules/specs/Claims.antt, which gives document 02's number and values for every verdict.
#![tactic(auto)]

ghost use Rattle.std.specs.Prelude.{◌≡◌, ◌+◌, ◌<◌, ◌≤◌, length};
ghost use Rattle.rules.specs.Claims.{verdict_number, claims_section, claimed_book_of, long_at, claim_at, ten_values, claims_judged};

use rules::{Book, Position, Refusal, Verdict};

// The claims section at `at`, where the events of the book `b` end.
#[tactic(auto, unfolding(rules::specs::Claims::claims_section))]
fn read_claims(s: &[u8], at: usize, b: Book) -> Book
    requires { at ≤ length s.now }
    ensures { result ≡ claims_section s.now at b }
{
    if s.len() < at + 1 {
        return book::refuse(Refusal::Short, s.len());
    }
    if s[at] != 9 {
        return book::refuse(Refusal::Claims, at);
    }
    let end = at + 38;
    if s.len() < end {
        return book::refuse(Refusal::Short, s.len());
    }
    book::ended(s, end, b)
}

// What a byte string says as a book with claims, or its first fault with the byte place.
pub fn read_claimed(s: &[u8]) -> Book
    ensures { result ≡ claimed_book_of s.now }
{
    let b = book::read_sections(s);
    if b.number != 0 {
        return b;
    }
    let at = b.events_at + 3 * b.events;
    read_claims(s, at, b)
}

// Four bytes, low byte first.
fn long_at(s: &[u8], at: usize) -> u32
    requires { at + 4 ≤ length s.now }
    ensures { result ≡ long_at s.now at }
{
    u32::from_le_bytes([s[at], s[at + 1], s[at + 2], s[at + 3]])
}

// Claim number `i`, from 0: the nine counts, then the game state.
#[tactic(auto, unfolding(rules::specs::Claims::claim_at))]
fn claim_at(s: &[u8], at: usize, i: usize) -> u32
    requires { (at + 38 ≤ length s.now) × (i < 10) }
    ensures { result ≡ claim_at s.now at i }
{
    if i < 9 {
        long_at(s, at + 1 + 4 * i)
    } else {
        u32::from(s[at + 37])
    }
}

// What a position says to the ten claims.
pub fn ten_values(p: Position) -> [u32; 10]
    ensures { result ≡ ten_values p }
{
    [
        p.counts.left,
        p.counts.right,
        p.counts.double,
        p.counts.lce,
        p.secrets.rce,
        p.counts.dce,
        p.counts.flag,
        p.secrets.solved_left,
        p.secrets.solved_chord,
        u32::from(u8::from(p.game)),
    ]
}

// The claims of the section at `at` held to a position: the first that differs, with both values.
pub fn judge(s: &[u8], at: usize, p: Position) -> Verdict
    requires { at + 38 ≤ length s.now }
    ensures { result ≡ claims_judged s.now at (ten_values p) }
{
    let values = ten_values(p);
    for (i, &is) in values.iter().enumerate() {
        let says = claim_at(s, at, i);
        if says != is {
            let claim = i as u32 + 1;
            return Verdict::ClaimDiffers { claim, says, is };
        }
    }
    Verdict::Accepted
}

// The number of a verdict: 0, or document 02's. It is no `From`, since neither type is of this crate.
pub fn number(v: Verdict) -> u16
    ensures { result ≡ verdict_number v }
{
    match v {
        Verdict::Accepted => 0,
        Verdict::Refused { number, .. } => number,
        Verdict::EventRefused { .. } => 81,
        Verdict::NotEnded => 82,
        Verdict::ClaimDiffers { .. } => 83,
    }
}
