// The line of a verdict, written into a lent buffer from a place on; the answer is the place after it.
// The contracts cite Claims for the text and Put of writing for what writing is; the caller gives the room.
#![tactic(auto)]

ghost use Rattle.std.specs.Prelude.{◌<◌, ◌≤◌, ◌+◌, length};
ghost use Rattle.rules.specs.Claims.{told, tail, verdict_line};
ghost use Rattle.writing.specs.Put.{Room, Put, PutWithin};
ghost use Rattle.verdicts.specs.Places.{place_in};

use rules::Verdict;

// A word and a number within a line.
fn put_told(out: &mut [u8], at: usize, word: &[u8], n: u32) -> usize
    requires { Room (told word.now n) at out.old }
    ensures { Put (told word.now n) at out.old out.new result }
{
    let next = writing::put_bytes(out, at, word);
    writing::put_spaced(out, next, &[n])
}

// What stands behind a claim that differs.
fn put_claim(out: &mut [u8], at: usize, claim: u32, says: u32, is: u32) -> usize
    requires { Room (tail (Verdict.ClaimDiffers claim says is)) at out.old }
    ensures { Put (tail (Verdict.ClaimDiffers claim says is)) at out.old out.new result }
{
    let first = put_told(out, at, b" claim", claim);
    let next = put_told(out, first, b" says", says);
    put_told(out, next, b" is", is)
}

// What stands behind a refusal's number.
fn put_tail(out: &mut [u8], at: usize, v: Verdict) -> usize
    requires v_bound { place_in v < 4294967296 }
    requires room { Room (tail v) at out.old }
    ensures { Put (tail v) at out.old out.new result }
{
    match v {
        Verdict::Accepted | Verdict::NotEnded => at,
        Verdict::Refused { place, .. } => put_told(out, at, b" at", place as u32),
        Verdict::EventRefused { event } => put_told(out, at, b" event", event),
        Verdict::ClaimDiffers { claim, says, is } => put_claim(out, at, claim, says, is),
    }
}

// The line, by the number of the verdict as `verdict_line` has it: at most 66 bytes.
pub fn put_verdict(out: &mut [u8], at: usize, v: Verdict) -> usize
    requires v_bound { place_in v < 4294967296 }
    requires at_in_bounds { at + 66 ≤ length out.old }
    ensures { PutWithin 66 (verdict_line v) at out.old out.new result }
{
    let n = claims::number(v);
    if n == 0 {
        let end = writing::put_bytes(out, at, b"accepted");
        return writing::put_byte(out, end, b'\n');
    }
    let first = put_told(out, at, b"refused", u32::from(n));
    let end = put_tail(out, first, v);
    writing::put_byte(out, end, b'\n')
}
