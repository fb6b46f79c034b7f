// The checker and the second program on a byte string, as calls: every byte string is taken, in room of their own.
// The contracts cite rules/specs/Claims.antt.
#![tactic(auto)]

ghost use Rattle.std.specs.Prelude.{◌≡◌};
ghost use Rattle.rules.specs.Claims.{is_ended, unclaimed, CheckBookIs, ClaimBookIs};

use rules::{Claim, GameState, Verdict};

// The checker's verdict.
pub fn check_book(s: &[u8]) -> Verdict
    ensures { CheckBookIs s.now result }
{
    let b = claims::read_claimed(s);
    if b.number != 0 {
        return Verdict::Refused {
            number: b.number,
            place: b.place,
        };
    }
    let end = b.events_at + 3 * b.events;
    let o = endings::play_book(&s[..end], b);
    let p = o.position;
    if 20 <= o.answer {
        let event = p.events + 1;
        return Verdict::EventRefused { event };
    }
    claims::judge(s, end, p)
}

fn is_ended(g: GameState) -> bool
    ensures { result ≡ is_ended g }
{
    matches!(g, GameState::Win | GameState::Loss)
}

fn refused(verdict: Verdict) -> Claim
    ensures { result ≡ unclaimed verdict }
{
    Claim {
        verdict,
        section: [0; 38],
    }
}

// The second program's verdict on a book without claims, and its claims section.
pub fn claim_book(s: &[u8]) -> Claim
    ensures { ClaimBookIs s.now result }
{
    let b = book::read_book(s);
    if b.number != 0 {
        return refused(Verdict::Refused {
            number: b.number,
            place: b.place,
        });
    }
    let o = endings::play_book(s, b);
    let p = o.position;
    if 20 <= o.answer {
        let number = p.events + 1;
        return refused(Verdict::EventRefused { event: number });
    }
    if !is_ended(p.game) {
        return refused(Verdict::NotEnded);
    }
    Claim {
        verdict: Verdict::Accepted,
        section: claiming::section(p),
    }
}
