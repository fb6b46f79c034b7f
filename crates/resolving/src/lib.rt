// Resolving as a call of its own: l, r or m into a plain code, for a caller that then steps with it.
// Nothing here writes, and no event is counted. The contract is an equation of rules' Promises.
#![tactic(auto)]

ghost use Rattle.rules.specs.Promises.{ResolveIs};

use rules::{Answer, Position, Refusal};

// Tests 20 to 31 as the step does; the value is the plain code, and in the position that comes back m has flipped the middle flag.
pub fn resolve(
    p: Position,
    code: u8,
    row: u8,
    column: u8,
    mines: &[i8],
    shown: &[u8],
    bits: &[u8],
) -> Answer
    ensures { ResolveIs p code row column mines.now shown.now bits.now result }
{
    if let Err(refusal) = refusals::check_refusal(p, mines, shown, bits) {
        return refusals::refuse_by(refusal, p, mines);
    }
    let Some(_) = mouse::decode(p.settings, row, column) else {
        return calls::refused(Refusal::Pointer, p);
    };
    if faults::is_full(p) {
        return calls::refused(Refusal::Full, p);
    }
    let plain = mouse::code_at(p, code);
    let middle = mouse::flip(code, p.middle);
    let q = p.with_middle(middle);
    calls::answer(0, q, u32::from(plain))
}
