// Both automatic passes by turns, and which modes run which after what.
// The contracts cite rules' Passes; specs/ has what both by turns require and ensure.
#![tactic(auto)]

ghost use Rattle.std.specs.Prelude.{◌≡◌};
ghost use Rattle.rules.specs.Clicks.{desk};
ghost use Rattle.rules.specs.Passes.{both_round, both_pass, passes_after_flag, passes_after_chord};
ghost use Rattle.cells.specs.Promises.{Prepared, Leaves};
ghost use Rattle.passes.specs.Passing.{round, going};

use rules::{GameState, Position};

// A position, and whether the chord pass changed something while the game goes on: the parts of the definition `Round`.
#[derive(Clone, Copy)]
pub struct Passed {
    pub position: Position,
    pub any: bool,
}

// Flags first, then chords.
fn both_round(
    p: Position,
    mines: &[i8],
    shown: &mut [u8],
    bits: &mut [u8],
    work: &mut [u16],
) -> Passed
    requires { Prepared mines.now (desk p shown.old bits.old) work.old }
    ensures { Leaves (round result shown.new bits.new) (both_round mines.now (going (desk p shown.old bits.old))) work.old work.new }
{
    let q = flagging::flag_pass(p, mines, shown, bits);
    let s = chording::chord_pass(q, mines, shown, work);
    let any = chording::goes_on(s.ever, s.position);
    Passed {
        position: s.position,
        any,
    }
}

// Both by turns, until the chord pass changes nothing or the game is over.
pub fn both_pass(
    p: Position,
    mines: &[i8],
    shown: &mut [u8],
    bits: &mut [u8],
    work: &mut [u16],
) -> Position
    requires { Prepared mines.now (desk p shown.old bits.old) work.old }
    ensures { Leaves (desk result shown.new bits.new) (both_pass mines.now (desk p shown.old bits.old)) work.old work.new }
{
    // A `loop` with a `break` would say the same in as many lines, and is no plainer.
    let mut q = p;
    let mut go = true;
    while go {
        let r = both_round(q, mines, shown, bits, work);
        q = r.position;
        go = r.any;
    }
    q
}

// After a flag added by hand: 13 and 16 run both, 12 and 15 the flag pass alone.
pub fn passes_after_flag(
    p: Position,
    mines: &[i8],
    shown: &mut [u8],
    bits: &mut [u8],
    work: &mut [u16],
) -> Position
    requires { Prepared mines.now (desk p shown.old bits.old) work.old }
    ensures { Leaves (desk result shown.new bits.new) (passes_after_flag mines.now (desk p shown.old bits.old)) work.old work.new }
{
    if p.game != GameState::Playing {
        return p;
    }
    match p.settings.mode {
        13 | 16 => both_pass(p, mines, shown, bits, work),
        12 | 15 => flagging::flag_pass(p, mines, shown, bits),
        _ => p,
    }
}

// After any chord by hand: 13 and 16 run both, 11 and 14 the chord pass alone.
pub fn passes_after_chord(
    p: Position,
    mines: &[i8],
    shown: &mut [u8],
    bits: &mut [u8],
    work: &mut [u16],
) -> Position
    requires { Prepared mines.now (desk p shown.old bits.old) work.old }
    ensures { Leaves (desk result shown.new bits.new) (passes_after_chord mines.now (desk p shown.old bits.old)) work.old work.new }
{
    if p.game != GameState::Playing {
        return p;
    }
    match p.settings.mode {
        13 | 16 => both_pass(p, mines, shown, bits, work),
        11 | 14 => chording::chord_pass(p, mines, shown, work).position,
        _ => p,
    }
}
