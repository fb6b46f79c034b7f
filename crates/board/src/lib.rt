// THE PUBLIC FACE: what `calls` and `resolving` offer, and here one plain event and a row of events. No public function has a `requires`: for every input its
// contract, one equation of rules' Promises, determines the answer, the position, the value and every lent list.
#![tactic(auto)]

ghost use Rattle.std.specs.Prelude.{◌≡◌, List, ℕ, ◌≤◌, leb, length};
ghost use Rattle.rules.specs.Words.{pick};
ghost use Rattle.rules.specs.Refusals.{found_number};
ghost use Rattle.rules.specs.Lent.{work_room};
ghost use Rattle.rules.specs.Clicks.{desk};
ghost use Rattle.rules.specs.Calls.{cells_in};
ghost use Rattle.rules.specs.Promises.{StepIs, StepFlowIs};
ghost use Rattle.board.specs.Parts.{first_refusal, Blanked};

pub use calls::{
    check_board, check_position, get_bbbv_solved, left_to_solve, number_mines, reset, setup,
    step_game_state, total_3bv,
};
pub use resolving::resolve;
use rules::{Answer, Position, Refusal, Settings};

// Work comes in as it comes: it is cleared before the core plays on it, which gives it back so.
fn blank(s: Settings, work: &mut [u16])
    requires { work_room (cells_in s) ≤ length work.old }
    ensures { Blanked s work.old work.new }
{
    let cells = boards::cell_count(s.rows, s.columns);
    cells::clear(&mut *work, 8 * cells + 8);
}

// A step tests all, 20 to 33, and plays plain events only: l, r and m are resolved before, or they are unknown. What it opened is what the number
// of safe cells still closed fell by.
pub fn step(
    p: Position,
    code: u8,
    row: u8,
    column: u8,
    mines: &[i8],
    shown: &mut [u8],
    bits: &mut [u8],
    work: &mut [u16],
) -> Answer
    ensures { StepIs p code row column mines.now shown.old bits.old work.old result shown.new bits.new work.new }
{
    if let Err(refusal) = refusals::lent_refusal(p, mines, &*shown, &*bits, &*work) {
        return refusals::refuse_by(refusal, p, mines);
    }
    let Some(x) = mouse::decode(p.settings, row, column) else {
        return calls::refused(Refusal::Pointer, p);
    };
    let e = mouse::plain_event(code, x);
    if let Err(refusal) = faults::refusal_of(p, &*shown, e) {
        return calls::refused(refusal, p);
    }
    blank(p.settings, &mut *work);
    let o = game::play_event(p, e, mines, &mut *shown, &mut *bits, &mut *work);
    let z = o.position;
    let opened = p.counts.unopened - z.counts.unopened;
    calls::answer(o.answer, z, opened)
}

// What the first event is refused with: a row that is refused there has touched nothing.
fn first_refusal(p: Position, events: &[u8], shown: &[u8]) -> Result<(), Refusal>
    ensures { (bits : List ℕ) → found_number result ≡ first_refusal events.now (desk p shown.now bits) }
{
    if events.len() < 3 {
        return Ok(());
    }
    let Some(x) = mouse::decode(p.settings, events[1], events[2]) else {
        return Err(Refusal::Pointer);
    };
    let h = mouse::resolve_at(p, events[0], x);
    faults::refusal_of(p, shown, h.event)
}

// 0, or the number of the refused event.
fn flow_number(a: u16) -> u16
    ensures { result ≡ pick (leb 20 a) a 0 }
{
    if 20 <= a {
        return a;
    }
    0
}

// A row of events as a book has them; tests 20 to 264 once, stops at the first refused event and keeps the steps before it.
pub fn step_flow(
    p: Position,
    events: &[u8],
    mines: &[i8],
    shown: &mut [u8],
    bits: &mut [u8],
    work: &mut [u16],
) -> Answer
    ensures { StepFlowIs p events.now mines.now shown.old bits.old work.old result shown.new bits.new work.new }
{
    if let Err(refused) = refusals::flow_refusal(p, events, mines, &*shown, &*bits, &*work) {
        return refusals::refuse_by(refused, p, mines);
    }
    if let Err(first) = first_refusal(p, events, &*shown) {
        return calls::refused(first, p);
    }
    blank(p.settings, &mut *work);
    let o = flows::flow(p, events, mines, &mut *shown, &mut *bits, &mut *work);
    let v = flow_number(o.answer);
    calls::answer(v, o.position, 0)
}
