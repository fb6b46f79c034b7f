// The right click but for the passes that follow it: a flag set, with the bit of its mine, and taken back.
// The contracts cite rules' Clicks, and specs/Mark for what marking a mine leaves.
#![tactic(auto)]

ghost use Rattle.std.specs.Prelude.{◌≡◌, List, ℕ, ◌+◌, ◌/◌, ◌<◌, ◌≤◌, length};
ghost use Rattle.rules.specs.Words.{pick};
ghost use Rattle.rules.specs.States.{with_right};
ghost use Rattle.rules.specs.Clicks.{desk, add_right, flagged, take_back};
ghost use Rattle.cells.specs.Ground.{Valued};
ghost use Rattle.cells.specs.Promises.{RoomAt, play};
ghost use Rattle.marking.specs.Mark.{Marked};

use rules::{Played, Position};

// The bit of a mine is set; 1 if it was clear, and 0 where there is no mine. The one place where a bit is tested and set.
pub fn mark_mine(mines: &[i8], bits: &mut [u8], cell: usize) -> u32
    requires cell_in_bounds { cell < length mines.now }
    requires valued { Valued mines.now }
    requires cell_in_bounds_2 { cell / 8 < length bits.old }
    ensures { Marked mines.now bits.old cell result bits.new }
{
    let f = cells::face_at(mines, cell);
    if f != 15 {
        return 0;
    }
    let had = bits::test_bit(bits, cell);
    bits::set_bit(bits, cell);
    u32::from(!had)
}

pub fn add_right(p: Position) -> Position
    requires { p.counts.right ≤ 70000 }
    ensures { result ≡ with_right p (p.counts.right + 1) }
{
    let n = p.counts.right + 1;
    p.with_right(n)
}

// RIGHT on a closed cell, before the passes: right + 1, 10 to 11.
pub fn flag(p: Position, mines: &[i8], shown: &mut [u8], bits: &mut [u8], cell: usize) -> Position
    requires cell_in_bounds { (cell < length mines.now) × (cell < length shown.old) × (cell / 8 < length bits.old) }
    requires valued { Valued mines.now }
    requires room_at { RoomAt p shown.old }
    ensures { desk result shown.new bits.new ≡ flagged mines.now cell (add_right (desk p shown.old bits.old)) }
{
    shown[cell] = 11;
    let new = mark_mine(mines, bits, cell);
    let y = add_right(p);
    let n = p.counts.flag + 1;
    let q = y.with_flag(n);
    let k = p.secrets.rce + new;
    q.with_rce(k)
}

// What a flag becomes.
fn after_flag(question: bool) -> u8
    ensures { result ≡ pick question 17 10 }
{
    if question {
        return 17;
    }
    10
}

// RIGHT on a cell that is not closed: right + 1; 11 to 17 or 10, 17 to 10, on an open cell nothing.
pub fn take_back(p: Position, shown: &mut [u8], cell: usize) -> Played
    requires cell_in_bounds { cell < length shown.old }
    requires room_at { RoomAt p shown.old }
    ensures { (bits : List ℕ) → play result shown.new bits ≡ take_back cell (add_right (desk p shown.old bits)) }
{
    let y = add_right(p);
    let v = shown[cell];
    if v == 11 {
        let to = after_flag(p.settings.question);
        shown[cell] = to;
        let n = p.counts.flag - 1;
        let q = y.with_flag(n);
        return Played {
            answer: 1,
            position: q,
        };
    }
    if v == 17 {
        shown[cell] = 10;
        return Played {
            answer: 1,
            position: y,
        };
    }
    Played {
        answer: 0,
        position: y,
    }
}
