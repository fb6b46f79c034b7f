// A row of records on a lawful desk: each is read through the reader and played; moves that follow each other are counted together.
// The contracts cite specs/Rows.antt over the chapter Slides.
#![tactic(auto)]

ghost use Rattle.std.specs.Prelude.{◌≡◌, ◌+◌, ◌≤◌};
ghost use Rattle.rules.specs.Clicks.{desk};
ghost use Rattle.cells.specs.Promises.{Plays};
ghost use Rattle.keep.specs.Kept.{LawfulAt};
ghost use Rattle.game.specs.Core.{Blank};
ghost use Rattle.rules.specs.Slides.{play_record};
ghost use Rattle.records.specs.Entries.{entry_at, records_in};
ghost use Rattle.rows.specs.Rows.{row_on, move_of, Moves};

use rules::{Played, Position, Refusal, Settings};

// The record at an index, played; 70 past the end.
fn play_record(
    p: Position,
    section: &[u8],
    e: usize,
    mines: &[i8],
    shown: &mut [u8],
    bits: &mut [u8],
    work: &mut [u16],
) -> Played
    requires lawful_at { LawfulAt mines.now (desk p shown.old bits.old) }
    requires blank { Blank p.settings work.old }
    ensures { Plays (play_record mines.now section.now e) p shown.old bits.old work.old result shown.new bits.new work.new }
{
    let Some(record) = records::nth(section, e) else {
        return game::refused(Refusal::Stop, p);
    };
    let event = [record.code, record.row, record.column];
    flows::next_event(p, &event, 0, mines, &mut *shown, &mut *bits, &mut *work)
}

// The record at an index is a move that its pointer does not refuse.
fn is_move(s: Settings, section: &[u8], e: usize) -> bool
    ensures { result ≡ move_of s (entry_at section.now e) }
{
    let Some(record) = records::nth(section, e) else {
        return false;
    };
    if record.code != 4 {
        return false;
    }
    mouse::decode(s, record.row, record.column).is_some()
}

// Moves that follow each other from a record on, at most so many: a recording holds long rows of them.
fn moves(s: Settings, section: &[u8], from: usize, most: usize) -> usize
    requires { from + most ≤ records_in section.now }
    ensures { Moves s section.now from result × (result ≤ most) }
{
    for n in 0..most {
        if !is_move(s, section, from + n) {
            return n;
        }
    }
    most
}

// The records from one to another, up to the first refused one, with moves counted together.
pub fn play_row(
    p: Position,
    section: &[u8],
    from: usize,
    to: usize,
    mines: &[i8],
    shown: &mut [u8],
    bits: &mut [u8],
    work: &mut [u16],
) -> Played
    requires lawful_at { LawfulAt mines.now (desk p shown.old bits.old) }
    requires blank { Blank p.settings work.old }
    requires from_le_to { (from ≤ to) × (to ≤ records_in section.now) }
    ensures { Plays (row_on mines.now section.now from to) p shown.old bits.old work.old result shown.new bits.new work.new }
{
    let mut e = from;
    let mut o = Played {
        answer: 0,
        position: p,
    };
    // No `for`: a step takes one record, or all the moves that follow each other.
    while e < to {
        let q = o.position;
        let most = (to - e).min((65535 - q.events) as usize);
        let n = moves(q.settings, section, e, most);
        if n != 0 {
            o = flows::count_moves(q, n as u32);
            e += n;
        } else {
            o = play_record(q, section, e, mines, &mut *shown, &mut *bits, &mut *work);
            if 20 <= o.answer {
                return o;
            }
            e += 1;
        }
    }
    o
}
