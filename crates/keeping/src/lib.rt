// A whole desk in a slot of a lent room of bytes: the position, the shown board and the bits, put and taken up again; and which desk is kept.
// The contracts cite the chapter Slides for the bytes and `writing`'s specs/Put.antt for what writing is; the caller gives the room.
#![tactic(auto)]

ghost use Rattle.std.specs.Prelude.{◌≡◌, ◌+◌, ◌≤◌, length, drop};
ghost use Rattle.rules.specs.Clicks.{desk};
ghost use Rattle.writing.specs.Put.{Room, Put};
ghost use Rattle.rules.specs.Slides.{four_bytes, fours, state_bytes, numbers_kept, desk_bytes, head_size, slot_size, four_at, settings_in, counts_in, secrets_in, position_in, desk_in};
ghost use Rattle.keeping.specs.Keeps.{kept_of, Boards, keep_desk};

use rules::{Counts, GameState, MouseState, Position, Secrets, Settings};

// The bytes before the shown board.
pub const HEAD: usize = 56;

// ---- put -------------------------------------------------------------------------------------------------------------------------------

// A number's four bytes, the low byte first.
fn put_four(out: &mut [u8], at: usize, n: u32) -> usize
    requires { Room (four_bytes n) at out.old }
    ensures { Put (four_bytes n) at out.old out.new result }
{
    let b = n.to_le_bytes();
    writing::put_bytes(out, at, &b)
}

fn put_fours(out: &mut [u8], at: usize, ns: &[u32]) -> usize
    requires { Room (fours ns.now) at out.old }
    ensures { Put (fours ns.now) at out.old out.new result }
{
    let mut o = at;
    for n in ns {
        o = put_four(out, o, *n);
    }
    o
}

// Settings and states.
fn states(p: Position) -> [u8; 8]
    ensures { result ≡ state_bytes p }
{
    let s = p.settings;
    [
        s.rows,
        s.columns,
        s.mode,
        u8::from(s.question),
        s.rules,
        u8::from(p.game),
        u8::from(p.mouse),
        u8::from(p.middle),
    ]
}

// The twelve numbers.
fn numbers(p: Position) -> [u32; 12]
    ensures { result ≡ numbers_kept p }
{
    let c = p.counts;
    let k = p.secrets;
    [
        p.preflags,
        p.events,
        c.left,
        c.right,
        c.double,
        c.lce,
        k.rce,
        c.dce,
        c.flag,
        k.solved_left,
        k.solved_chord,
        c.unopened,
    ]
}

// A desk put into a room from a place on.
fn put_desk(room: &mut [u8], at: usize, p: Position, shown: &[u8], bits: &[u8]) -> usize
    requires { Room (desk_bytes (desk p shown.now bits.now)) at room.old }
    ensures { Put (desk_bytes (desk p shown.now bits.now)) at room.old room.new result }
{
    let states = states(p);
    let ns = numbers(p);
    let first = writing::put_bytes(&mut *room, at, &states);
    let cells = put_fours(&mut *room, first, &ns);
    let last = writing::put_bytes(&mut *room, cells, shown);
    writing::put_bytes(&mut *room, last, bits)
}

// The desk after `m` accepted events kept, if it is the next to keep and the room reaches so far; the answer is how many are kept then.
// `m % k` and `m / k` stand for m = (kept + 1) * k, which may not fit.
pub fn keep_desk(
    p: Position,
    m: usize,
    k: usize,
    kept: usize,
    shown: &[u8],
    bits: &[u8],
    room: &mut [u8],
) -> usize
    requires le_k { 1 ≤ k }
    requires boards { Boards p.settings shown.now bits.now }
    ensures { kept_of result room.new ≡ keep_desk k p.settings m (desk p shown.now bits.now) (kept_of kept room.old) }
{
    let size = HEAD + shown.len() + bits.len();
    if room.len() / size <= kept {
        return kept;
    }
    if m % k != 0 {
        return kept;
    }
    if m / k != kept + 1 {
        return kept;
    }
    put_desk(&mut *room, kept * size, p, shown, bits);
    kept + 1
}

// ---- taken up --------------------------------------------------------------------------------------------------------------------------

// A number of four bytes from a place on.
fn four_at(s: &[u8], at: usize) -> u32
    requires { at + 4 ≤ length s.now }
    ensures { result ≡ four_at s.now at }
{
    u32::from_le_bytes([s[at], s[at + 1], s[at + 2], s[at + 3]])
}

fn settings_in(s: &[u8]) -> Settings
    requires { head_size ≤ length s.now }
    ensures { result ≡ settings_in s.now }
{
    Settings {
        rows: s[0],
        columns: s[1],
        mode: s[2],
        question: s[3] != 0,
        rules: s[4],
    }
}

fn counts_in(s: &[u8]) -> Counts
    requires { head_size ≤ length s.now }
    ensures { result ≡ counts_in s.now }
{
    Counts {
        left: four_at(s, 16),
        right: four_at(s, 20),
        double: four_at(s, 24),
        lce: four_at(s, 28),
        dce: four_at(s, 36),
        flag: four_at(s, 40),
        unopened: four_at(s, 52),
    }
}

fn secrets_in(s: &[u8]) -> Secrets
    requires { head_size ≤ length s.now }
    ensures { result ≡ secrets_in s.now }
{
    Secrets {
        rce: four_at(s, 32),
        solved_left: four_at(s, 44),
        solved_chord: four_at(s, 48),
    }
}

// The position that stands at the front of the bytes.
fn position_in(s: &[u8]) -> Position
    requires { head_size ≤ length s.now }
    ensures { result ≡ position_in s.now }
{
    Position {
        settings: settings_in(s),
        game: GameState::from(s[5]),
        mouse: MouseState::from(s[6]),
        middle: s[7] != 0,
        preflags: four_at(s, 8),
        events: four_at(s, 12),
        counts: counts_in(s),
        secrets: secrets_in(s),
    }
}

// A desk taken up from a room: its cells and bits are written into the lent boards.
pub fn take_desk(room: &[u8], at: usize, shown: &mut [u8], bits: &mut [u8]) -> Position
    requires { at + slot_size (length shown.old) (length bits.old) ≤ length room.now }
    ensures { desk result shown.new bits.new ≡ desk_in (length shown.old) (length bits.old) (drop at room.now) }
{
    let cells = at + HEAD;
    let first = cells + shown.len();
    let last = first + bits.len();
    // By `writing`, and not by `copy_from_slice`, which calls `memmove`.
    writing::put_bytes(&mut *shown, 0, &room[cells..first]);
    writing::put_bytes(&mut *bits, 0, &room[first..last]);
    position_in(&room[at..])
}
