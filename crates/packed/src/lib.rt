// A packed step read, and the line of an outcome written: what the program `steps` needs besides the step itself.
// specs/Packed.antt has the layout, specs/Line.antt the line. A state's byte above the last state means the last one, and a yes or no above 1
// means yes: no step that the oracle packs has such a byte.
#![tactic(auto)]

ghost use Rattle.std.specs.Prelude.{◌≡◌, ◌<◌, ◌≤◌, length};
ghost use Rattle.writing.specs.Put.{PutWithin};
ghost use Rattle.packed.specs.Packed.{four_at, settings_in, counts_in, secrets_in, position_in, signed_all};
ghost use Rattle.packed.specs.Line.{answer_numbers, outcome_line, outcome_room};

use rules::{Answer, Counts, GameState, MouseState, Position, Secrets, Settings};

// ---- a packed step's head --------------------------------------------------------------------------------------------------------------

// The bytes of a head; those that nothing names are reserved.
pub type Head = [u8; 80];

// A number of four bytes from a place on, low byte first.
fn four_at(s: &Head, at: usize) -> u32
    requires { at < 77 }
    ensures { result ≡ four_at s.now at }
{
    u32::from_le_bytes([s[at], s[at + 1], s[at + 2], s[at + 3]])
}

// A length of two bytes, as long as they allow.
pub fn length_at(s: &Head, at: usize) -> usize
    requires { at < 79 }
    ensures { result < 65536 }
{
    usize::from(u16::from_le_bytes([s[at], s[at + 1]]))
}

fn settings_in(s: &Head) -> Settings
    ensures { result ≡ settings_in s.now }
{
    Settings {
        rows: s[0],
        columns: s[1],
        mode: s[2],
        question: s[3] != 0,
        rules: s[54],
    }
}

fn counts_in(s: &Head) -> Counts
    ensures { result ≡ counts_in s.now }
{
    Counts {
        left: four_at(s, 15),
        right: four_at(s, 19),
        double: four_at(s, 23),
        lce: four_at(s, 27),
        dce: four_at(s, 35),
        flag: four_at(s, 39),
        unopened: four_at(s, 56),
    }
}

fn secrets_in(s: &Head) -> Secrets
    ensures { result ≡ secrets_in s.now }
{
    Secrets {
        rce: four_at(s, 31),
        solved_left: four_at(s, 43),
        solved_chord: four_at(s, 47),
    }
}

pub fn position_in(s: &Head) -> Position
    ensures { result ≡ position_in s.now }
{
    let settings = settings_in(s);
    let game = GameState::from(s[4]);
    let mouse = MouseState::from(s[5]);
    let counts = counts_in(s);
    let secrets = secrets_in(s);
    Position {
        settings,
        game,
        mouse,
        middle: s[6] != 0,
        preflags: four_at(s, 7),
        events: four_at(s, 11),
        counts,
        secrets,
    }
}

// ---- the mine board --------------------------------------------------------------------------------------------------------------------

// The cells of a mine board, one to a byte: 255 is -1.
pub fn sign_all(bytes: &[u8], mines: &mut [i8])
    requires { length mines.old ≡ length bytes.now }
    ensures { mines.new ≡ signed_all bytes.now }
{
    for i in 0..bytes.len() {
        mines[i] = bytes[i].cast_signed();
    }
}

// ---- the line of an outcome ------------------------------------------------------------------------------------------------------------

// The two numbers of an answer's place, its value, and the twenty of its position.
fn numbers(a: Answer) -> [u32; 23]
    ensures { result ≡ answer_numbers a }
{
    let x = a.place;
    let p = a.position;
    let s = p.settings;
    let c = p.counts;
    let k = p.secrets;
    [
        u32::from(rules::row_byte(x)),
        u32::from(rules::column_byte(x)),
        a.value,
        u32::from(s.rows),
        u32::from(s.columns),
        u32::from(s.mode),
        u32::from(s.question),
        u32::from(u8::from(p.game)),
        u32::from(u8::from(p.mouse)),
        u32::from(p.middle),
        p.preflags,
        p.events,
        c.left,
        c.right,
        c.double,
        c.lce,
        k.rce,
        c.dce,
        c.flag,
        k.solved_left,
        k.solved_chord,
        u32::from(s.rules),
        c.unopened,
    ]
}

pub fn put_outcome(out: &mut [u8], a: Answer, shown: &[u8], bits: &[u8]) -> usize
    requires { outcome_room (length shown.now) (length bits.now) ≤ length out.old }
    ensures { PutWithin (outcome_room (length shown.now) (length bits.now)) (outcome_line a shown.now bits.now) 0 out.old out.new result }
{
    let ns = numbers(a);
    let first = writing::put_decimal(&mut *out, 0, u32::from(a.number));
    let cells = writing::put_spaced(&mut *out, first, &ns);
    let bytes = writing::put_cells(&mut *out, cells, shown);
    let last = writing::put_cells(&mut *out, bytes, bits);
    writing::put_byte(&mut *out, last, b'\n')
}
