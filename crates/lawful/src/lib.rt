// 261 to 264: the lawful position, clause by clause, in the four parts and the order of rules' Lawful: shown values, bits, counts, what the states ask.
// One scan counts the shown board. The tests of the counts are made in 64 bits, where no sum of given counts wraps.
#![tactic(auto)]

ghost use Rattle.std.specs.Prelude.{◌≡◌, List, ℕ, ◌+◌, ◌*◌, ◌<◌, ◌≤◌, length, ℤ};
ghost use Rattle.rules.specs.declared.Position.{Position};
ghost use Rattle.rules.specs.States.{is_not_flag};
ghost use Rattle.rules.specs.Refusals.{found_number};
ghost use Rattle.rules.specs.Clicks.{desk};
ghost use Rattle.rules.specs.Lawful.{unopened_in, cell_lawful, shown_lawful, bits_lawful, counts_lawful, game_lawful, states_lawful, lawful_refusal};
ghost use Rattle.cells.specs.Ground.{Valued};
ghost use Rattle.lawful.specs.Parts.{Counted, OneMore, Checkable, cells_lawful, bit_lawful, byte_lawful};

use rules::{GameState, MouseState, Position, Refusal};

// How many cells show 0 to 8, and how many 11, 14 and 15.
#[derive(Clone, Copy)]
pub struct Census {
    pub opens: u32,
    pub flags: u32,
    pub wrong: u32,
    pub hits: u32,
}

fn count_cell(past: Census, x: u8) -> Census
    requires { (past.opens ≤ 65535) × (past.flags ≤ 65535) × (past.wrong ≤ 65535) × (past.hits ≤ 65535) }
    ensures { OneMore past x result }
{
    let open = u32::from(x <= 8);
    let flag = u32::from(x == 11);
    let wrong = u32::from(x == 14);
    let hit = u32::from(x == 15);
    Census {
        opens: past.opens + open,
        flags: past.flags + flag,
        wrong: past.wrong + wrong,
        hits: past.hits + hit,
    }
}

fn take_census(shown: &[u8]) -> Census
    requires { length shown.now ≤ 2048 }
    ensures { Counted shown.now (length shown.now) result }
{
    let mut c = Census {
        opens: 0,
        flags: 0,
        wrong: 0,
        hits: 0,
    };
    for x in shown {
        c = count_cell(c, *x);
    }
    c
}

fn is_not_flag(m: MouseState) -> bool
    ensures { result ≡ is_not_flag m }
{
    matches!(m, MouseState::UpDownNotFlag | MouseState::ChordingNotFlag)
}

// ---- shown values ----------------------------------------------------------------------------------------------------------------------

// A cell whose face is f shows x.
fn cell_lawful(question: bool, loss: bool, f: u8, x: u8) -> bool
    ensures { result ≡ cell_lawful question loss f x }
{
    if x <= 8 {
        return x == f;
    }
    if x == 10 {
        return true;
    }
    if x == 11 {
        return true;
    }
    if x == 17 {
        return question;
    }
    if x == 14 {
        return loss & (f != 15);
    }
    (x == 15) & (loss & (f == 15))
}

// Every cell shows what it may; the scan stops at the first that does not.
fn cells_lawful(question: bool, loss: bool, mines: &[i8], shown: &[u8]) -> bool
    requires mines_len { length mines.now ≡ length shown.now }
    requires valued { Valued mines.now }
    ensures { result ≡ cells_lawful question loss mines.now shown.now (length shown.now) }
{
    for i in 0..shown.len() {
        let f = cells::face_at(mines, i);
        let fine = cell_lawful(question, loss, f, shown[i]);
        if !fine {
            return false;
        }
    }
    true
}

// Only shown values that may be, and 14 only where a 15 is shown somewhere too.
pub fn shown_lawful(p: Position, mines: &[i8], shown: &[u8], c: Census) -> bool
    requires mines_len { length mines.now ≡ length shown.now }
    requires valued { Valued mines.now }
    requires counted { Counted shown.now (length shown.now) c }
    ensures { (bits : List ℕ) → result ≡ shown_lawful mines.now (desk p shown.now bits) }
{
    let loss = p.game == GameState::Loss;
    let fine = cells_lawful(p.settings.question, loss, mines, shown);
    fine & ((c.wrong == 0) | (1 <= c.hits))
}

// ---- bits ------------------------------------------------------------------------------------------------------------------------------

// The bit is clear, or that of a mine.
fn bit_lawful(mines: &[i8], bits: &[u8], n: usize) -> bool
    requires n_bound { n < 8 * length bits.now }
    requires valued { Valued mines.now }
    ensures { result ≡ bit_lawful mines.now bits.now n }
{
    let set = bits::test_bit(bits, n);
    if !set {
        return true;
    }
    if mines.len() <= n {
        return false;
    }
    cells::face_at(mines, n) == 15
}

// Each bit of a byte is clear, or that of a mine; a byte that is 0 has none.
fn byte_lawful(mines: &[i8], bits: &[u8], at: usize) -> bool
    requires at_in_bounds { at < length bits.now }
    requires bits_len_bound { length bits.now ≤ 2048 }
    requires valued { Valued mines.now }
    ensures { result ≡ byte_lawful mines.now bits.now at }
{
    if bits[at] == 0 {
        return true;
    }
    let mut all = true;
    for k in 0..8 {
        let fine = bit_lawful(mines, bits, 8 * at + k);
        all = all & fine;
    }
    all
}

// Bits only on mines, so that the spare bits are clear.
pub fn bits_lawful(mines: &[i8], bits: &[u8]) -> bool
    requires bits_len_bound { length bits.now ≤ 2048 }
    requires valued { Valued mines.now }
    ensures { (p : Position) (shown : List ℕ) → result ≡ bits_lawful mines.now (desk p shown bits.now) }
{
    for at in 0..bits.len() {
        let fine = byte_lawful(mines, bits, at);
        if !fine {
            return false;
        }
    }
    true
}

// ---- counts ----------------------------------------------------------------------------------------------------------------------------

// The counts against the events, the shown board and the safe cells not open.
pub fn counts_lawful(p: Position, c: Census, unopened: u32) -> bool
    ensures { (B : List ℤ) (shown bits : List ℕ) → Counted shown (length shown) c → unopened ≡ unopened_in B shown → result ≡ counts_lawful B (desk p shown bits) }
{
    let n = p.events;
    let flags = u64::from(c.flags) + u64::from(c.wrong);
    let opens = u64::from(c.opens) + u64::from(c.hits);
    let doubles = u64::from(n) + opens;
    let solved = u64::from(p.secrets.solved_left) + u64::from(p.secrets.solved_chord);
    let sums = (u64::from(p.counts.double) <= doubles) & (solved <= u64::from(c.opens));
    let rest = (p.secrets.rce <= n)
        & ((p.counts.dce <= n) & ((p.preflags <= n) & ((n <= 65535) & sums)));
    let all = (p.counts.left <= n) & ((p.counts.right <= n) & ((p.counts.lce <= n) & rest));
    (u64::from(p.counts.flag) == flags) & ((p.counts.unopened == unopened) & all)
}

// ---- what the states ask ---------------------------------------------------------------------------------------------------------------

// Whether a safe cell is left is read from their number, which was tested before.
fn game_lawful(g: GameState, p: Position, c: Census) -> bool
    ensures { (B : List ℤ) (shown bits : List ℕ) → Counted shown (length shown) c → p.counts.unopened ≡ unopened_in B shown → result ≡ game_lawful g B (desk p shown bits) }
{
    match g {
        GameState::Ready => {
            (c.flags == 0) & ((p.preflags == 0) & (!is_not_flag(p.mouse) & (c.opens == 0)))
        }
        GameState::PreFlaging => (c.flags <= p.preflags) & (c.opens == 0),
        GameState::Playing => p.counts.unopened != 0,
        GameState::Win => p.counts.unopened == 0,
        GameState::Loss => true,
    }
}

// What the game state asks; a NotFlag mouse state has right at least 1; the rules are 1 or 2.
pub fn states_lawful(p: Position, c: Census) -> bool
    ensures { (B : List ℤ) (shown bits : List ℕ) → Counted shown (length shown) c → p.counts.unopened ≡ unopened_in B shown → result ≡ states_lawful B (desk p shown bits) }
{
    let asked = game_lawful(p.game, p, c);
    let ruled = cells::rules_ok(p.settings.rules);
    asked & ((!is_not_flag(p.mouse) | (1 <= p.counts.right)) & ruled)
}

// ---- the chain -------------------------------------------------------------------------------------------------------------------------

// The refusal of a position that is not lawful.
pub fn lawful_refusal(p: Position, mines: &[i8], shown: &[u8], bits: &[u8]) -> Result<(), Refusal>
    requires { Checkable mines.now shown.now bits.now }
    ensures { found_number result ≡ lawful_refusal mines.now (desk p shown.now bits.now) }
{
    let c = take_census(shown);
    if !shown_lawful(p, mines, shown, c) {
        return Err(Refusal::Shown);
    }
    if !bits_lawful(mines, bits) {
        return Err(Refusal::Bits);
    }
    // every open cell is safe: 261 has seen to that
    let safe = boards::safe_cells(mines);
    let unopened = safe - c.opens;
    if !counts_lawful(p, c, unopened) {
        return Err(Refusal::Counts);
    }
    if !states_lawful(p, c) {
        return Err(Refusal::States);
    }
    Ok(())
}
