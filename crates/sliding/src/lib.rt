// An accepted drag, from the fresh desk: from the largest kept desk not after n, if what stands in its slot can be right, else from the start.
// The contracts cite specs/Drag.antt over the chapter Slides.
#![tactic(auto)]

ghost use Rattle.std.specs.Prelude.{◌≡◌, ◌&&◌, ◌/◌, ◌≤◌, eqb, ltb, leb};
ghost use Rattle.rules.specs.Words.{pick};
ghost use Rattle.rules.specs.Clicks.{desk};
ghost use Rattle.rules.specs.Lawful.{lawful};
ghost use Rattle.cells.specs.Promises.{Leaves};
ghost use Rattle.lawful.specs.Parts.{Checkable};
ghost use Rattle.rules.specs.Slides.{same_settings};
ghost use Rattle.records.specs.Entries.{records_in};
ghost use Rattle.keeping.specs.Keeps.{kept_of};
ghost use Rattle.sliding.specs.Drag.{Ready, Startable, slid, drag_from, drag_to};

use gliding::Glided;
use rules::{Position, Settings};

// From which event a drag started, and what it came to.
#[derive(Clone, Copy)]
pub struct Slid {
    pub start: usize,
    pub glided: Glided,
}

// What a slider says is kept, as far as the room can hold it.
fn held(kept: usize, most: usize) -> usize
    ensures { result ≡ pick (ltb most kept) 0 kept }
{
    if most < kept { 0 } else { kept }
}

// The largest kept not after n, counted in slots.
fn slot_for(n: usize, k: usize, kept: usize) -> usize
    requires { 1 ≤ k }
    ensures { result ≡ pick (leb kept (n / k)) kept (n / k) }
{
    kept.min(n / k)
}

// What was taken up can be the desk after m events.
fn is_right(g: Settings, m: usize, p: Position, mines: &[i8], shown: &[u8], bits: &[u8]) -> bool
    requires { Checkable mines.now shown.now bits.now }
    ensures { result ≡ (same_settings g p.settings && (eqb p.events m && lawful mines.now (desk p shown.now bits.now))) }
{
    let same = g == p.settings;
    let fine = lawful::lawful_refusal(p, mines, shown, bits).is_ok();
    same & ((p.events as usize == m) & fine)
}

// From slot j - 1, if what stands there can be right; else from the start, with nothing kept.
fn slide_from(
    p: Position,
    n: usize,
    k: usize,
    kept: usize,
    j: usize,
    section: &[u8],
    mines: &[i8],
    shown: &mut [u8],
    bits: &mut [u8],
    work: &mut [u16],
    room: &mut [u8],
) -> Slid
    requires ready { Ready mines.now k p shown.old bits.old work.old × (n ≤ records_in section.now) }
    requires startable { Startable p.settings n k j room.old }
    ensures { Leaves (slid result shown.new bits.new room.new) (drag_from mines.now section.now p.settings n k j (kept_of kept room.old)) work.old work.new }
{
    let g = p.settings;
    let size = keeping::HEAD + shown.len() + bits.len();
    let at = (j - 1) * size;
    let m = j * k;
    let q = keeping::take_desk(&*room, at, &mut *shown, &mut *bits);
    if is_right(g, m, q, mines, &*shown, &*bits) {
        let o = gliding::glide(
            q,
            m,
            n,
            k,
            kept,
            section,
            mines,
            &mut *shown,
            &mut *bits,
            &mut *work,
            &mut *room,
        );
        return Slid {
            start: m,
            glided: o,
        };
    }
    let f = boards::fresh_desk(g, mines, &mut *shown, &mut *bits);
    let o = gliding::glide(
        f,
        0,
        n,
        k,
        0,
        section,
        mines,
        &mut *shown,
        &mut *bits,
        &mut *work,
        &mut *room,
    );
    Slid {
        start: 0,
        glided: o,
    }
}

// An accepted drag to event n, on the fresh desk.
pub fn slide_to(
    p: Position,
    n: usize,
    k: usize,
    kept: usize,
    section: &[u8],
    mines: &[i8],
    shown: &mut [u8],
    bits: &mut [u8],
    work: &mut [u16],
    room: &mut [u8],
) -> Slid
    requires { Ready mines.now k p shown.old bits.old work.old × (n ≤ records_in section.now) }
    ensures { Leaves (slid result shown.new bits.new room.new) (drag_to mines.now section.now p.settings n k (kept_of kept room.old)) work.old work.new }
{
    let size = keeping::HEAD + shown.len() + bits.len();
    let most = room.len() / size;
    let h = held(kept, most);
    let j = slot_for(n, k, h);
    if j == 0 {
        let o = gliding::glide(
            p,
            0,
            n,
            k,
            h,
            section,
            mines,
            &mut *shown,
            &mut *bits,
            &mut *work,
            &mut *room,
        );
        return Slid {
            start: 0,
            glided: o,
        };
    }
    slide_from(
        p,
        n,
        k,
        h,
        j,
        section,
        mines,
        &mut *shown,
        &mut *bits,
        &mut *work,
        &mut *room,
    )
}
