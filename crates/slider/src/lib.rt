// THE SLIDER over a recorded game: opened on a book, dragged to an event, reset. It says how many positions are kept in the room that the caller lends.
// Public: nothing here asks anything of its caller but drag_refusal and drag_on, which `drag_to` calls. The contracts cite specs/Promises.antt over
// the chapter Slides.
#![tactic(auto)]

ghost use Rattle.std.specs.Prelude.{◌≡◌, List, ℕ, ◌≤◌, ℤ, eqb, leb, length};
ghost use Rattle.rules.specs.Words.{pick};
ghost use Rattle.rules.specs.Book.{book_of};
ghost use Rattle.rules.specs.Refusals.{found_number};
ghost use Rattle.printing.specs.Boards.{Fit};
ghost use Rattle.rules.specs.Slides.{lent_fits_of, room_fits, drag_refusal, undragged};
ghost use Rattle.keeping.specs.Keeps.{kept_of};
ghost use Rattle.slider.specs.Promises.{lent_of, dragged_by, dragged_on, OpenIs, ResetIs, DragIs};

use rules::{Book, Position, Refusal, Settings};

#[derive(Clone, Copy)]
pub struct Slider {
    pub kept: usize,
}

// The book's own refusal with its byte place, or 0; and the slider. A number and no Result: `OpenIs` of specs/Promises.antt reads all three of any opening.
#[derive(Clone, Copy)]
pub struct Opening {
    pub number: u16,
    pub place: usize,
    pub slider: Slider,
}

// The call's refusal, or 0, with the book's byte place; from which event the drag started, what `step_flow` answers, the position, and the slider.
// Numbers and no Result: `DragIs` of specs/Promises.antt reads every part of a refused drag too.
#[derive(Clone, Copy)]
pub struct Drag {
    pub number: u16,
    pub place: usize,
    pub start: usize,
    pub answer: u16,
    pub position: Position,
    pub slider: Slider,
}

pub fn open(s: &[u8]) -> Opening
    ensures { OpenIs s.now result }
{
    let b = book::read_book(s);
    let slider = Slider { kept: 0 };
    Opening {
        number: b.number,
        place: b.place,
        slider,
    }
}

pub fn reset(mut slider: Slider) -> Slider
    ensures { ResetIs slider result }
{
    slider.kept = 0;
    slider
}

// ---- the refusals ----------------------------------------------------------------------------------------------------------------------

// The boards have exactly their lengths, and the work its room.
fn lent_fits(g: Settings, mines: &[i8], shown: &[u8], bits: &[u8], work: &[u16]) -> bool
    ensures { result ≡ lent_fits_of g (lent_of mines.now shown.now bits.now work.now) }
{
    let cells = boards::cell_count(g.rows, g.columns);
    let fit = (mines.len() == cells) & ((shown.len() == cells) & (bits.len() == (cells + 7) / 8));
    fit & (8 * cells + 8 <= work.len())
}

// The room is none, or holds at least one position.
fn room_fits(g: Settings, room: usize) -> bool
    ensures { result ≡ room_fits g room }
{
    let cells = boards::cell_count(g.rows, g.columns);
    (room == 0) | (keeping::HEAD + (cells + (cells + 7) / 8) <= room)
}

// Of a book that has no refusal of its own.
fn drag_refusal(
    b: Book,
    n: usize,
    k: usize,
    room: usize,
    mines: &[i8],
    shown: &[u8],
    bits: &[u8],
    work: &[u16],
) -> Result<(), Refusal>
    requires { b.number ≡ 0 }
    ensures { found_number result ≡ drag_refusal b n k room (lent_of mines.now shown.now bits.now work.now) }
{
    let g = b.settings;
    if !lent_fits(g, mines, shown, bits, work) {
        return Err(Refusal::Length);
    }
    if b.events < n {
        return Err(Refusal::Stop);
    }
    if k == 0 {
        return Err(Refusal::Stride);
    }
    if !room_fits(g, room) {
        return Err(Refusal::Room);
    }
    Ok(())
}

// ---- a drag ----------------------------------------------------------------------------------------------------------------------------

// What `step_flow` answers of the last event: 0, or its refusal.
fn flow_number(a: u16) -> u16
    ensures { result ≡ pick (leb 20 a) a 0 }
{
    if 20 <= a { a } else { 0 }
}

// A refused drag: nothing is changed, the slider too.
fn refused(b: Book, number: u16, slider: Slider) -> Drag
    ensures { (mines : List ℤ) (shown bits work room : List ℕ) → dragged_by result mines shown bits work room ≡ undragged b number (kept_of slider.kept room) (lent_of mines shown bits work) }
{
    Drag {
        number,
        place: b.place,
        start: 0,
        answer: 0,
        position: rules::fresh(b.settings, 0),
        slider,
    }
}

// An accepted drag.
fn drag_on(
    slider: Slider,
    s: &[u8],
    b: Book,
    n: usize,
    k: usize,
    mines: &mut [i8],
    shown: &mut [u8],
    bits: &mut [u8],
    work: &mut [u16],
    room: &mut [u8],
) -> Drag
    requires b_value { (b ≡ book_of s.now) × (b.number ≡ 0) }
    requires fit { Fit b.settings mines.old shown.old bits.old work.old }
    requires le_k { (1 ≤ k) × (n ≤ b.events) }
    ensures { dragged_by result mines.new shown.new bits.new work.new room.new ≡ dragged_on s.now b n k (kept_of slider.kept room.old) work.old }
{
    let p = printing::begin(s, b, &mut *mines, &mut *shown, &mut *bits, &mut *work);
    let events = book::events(s, b);
    let o = sliding::slide_to(
        p,
        n,
        k,
        slider.kept,
        events,
        &*mines,
        &mut *shown,
        &mut *bits,
        &mut *work,
        &mut *room,
    );
    Drag {
        number: 0,
        place: 0,
        start: o.start,
        answer: flow_number(o.glided.answer),
        position: o.glided.position,
        slider: Slider {
            kept: o.glided.kept,
        },
    }
}

// The drag to event n: the position and the boards after the first n events, or up to the first refused one. The room is the caller's, for kept
// positions alone, one after every k events.
pub fn drag_to(
    slider: Slider,
    s: &[u8],
    n: usize,
    k: usize,
    mines: &mut [i8],
    shown: &mut [u8],
    bits: &mut [u8],
    work: &mut [u16],
    room: &mut [u8],
) -> Drag
    ensures { DragIs slider.kept s.now n k mines.old shown.old bits.old work.old room.old result mines.new shown.new bits.new work.new room.new }
{
    let b = book::read_book(s);
    if b.number != 0 {
        return refused(b, b.number, slider);
    }
    if let Err(r) = drag_refusal(b, n, k, room.len(), &*mines, &*shown, &*bits, &*work) {
        return refused(b, u16::from(r), slider);
    }
    drag_on(slider, s, b, n, k, mines, shown, bits, work, room)
}
