// An accepted book's events played, in room of its own: the last play, accepted or refused.
// The contracts cite specs/Ends.antt; what is lent to the game is a part of the rooms for every book.
#![tactic(auto)]

ghost use Rattle.std.specs.Prelude.{◌≡◌};
ghost use Rattle.rules.specs.Book.{book_of};
ghost use Rattle.printing.specs.Boards.{Fit};
ghost use Rattle.endings.specs.Ends.{LastPlayed};

use rules::{Book, Played};

// On boards of the book's size.
fn play_on(
    s: &[u8],
    b: Book,
    mines: &mut [i8],
    shown: &mut [u8],
    bits: &mut [u8],
    work: &mut [u16],
) -> Played
    requires b_value { (b ≡ book_of s.now) × (b.number ≡ 0) }
    requires fit { Fit b.settings mines.old shown.old bits.old work.old }
    ensures { LastPlayed s.now b result }
{
    let p = printing::begin(s, b, &mut *mines, &mut *shown, &mut *bits, &mut *work);
    let events = book::events(s, b);
    flows::flow(p, events, &*mines, &mut *shown, &mut *bits, &mut *work)
}

pub fn play_book(s: &[u8], b: Book) -> Played
    requires { (b ≡ book_of s.now) × (b.number ≡ 0) }
    ensures { LastPlayed s.now b result }
{
    let mut mines = player::mine_board();
    let mut shown = player::shown_board();
    let mut bits = player::flag_bits();
    let mut work = player::work_room();
    let cells = boards::cell_count(b.settings.rows, b.settings.columns);
    let bytes = (cells + 7) / 8;
    play_on(
        s,
        b,
        &mut mines[..cells],
        &mut shown[..cells],
        &mut bits[..bytes],
        &mut work,
    )
}
