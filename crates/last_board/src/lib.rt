// A book played to its end, for programs that want its last shown board and not its printout: the board, or the text of the book's refusal.
// The contract cites specs/Last.antt: what stands in the two rooms afterwards.
#![tactic(auto)]

ghost use Rattle.std.specs.Prelude.{◌≡◌, ◌<◌, length};
ghost use Rattle.last_board.specs.Last.{Ended};

// Plays a book as it is printed, in rooms for every book. The printout stands at the front of `text`, and the answer is how many bytes it has.
pub fn play_to_end(s: &[u8], shown: &mut [u8], text: &mut [u8]) -> usize
    requires s_len_bound { length s.now < 4294967296 }
    requires value { (2048 ≡ length shown.old) × (172184 ≡ length text.old) }
    ensures { Ended s.now shown.new text.new result }
{
    let mut mines = player::mine_board();
    let mut bits = player::flag_bits();
    let mut work = player::work_room();
    player::print_book(s, &mut mines, &mut *shown, &mut bits, &mut work, &mut *text)
}
