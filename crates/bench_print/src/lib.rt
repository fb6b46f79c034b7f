// What the bench calls to play a book and print it: slices only.
#![tactic(auto)]

ghost use Rattle.player.specs.Rooms.{PrintBookIs};

// `player::print_book`: a book read, set up, played and printed.
#[unsafe(no_mangle)]
pub extern "C" fn bench_replay(
    s: &[u8],
    mines: &mut [i8],
    shown: &mut [u8],
    bits: &mut [u8],
    work: &mut [u16],
    out: &mut [u8],
) -> usize
    ensures { PrintBookIs s.now mines.old shown.old bits.old work.old out.old result mines.new shown.new bits.new work.new out.new }
{
    player::print_book(
        s,
        &mut *mines,
        &mut *shown,
        &mut *bits,
        &mut *work,
        &mut *out,
    )
}
