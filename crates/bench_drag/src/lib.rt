// What the bench calls to drag a slider over a book: slices and numbers only.
#![tactic(auto)]

ghost use Rattle.bench_drag.specs.Leaves.{DragLeaves};

use slider::Slider;

// `slider::drag_to`, with the number of positions kept for the slider, before and after.
#[unsafe(no_mangle)]
pub extern "C" fn bench_drag(
    kept: usize,
    s: &[u8],
    n: usize,
    k: usize,
    mines: &mut [i8],
    shown: &mut [u8],
    bits: &mut [u8],
    work: &mut [u16],
    room: &mut [u8],
) -> usize
    ensures { DragLeaves kept s.now n k mines.old shown.old bits.old work.old room.old result mines.new shown.new bits.new work.new room.new }
{
    let slider = Slider { kept };
    let o = slider::drag_to(slider, s, n, k, mines, shown, bits, work, room);
    o.slider.kept
}
