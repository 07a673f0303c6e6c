// Runs of images: an image's bytes that follow each other in a piece, in one loop.
// It may use images_places for a byte, images_marks for what is marked, and moves for the spot. It knows no state, so that the compiler
// need not lay one down for each byte, and what a run has written is marked once for each row.
// The contract says that the run is the fold of its single bytes.
#![tactic(auto)]

ghost use Rattle.std.specs.Prelude.{◌≤◌, ◌<◌, length};
ghost use Rattle.laws_memory.specs.Rectangles.{Fits};
ghost use Rattle.laws_state.specs.Room.{Usable, InMemory};
ghost use Rattle.runs_images.specs.Stocked.{Stocked};

use images_marks::Filled;
use moves::Spot;
use paper::{Module, Style};

// The bytes of an image, two rows high at most, in a piece from `from` on, up to the piece's end or the image's.
pub fn image_bytes(
    g: Module,
    mem: &mut [u8],
    p: Spot,
    style: Style,
    width: u16,
    height: u16,
    column: u16,
    row: u16,
    piece: &[u8],
    from: usize,
) -> Filled
    requires usable { Usable g × (InMemory g p.view × Fits g mem.old) }
    requires column_lt_width { (column < width) × (row < height) × (height ≤ 2) × (from < length piece.now) }
    ensures { Stocked g p style width height column row mem.old piece.now from result mem.new }
{
    let v = images_places::from_cursor(p.view);
    let mut x = column;
    let mut y = row;
    let mut i = from;
    // by place: as a `for` over places a byte takes 3.5 ns and not 3.0
    while i < piece.len() {
        images_places::store(g, mem, v, style, x, y, piece[i]);
        let next = images_places::place_after(height, x, y);
        x = next.column;
        y = next.row;
        i += 1;
        if x == width {
            return images_marks::filled_to(p, height, column, row, x, y, i);
        }
    }
    images_marks::filled_to(p, height, column, row, x, y, i)
}
