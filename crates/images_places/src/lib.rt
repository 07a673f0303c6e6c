// Places of images: an image's byte stored, and the place of the next.
// It may use cells_bytes for a byte that is stored. It marks nothing, and knows no piece of bytes.
#![tactic(auto)]

ghost use Rattle.std.specs.Prelude.{◌≡◌, ◌+◌, ◌≤◌, ◌<◌};
ghost use Rattle.paper.specs.Strokes.{apply_all};
ghost use Rattle.paper.specs.Carry.{image_strokes};
ghost use Rattle.laws_memory.specs.Rectangles.{Fits};
ghost use Rattle.laws_state.specs.Room.{Usable, InMemory};
ghost use Rattle.images_places.specs.Places.{place_after, from_cursor};

use paper::{Module, Style, View};

// The place of an image's byte. A place that goes in stays two numbers, as the paper's definitions take it.
#[derive(Clone, Copy)]
pub struct Place {
    pub column: u16,
    pub row: u16,
}

// The place after another, column by column, top first. (As one if/else an image's byte takes 3.0 ns or more and not 2.9.)
pub fn place_after(height: u16, column: u16, row: u16) -> Place
    requires { (row < height) × (column + 1 < 65536) }
    ensures { result ≡ place_after height column row }
{
    if row + 1 < height {
        return Place {
            column,
            row: row + 1,
        };
    }
    Place {
        column: column + 1,
        row: 0,
    }
}

// What of a range lies right of its cursor and below, with the cursor at its top left: an image is stored there alike, and its loop has
// less to keep.
pub fn from_cursor(v: View) -> View
    requires { (v.x ≤ v.width) × (v.y ≤ v.height) × (v.left + v.width < 65536) × (v.top + v.height < 65536) }
    ensures { result ≡ from_cursor v }
{
    View {
        left: v.left + v.x,
        top: v.top + v.y,
        width: v.width - v.x,
        height: v.height - v.y,
        x: 0,
        y: 0,
        ..v
    }
}

// Stores one byte of an image, so far from the cursor; outside the range it is consumed. Nothing is marked.
pub fn store(g: Module, mem: &mut [u8], v: View, style: Style, column: u16, row: u16, byte: u8)
    requires { Usable g × (InMemory g v × Fits g mem.old) }
    ensures { mem.new ≡ apply_all g mem.old (image_strokes v style column row byte) }
{
    let x = v.x + (column as usize);
    let y = v.y + (row as usize);
    if (x < v.width) & (y < v.height) {
        cells_bytes::store(g, mem, style, v.left + x, v.top + y, byte);
    }
}
