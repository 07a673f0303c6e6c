// Marks of images: the rows that a run of an image's bytes has written, each marked once.
// It may use spans for what is marked, and moves for the spot. It writes no memory, and knows no piece of bytes.
#![tactic(auto)]

ghost use Rattle.std.specs.Prelude.{◌≡◌, ◌+◌, ◌≤◌, ◌<◌};
ghost use Rattle.images_marks.specs.Marks.{row_mark, filled_to};

use moves::Spot;
use paper::{Rect, Spans, View};

// Marks the columns `from` to `to` of an image's row: those of them that lie in the range, above its row `bottom`.
fn mark_row(spans: Spans, v: View, bottom: usize, row: usize, from: usize, to: usize) -> Spans
    requires width_bound { (v.left + v.width < 65536) × (v.top + bottom < 65536) × (v.x < 65536) × (v.y < 65536) }
    requires row_bound { (row < 2) × (from ≤ to) × (to < 131072) }
    ensures { result ≡ row_mark v bottom row from to spans }
{
    let left = (v.x + from).min(v.width);
    let right = (v.x + to).min(v.width);
    let top = (v.y + row).min(bottom);
    let end = (v.y + row + 1).min(bottom);
    spans::mark(
        spans,
        Rect {
            left: v.left + left,
            top: v.top + top,
            width: right - left,
            height: end - top,
        },
    )
}

// Where a run of image bytes ended: the spans, the place of the image's next byte, and the place in the piece. The image is whole if
// the column is its width.
#[derive(Clone, Copy)]
pub struct Filled {
    pub spans: Spans,
    pub column: u16,
    pub row: u16,
    pub at: usize,
}

// Where a run that began at (column, row) ended, its next byte at (x, y): each row is marked once.
pub fn filled_to(p: Spot, height: u16, column: u16, row: u16, x: u16, y: u16, at: usize) -> Filled
    requires width_bound { (p.view.left + p.view.width < 65536) × (p.view.top + p.view.height < 65536) × (p.view.x < 65536) × (p.view.y < 65536) }
    requires row_bound { (row < 2) × (y < 2) × (column ≤ x) × (column + row ≤ x + y) }
    ensures { result ≡ filled_to p height column row x y at }
{
    let v = p.view;
    let bottom = v.height.min(v.y + (height as usize));
    let before = p.spans;
    let first = (column as usize) + (row as usize);
    let end = (x as usize) + (y as usize);
    let upper = mark_row(before, v, bottom, 0, first, end);
    let spans = mark_row(upper, v, bottom, 1, column as usize, x as usize);
    Filled {
        spans,
        column: x,
        row: y,
        at,
    }
}
