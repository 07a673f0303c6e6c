// A line of characters: those of a piece that stand in the cursor's line with room for another after each, in one loop.
// It may use text_cells, glyphs and cells for what is drawn, moves for the cursor and what is marked. It knows no state, so that the
// compiler need not lay one down for each byte, and what a line has written is marked once.
// Its contract says that the line is the fold of its single bytes.
#![tactic(auto)]

ghost use Rattle.std.specs.Prelude.{◌≡◌, ◌&&◌, ◌+◌, ◌*◌, ◌≤◌, ◌<◌, length, get_or, leb};
ghost use Rattle.paper.specs.Panel.{font_length};
ghost use Rattle.paper.specs.Downloads.{glyph_of};
ghost use Rattle.laws_memory.specs.Rectangles.{Fits, Within};
ghost use Rattle.laws_state.specs.Room.{Usable, Room};
ghost use Rattle.glyphs.specs.Faces.{faces_of};
ghost use Rattle.cells.specs.Drawn.{drawn};
ghost use Rattle.text_cells.specs.Inked.{Inked};
ghost use Rattle.runs_line.specs.Went.{Went, pen_at, drawn_to};

use glyphs::{Cell, Faces};
use moves::Spot;
use paper::{Module, Rect};

// Where a run of characters ended: the spot, and the place after its last byte.
#[derive(Clone, Copy)]
pub struct Drawn {
    pub spot: Spot,
    pub at: usize,
}

// Where a line ended, drawn as far as the memory's column `end`: all since the spot's column, l rows high, is marked at once.
fn drawn_to(p: Spot, l: usize, end: usize, at: usize) -> Drawn
    requires { (p.view.left + p.view.x ≤ end) × (end < 65536) × (p.view.top + (p.view.y + l) < 65536) }
    ensures { result ≡ drawn_to (pen_at p l end) at }
{
    let v = p.view;
    let x = end - v.left;
    let line = Rect {
        left: v.left + v.x,
        top: v.top + v.y,
        width: x - v.x,
        height: l,
    };
    let spot = p.marked(line).place(x, v.y);
    Drawn { spot, at }
}

// Whether a character stands at place i of a piece, and the cells of it and of another end in the range: at column `to`.
fn goes_on(piece: &[u8], i: usize, to: usize, end: usize) -> bool
    ensures { result ≡ (leb 0x20 (get_or piece.now i 0) && leb to end) }
{
    i < piece.len() && (0x20 <= piece[i]) & (to <= end)
}

// The whole cell of a code. Without downloads it is one test more, which a loop over characters makes before it begins.
fn draw_code(g: Module, mem: &mut [u8], faces: Faces<'_>, code: u8, cell: Cell, r: Rect)
    requires within { Within g r × Fits g mem.old × (length faces.font.now ≡ font_length g) × (0x20 ≤ code) }
    requires le_across { (1 ≤ cell.style.across) × (cell.style.down ≤ 2) × (cell.rows ≡ cell.style.down) }
    requires width_value { (r.width ≡ cell.columns) × (r.height ≡ cell.rows) }
    ensures { mem.new ≡ drawn g (glyph_of g (faces_of faces.entry) code) cell.blanks cell.style r
        mem.old }
{
    if faces.own.len() == 0 {
        let cols = glyphs::font_glyph(g, faces.font, code);
        cells::draw_whole(g, mem, cols, cell, r.left, r.top);
        return;
    }
    text_cells::draw_found(g, mem, faces, code, cell.blanks, cell.style, r);
}

// The characters that stand in the cursor's line with room for another after each.
pub fn line(
    g: Module,
    mem: &mut [u8],
    faces: Faces<'_>,
    p: Spot,
    cell: Cell,
    piece: &[u8],
    from: usize,
) -> Drawn
    requires usable { Usable g × (Room g p.view cell.columns cell.rows × (Inked g faces.font.now cell 0x20 × Fits g mem.old)) }
    requires from_in_bounds { (from < length piece.now) × (0x20 ≤ get_or piece.now from 0) }
    requires columns_bound { (p.view.x + 2 * cell.columns ≤ p.view.width) × (p.view.y + cell.rows ≤ p.view.height) }
    ensures { (from < result.at) × Went g (faces_of faces.entry) cell.blanks cell.style p mem.old
        piece.now from result mem.new }
{
    let v = p.view;
    let end = v.left + v.width;
    let c = cell.columns;
    let mut r = Rect {
        left: v.left + v.x,
        top: v.top + v.y,
        width: c,
        height: cell.rows,
    };
    let mut i = from;
    // the loop ends by one test of byte and room (docs/PROVING.md): a `for` would ask for the byte first
    while goes_on(piece, i, r.left + 2 * c, end) {
        draw_code(g, mem, faces, piece[i], cell, r);
        r.left += c;
        i += 1;
    }
    drawn_to(p, r.height, r.left, i)
}
