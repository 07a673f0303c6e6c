// Runs: characters that follow each other in a piece, in one loop.
// It may use runs_line for those of one line, text for a character that wraps, text_cells for what is drawn, moves and moves_push for the
// cursor and what is marked. It knows no state, so that the compiler need not lay one down for each byte.
// Each contract says that the run is the fold of its single bytes.
#![tactic(auto)]

ghost use Rattle.std.specs.Prelude.{◌+◌, ◌*◌, ◌^◌, ◌≤◌, ◌<◌, ◌≡◌, length, get_or};
ghost use Rattle.paper.specs.Cells.{cell_width, cell_height};
ghost use Rattle.paper.specs.Moves.{character_of};
ghost use Rattle.laws_memory.specs.Rectangles.{Fits};
ghost use Rattle.laws_state.specs.Room.{Usable, Room};
ghost use Rattle.glyphs.specs.Cell.{cell_of};
ghost use Rattle.glyphs.specs.Faces.{faces_of};
ghost use Rattle.moves.specs.Does.{Does};
ghost use Rattle.text_cells.specs.Inked.{Inked};
ghost use Rattle.runs_line.specs.Went.{Went};
ghost use Rattle.runs.specs.Runs.{Ran};

use glyphs::{Cell, Faces};
use moves::Spot;
use paper::{Module, Style};
use runs_line::Drawn;

// A character in MD3's last cell: drawn, and the line pushed left. It is the mode's way with each character of a full line.
fn push(g: Module, mem: &mut [u8], faces: Faces<'_>, p: Spot, cell: Cell, code: u8) -> Spot
    requires usable { Usable g × (Room g p.view cell.columns cell.rows × (Inked g faces.font.now cell code × Fits g mem.old)) }
    requires mode_value { (p.view.mode ≡ 3) × (p.view.width < p.view.x + 2 * cell.columns) × (p.view.x + cell.columns ≤ p.view.width) }
    ensures { Does g p.spans mem.old result mem.new
        (character_of g (faces_of faces.entry) cell.blanks cell.style code p.view) }
{
    let r = text_cells::inside(p.view, cell.columns, cell.rows);
    text_cells::draw_code(g, mem, faces, code, cell.blanks, cell.style, r);
    moves_push::push_left(g, mem, p.marked(r), cell.columns, cell.rows)
}

// One character where the cursor's line has no room for another after it.
fn last(g: Module, mem: &mut [u8], faces: Faces<'_>, p: Spot, cell: Cell, code: u8) -> Spot
    requires { Usable g × (Room g p.view cell.columns cell.rows × (Inked g faces.font.now cell code × Fits g mem.old)) }
    ensures { Does g p.spans mem.old result mem.new
        (character_of g (faces_of faces.entry) cell.blanks cell.style code p.view) }
{
    let v = p.view;
    let c = cell.columns;
    if (v.mode == 3) & ((v.width < v.x + 2 * c) & (v.x + c <= v.width)) {
        push(g, mem, faces, p, cell, code)
    } else {
        text::character(g, mem, faces, p, cell, code)
    }
}

// The characters of a line; where the cursor's has no room for another after it, the one that wraps.
fn stretch(
    g: Module,
    mem: &mut [u8],
    faces: Faces<'_>,
    p: Spot,
    cell: Cell,
    piece: &[u8],
    from: usize,
) -> Drawn
    requires usable { Usable g × (Room g p.view cell.columns cell.rows × (Inked g faces.font.now cell 0x20 × Fits g mem.old)) }
    requires from_in_bounds { (from < length piece.now) × (0x20 ≤ get_or piece.now from 0) × (from + 1 < 2 ^ 64) }
    ensures { (from < result.at) × Went g (faces_of faces.entry) cell.blanks cell.style p mem.old
        piece.now from result mem.new }
{
    let v = p.view;
    if (v.x + 2 * cell.columns <= v.width) & (v.y + cell.rows <= v.height) {
        runs_line::line(g, mem, faces, p, cell, piece, from)
    } else {
        let spot = last(g, mem, faces, p, cell, piece[from]);
        Drawn { spot, at: from + 1 }
    }
}

// The characters of a piece from `from` on, up to the first byte that is none.
pub fn run(
    g: Module,
    mem: &mut [u8],
    faces: Faces<'_>,
    p: Spot,
    w: u8,
    style: Style,
    piece: &[u8],
    from: usize,
) -> Drawn
    requires usable { Usable g × (Room g p.view (cell_width g w style) (cell_height style) × (Inked g faces.font.now (cell_of g w style) 0x20 × Fits g mem.old)) }
    requires from_in_bounds { (from < length piece.now) × (0x20 ≤ get_or piece.now from 0) }
    ensures { Ran g (faces_of faces.entry) w style p mem.old piece.now from result mem.new }
{
    let cell = glyphs::cell_of(g, w, style);
    let mut q = p;
    let mut i = from;
    // a turn takes a stretch of any length, so no `for` can count it
    while i < piece.len() {
        let b = piece[i];
        if b < 0x20 {
            return Drawn { spot: q, at: i };
        }
        let r = stretch(g, mem, faces, q, cell, piece, i);
        q = r.spot;
        i = r.at;
    }
    Drawn { spot: q, at: i }
}
