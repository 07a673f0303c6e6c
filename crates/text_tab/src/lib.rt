// Cells of text with their steps: the cell of a code, or an all-off one, drawn at the cursor, and HT after it.
// It may use text_cells and cells_bytes for what is drawn, moves and moves_tab for the cursor; it does not ask whether the cell fits.
// Each contract says that what was done is what the paper's definition of the same name means.
#![tactic(auto)]

ghost use Rattle.paper.specs.Moves.{draw_tab, blank_tab};
ghost use Rattle.laws_memory.specs.Rectangles.{Fits};
ghost use Rattle.laws_state.specs.Room.{Usable, Room};
ghost use Rattle.glyphs.specs.Cell.{Drawable};
ghost use Rattle.glyphs.specs.Faces.{faces_of};
ghost use Rattle.moves.specs.Does.{Does};
ghost use Rattle.text_cells.specs.Inked.{Inked};

use glyphs::{Cell, Faces};
use moves::Spot;
use paper::Module;

// Draws the cell of a code at the cursor, then HT. (Here, below and in runs::push what is drawn differs, or the move behind it, and each contract
// names its own definition: one function that takes either is no plainer.)
pub fn draw_tab(g: Module, mem: &mut [u8], faces: Faces<'_>, p: Spot, cell: Cell, code: u8) -> Spot
    requires { Usable g × (Room g p.view cell.columns cell.rows × (Inked g faces.font.now cell code × Fits g mem.old)) }
    ensures { Does g p.spans mem.old result mem.new
        (draw_tab g (faces_of faces.entry) cell.blanks cell.style code p.view) }
{
    let r = text_cells::inside(p.view, cell.columns, cell.rows);
    text_cells::draw_code(g, mem, faces, code, cell.blanks, cell.style, r);
    moves_tab::tab(g, mem, p.marked(r), cell.columns, cell.rows)
}

// Draws an all-off cell at the cursor, then HT.
pub fn blank_tab(g: Module, mem: &mut [u8], p: Spot, cell: Cell) -> Spot
    requires { Usable g × (Room g p.view cell.columns cell.rows × (Drawable g cell × Fits g mem.old)) }
    ensures { Does g p.spans mem.old result mem.new (blank_tab g cell.blanks cell.style p.view) }
{
    let r = text_cells::inside(p.view, cell.columns, cell.rows);
    cells_bytes::blank(g, mem, cell.style, r);
    moves_tab::tab(g, mem, p.marked(r), cell.columns, cell.rows)
}
