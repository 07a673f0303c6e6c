// Text: a character drawn at the cursor, with the wrap that the mode asks for.
// It may use text_tab for what is drawn, moves_tab for HT alone; it knows nothing of windows, settings or how bytes are read.
// Its contract says that what was done is what the paper's definition of the same name means.
#![tactic(auto)]

ghost use Rattle.paper.specs.Moves.{character_of};
ghost use Rattle.laws_memory.specs.Rectangles.{Fits};
ghost use Rattle.laws_state.specs.Room.{Usable, Room};
ghost use Rattle.glyphs.specs.Faces.{faces_of};
ghost use Rattle.moves.specs.Does.{Does};
ghost use Rattle.text_cells.specs.Inked.{Inked};

use glyphs::{Cell, Faces};
use moves::Spot;
use paper::Module;

// A character: drawn where it fits; else after the wrap that the mode asks for.
pub fn character(g: Module, mem: &mut [u8], faces: Faces<'_>, p: Spot, cell: Cell, code: u8) -> Spot
    requires { Usable g × (Room g p.view cell.columns cell.rows × (Inked g faces.font.now cell code × Fits g mem.old)) }
    ensures { Does g p.spans mem.old result mem.new
        (character_of g (faces_of faces.entry) cell.blanks cell.style code p.view) }
{
    let v = p.view;
    let c = cell.columns;
    if v.x + c <= v.width {
        text_tab::draw_tab(g, mem, faces, p, cell, code)
    } else if v.mode == 3 {
        let stepped = moves_tab::tab(g, mem, p, c, cell.rows);
        text_tab::draw_tab(g, mem, faces, stepped, cell, code)
    } else {
        let blanked = text_tab::blank_tab(g, mem, p, cell);
        text_tab::draw_tab(g, mem, faces, blanked, cell, code)
    }
}
