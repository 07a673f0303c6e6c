// Strides: what of a piece is carried out without a state: a move 08h to 0Dh on a spot, reverse and mixing on a style.
// It may use moves, moves_views, moves_line and moves_tab for the moves. It knows no state, so that the compiler need not lay one down for
// each command.
// Each contract says what the paper's definitions give.
#![tactic(auto)]

ghost use Rattle.std.specs.Prelude.{◌≡◌, ◌<◌, length};
ghost use Rattle.paper.specs.Reading.{between};
ghost use Rattle.laws_memory.specs.Rectangles.{Fits};
ghost use Rattle.laws_state.specs.Room.{Usable, Room};
ghost use Rattle.laws_state.specs.Runs.{Within};
ghost use Rattle.moves.specs.Does.{Does};
ghost use Rattle.strides.specs.Strides.{step_of, is_styling, styled_by, is_light};

use moves::Spot;
use paper::{Module, Style, View};

// ---- moves

// Whether a byte is a move.
pub fn is_move(b: u8) -> bool
    ensures { result ≡ between 0x08 0x0D b }
{
    (0x08..=0x0D).contains(&b)
}

// A move by its byte: BS, HT, LF, HOM, CLR, CR. The cell is c columns wide and l rows high.
pub fn step(g: Module, mem: &mut [u8], p: Spot, c: usize, l: usize, b: u8) -> Spot
    requires { Usable g × (Room g p.view c l × Fits g mem.old) }
    ensures { Does g p.spans mem.old result mem.new (step_of g p.view c l b) }
{
    let v = p.view;
    match b {
        0x08 => Spot {
            view: moves_views::back(v, c, l),
            ..p
        },
        0x09 => moves_tab::tab(g, mem, p, c, l),
        0x0A => moves_line::line_feed(g, mem, p, l),
        0x0B => Spot {
            view: moves::to(v, 0, 0),
            ..p
        },
        0x0C => moves::clear(g, mem, p),
        _ => Spot {
            view: moves::to(v, 0, v.y),
            ..p
        },
    }
}

// The spot itself, put together again from its range and where it is in it: so the compiler sees that a loop leaves the range alone.
pub fn in_range(v: View, p: Spot) -> Spot
    requires { Within v p.view }
    ensures { result ≡ p }
{
    let view = View {
        x: p.view.x,
        y: p.view.y,
        mode: p.view.mode,
        ..v
    };
    Spot { view, ..p }
}

// ---- reverse and mixing

// Whether the command at i is a reverse or a mixing that stands whole in the piece, its parameter in its domain. Its tests are joined by &, which
// has no jumps.
pub fn is_styling(piece: &[u8], i: usize) -> bool
    requires { i < length piece.now }
    ensures { result ≡ is_styling piece.now i }
{
    if piece.len() - i < 3 {
        return false;
    }
    let b = piece[i];
    let k = piece[i + 1];
    let n = piece[i + 2];
    (b == 0x1F) & (((k == 0x72) & (n <= 1)) | ((k == 0x77) & (n <= 3)))
}

// The style with reverse (72h) or mixing (77h) changed.
pub fn styled(style: Style, k: u8, n: u8) -> Style
    ensures { result ≡ styled_by style k n }
{
    if k == 0x72 {
        Style {
            reverse: n,
            ..style
        }
    } else {
        Style { mixing: n, ..style }
    }
}

// ---- either

// Whether the byte at i is a character or a move, or begins a reverse or a mixing.
pub fn is_light(piece: &[u8], i: usize) -> bool
    requires { i < length piece.now }
    ensures { result ≡ is_light piece.now i }
{
    let b = piece[i];
    0x20 <= b || (is_move(b) || is_styling(piece, i))
}
