// A turn of an image's bytes: as many as follow each other.
// It may use runs_images for what they do, carry_dots for the state's spot. It reads and carries out no command.
// Its contract, as that of every turn, says that feeding the bytes one by one comes to the same.
#![tactic(auto)]

ghost use Rattle.std.specs.Prelude.{◌≡◌, List, ℕ};
ghost use Rattle.turns_light.specs.Turns.{Due, Turned};

use paper::{Fed, Half, Module, Outcome, State};
use turns_light::Turn;

// An image's byte and those that follow it.
pub fn feed_image(
    g: Module,
    mem: &mut [u8],
    font: &[u8],
    piece: &[u8],
    f: Fed,
    width: u16,
    height: u16,
    column: u16,
    row: u16,
    i: usize,
) -> Turn
    requires { Due g mem.old font.now piece.now f i × (f.state.half ≡ Half.ImageData width height column row) }
    ensures { (ds : List ℕ) → Turned g font.now f mem.old ds piece.now i result mem.new ds }
{
    let s = f.state;
    let p = carry_dots::spot_of(g, s);
    let style = s.settings.style;
    let r = runs_images::image_bytes(g, mem, p, style, width, height, column, row, piece, i);
    let at = r.at;
    let spans = r.spans;
    if r.column == width {
        let state = State {
            half: Half::Nothing,
            spans,
            ..s
        };
        let fed = Fed {
            state,
            carried: f.carried + 1,
            outcome: Outcome::Carried,
            ..f
        };
        return Turn { fed, at };
    }
    let half = Half::ImageData {
        width,
        height,
        column: r.column,
        row: r.row,
    };
    let state = State { half, spans, ..s };
    let fed = Fed {
        state,
        outcome: Outcome::Unfinished,
        ..f
    };
    Turn { fed, at }
}
