// A light turn of the loop over a piece: characters, moves, and reverse and mixing, as many as follow each other.
// It may use runs and strides for what they do, downloads for those in force, carry_dots for the state's spot. It reads and carries
// out no command. Its contract, as that of every turn, says that feeding the bytes one by one comes to the same.
#![tactic(auto)]

ghost use Rattle.std.specs.Prelude.{◌≡◌, ◌+◌, ◌<◌, ◌≤◌};
ghost use Rattle.turns_light.specs.Turns.{Light, Due, Turned};
ghost use Rattle.turns_stretch.specs.Desk.{on_desk, turned_to};

use glyphs::Faces;
use moves::Spot;
use paper::{Fed, Module, Outcome, Settings, State, Style};
use turns_light::Turn;

// What characters, moves and styles came to: the spot and the style put into the state.
fn settled(f: Fed, p: Spot, style: Style, carried: usize, outcome: Outcome, at: usize) -> Turn
    requires { (f.state.selected ≤ 4) × (p.view.left + p.view.x < 65536) × (p.view.top + p.view.y < 65536) }
    ensures { result ≡ turned_to f.refusal (on_desk f.state style p) carried f.answered outcome at }
{
    let s = f.state;
    let settings = Settings {
        style,
        ..s.settings
    };
    let state = carry_dots::settle(State { settings, ..s }, p);
    let fed = Fed {
        state,
        carried,
        outcome,
        ..f
    };
    Turn { fed, at }
}

// Characters, moves, and reverse and mixing, as many as follow each other: the state is touched once for all of them.
pub fn feed_light(
    g: Module,
    mem: &mut [u8],
    font: &[u8],
    store: &[u8],
    piece: &[u8],
    f: Fed,
    from: usize,
) -> Turn
    requires { Due g mem.old font.now piece.now f from × Light g f.state piece.now from }
    ensures { Turned g font.now f mem.old store.now piece.now from
        result mem.new store.now }
{
    let s = f.state;
    let v = s.settings;
    let w = v.width;
    let own = downloads::in_force(store, v.switch);
    let faces = Faces { font, own };
    let p0 = carry_dots::spot_of(g, s);
    let range = p0.view;
    let mut p = p0;
    let mut style = v.style;
    let mut carried = f.carried;
    let mut outcome = f.outcome;
    let mut i = from;
    // a turn takes a run of any length, a byte or three, so no `for` can count it
    while i < piece.len() {
        if !strides::is_light(piece, i) {
            return settled(f, p, style, carried, outcome, i);
        }
        let b = piece[i];
        outcome = Outcome::Carried;
        if 0x20 <= b {
            let r = runs::run(g, mem, faces, p, w, style, piece, i);
            let at = r.at;
            let q = r.spot;
            carried += at - i;
            p = strides::in_range(range, q);
            i = at;
            continue;
        }
        carried += 1;
        if strides::is_move(b) {
            let c = glyphs::cell_width(g, w, style);
            let q = strides::step(g, mem, p, c, style.down as usize, b);
            p = strides::in_range(range, q);
            i += 1;
            continue;
        }
        style = strides::styled(style, piece[i + 1], piece[i + 2]);
        i += 3;
    }
    settled(f, p, style, carried, outcome, i)
}
