// The bytes of a command read together.
// It may use reading for what a byte completes, turns_half for where an image's data begins. It knows no state.
// Its contract says that what they are read as is what they are read as one by one, and that it is nothing that a light turn or an
// image's takes.
#![tactic(auto)]

ghost use Rattle.std.specs.Prelude.{◌≡◌, true, false, ◌<◌, ◌≤◌, length, drop};
ghost use Rattle.paper.specs.Bounds.{half_ok};
ghost use Rattle.carry_command.specs.Heavy.{heavy};
ghost use Rattle.turns_half.specs.Halves.{is_image};
ghost use Rattle.turns_light.specs.Turns.{light_start, Gathers};

use paper::{Half, Module, Reading};

// What the bytes of a command came to: what the last of them gave, and the place after it.
#[derive(Clone, Copy)]
pub struct Gathered {
    pub reading: Reading,
    pub at: usize,
}

// The bytes of a command from `from` on, up to the one that completes it, the one before an image's data, or the piece's end. It knows
// no state: one is touched once for each command and not for each of its bytes.
pub fn gather(g: Module, half: Half, piece: &[u8], from: usize) -> Gathered
    requires { (from < length piece.now) × (half_ok g half ≡ true) × (is_image half ≡ false) }
    ensures { (from < result.at) × (result.at ≤ length piece.now)
        × Gathers g (Reading.More half) (drop from piece.now) result.reading (drop result.at piece.now)
        × (heavy (light_start half piece.now from) result.reading ≡ true) }
{
    let mut h = half;
    for i in from..piece.len() {
        let r = reading::read(g, h, piece[i]);
        let Reading::More(next) = r else {
            return Gathered {
                reading: r,
                at: i + 1,
            };
        };
        if turns_half::is_image(next) {
            return Gathered {
                reading: r,
                at: i + 1,
            };
        }
        h = next;
    }
    Gathered {
        reading: Reading::More(h),
        at: piece.len(),
    }
}
