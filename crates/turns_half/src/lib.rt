// What a turn asks of what is half read: whether it is an image's data.
// It may use the paper's types alone. Its laws say what a match on what is half read learns.
#![tactic(auto)]

ghost use Rattle.std.specs.Prelude.{◌≡◌};
ghost use Rattle.turns_half.specs.Halves.{is_image};

use paper::Half;

// Whether an image's data is half read.
pub fn is_image(half: Half) -> bool
    ensures { result ≡ is_image half }
{
    matches!(half, Half::ImageData { .. })
}
