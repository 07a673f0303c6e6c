// Good telegrams in a received piece (document 02, order 4): the first place from which one can be read, whoever's.
// It uses the paper alone.
#![tactic(auto)]

ghost use Rattle.std.specs.Prelude.{◌≡◌, ℕ, ◌<◌, ◌≤◌, true, false, length, IfSome, IfNone};
ghost use Rattle.telegrams_good.specs.Frames.{Frames};
ghost use Rattle.paper.specs.Telegrams.{framed, good, first_good};

// Whether the bytes from `place` on are a telegram's but for the check byte, which the piece has too. By places: with a pattern of the slice
// the arms that fall through told nothing of the first byte, and the proof did not close.
fn is_framed(piece: &[u8], place: usize) -> bool
    requires { place < length piece.now }
    ensures { result ≡ framed piece.now place }
{
    if piece[place] != 0x02 {
        return false;
    }
    if piece.len() - place < 6 {
        return false;
    }
    let count = usize::from(piece[place + 2]);
    if piece.len() - place < count + 5 {
        return false;
    }
    if piece[place + count + 3] != 0x03 {
        return false;
    }
    (1..=0x80).contains(&count)
}

// The first place from `from` on whose bytes are so.
fn frame(piece: &[u8], from: usize) -> Option<usize>
    ensures found { IfSome result (λ p. (p < length piece.now) × Frames piece.now from p) }
    ensures none { IfNone result ((p : ℕ) → from ≤ p → p < length piece.now → framed piece.now p ≡ false) }
{
    (from..piece.len()).find(
        |&place|
            requires { place < length piece.now }
        { is_framed(piece, place) },
    )
}

// The first place from `from` on from which a good telegram can be read, whoever's. The outer loop goes over the places, the inner over the
// check bytes.
pub fn next(piece: &[u8], from: usize) -> Option<usize>
    ensures found { IfSome result (λ p. (p ≡ first_good piece.now from) × (good piece.now p ≡ true)) }
    ensures none { IfNone result (length piece.now ≤ first_good piece.now from) }
{
    let mut found = frame(piece, from);
    'places: while let Some(place) = found {
        let size = usize::from(piece[place + 2]) + 4;
        let mut sum = 0;
        let mut k = 0;
        // By number: with a pattern of the slice a byte takes 0.8 ns and not 0.1, and with `for` 12 times as long.
        'bytes: while k != size {
            sum ^= piece[place + k];
            k += 1;
            if k == size && sum == piece[place + size] {
                break 'places;
            }
        }
        found = frame(piece, place + 1);
    }
    found
}
