// Number 8, its clause on a half-read define: the note of a drop, by what the downloads hold.
// It may use the paper, its laws, and downloads for whether a code is stored. `define_ok` is the call.
#![tactic(auto)]

ghost use Rattle.std.specs.Prelude.{◌≡◌};
ghost use Rattle.paper.specs.Bounds.{all_stored, note_ok, half_note_ok, define_ok};

use paper::{Batch, Half, Held};

// Each code from `first` to the one before `code` is stored.
fn all_stored(ds: &[u8], first: u8, code: u8) -> bool
    ensures { result ≡ all_stored ds.now first code }
{
    (first..code).all(|c| downloads::is_stored(ds, c))
}

// The note says whether a code that was read is not stored, and one is not only where no place is free.
#[tactic(auto, unfolding(paper::specs::Bounds::note_ok))]
fn note_ok(ds: &[u8], batch: Batch, dropped: bool) -> bool
    ensures { result ≡ note_ok ds.now batch dropped }
{
    if all_stored(ds, batch.first, batch.code) {
        return !dropped;
    }
    dropped & !downloads::is_stored(ds, 0)
}

// What is half read: a define's note is asked for, anything else notes nothing.
#[tactic(auto, unfolding(paper::specs::Bounds::half_note_ok))]
fn half_note_ok(ds: &[u8], half: Half) -> bool
    ensures { result ≡ half_note_ok ds.now half }
{
    match half {
        Half::GlyphWidth { batch, dropped } | Half::GlyphByte { batch, dropped, .. } => {
            note_ok(ds, batch, dropped)
        }
        _ => true,
    }
}

// While held, nothing is stored and the note says nothing.
#[tactic(auto, unfolding(paper::specs::Bounds::define_ok))]
pub fn define_ok(ds: &[u8], hold: Option<Held>, half: Half) -> bool
    ensures { result ≡ define_ok ds.now hold half }
{
    match hold {
        None => half_note_ok(ds, half),
        Some(_) => true,
    }
}
