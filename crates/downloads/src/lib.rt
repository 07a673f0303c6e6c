// Downloads: found by code, and the ones that are drawn. They are lent bytes, 16 places of nine.
// It may use the paper and its laws; it knows no state and writes nothing.
#![tactic(auto)]

ghost use Rattle.std.specs.Prelude.{◌≡◌, cond, [], eqb};
ghost use Rattle.paper.specs.Downloads.{place, is_stored, is_dropped};

// ---- where a code is

// The first place that holds the code, if one does. A free place is one of code 0.
pub fn place(ds: &[u8], code: u8) -> Option<usize>
    ensures { result ≡ cond (is_stored ds.now code) (Some (place ds.now code)) None }
{
    ds.chunks_exact(9).position(|p| p[0] == code)
}

// The code is stored.
pub fn is_stored(ds: &[u8], code: u8) -> bool
    ensures { result ≡ is_stored ds.now code }
{
    place(ds, code).is_some()
}

// The code is new and no place is free.
#[tactic(auto, unfolding(paper::specs::Downloads::is_dropped))]
pub fn is_dropped(ds: &[u8], code: u8) -> bool
    ensures { result ≡ is_dropped ds.now code }
{
    !is_stored(ds, code) & !is_stored(ds, 0)
}

// ---- what is drawn

// The downloads in force: all of them where the switch is on, else none.
pub fn in_force(ds: &[u8], switch: u8) -> &[u8]
    ensures { result.now ≡ cond (eqb switch 1) ds.now [] }
{
    if switch == 1 { ds } else { &ds[0..0] }
}
