// Number 8, its clause on the downloads: the places.
// It may use the paper, its laws, and downloads for the place of a code. `store_ok` is the call.
#![tactic(auto)]

ghost use Rattle.std.specs.Prelude.{◌≡◌, ◌<◌, eqb};
ghost use Rattle.std.specs.List.{list_all};
ghost use Rattle.paper.specs.Bounds.{is_free, download_ok, place_ok, store_ok};
ghost use Rattle.accept_store.specs.Tests.{all_free, places_ok};

// The bytes of 16 places of nine.
const STORE: usize = 144;

// Each byte is 0. A fold that tests them all, and not `all`, which may stop: the compiler takes many at a time, and every call asks.
fn all_zero(bytes: &[u8]) -> bool
    ensures { result ≡ list_all (λ b. eqb b 0) bytes.now }
{
    bytes.iter().fold(true, |zero, &b| zero & (b == 0))
}

// A free place is all zeros. Here and below a place is its number, and k < 16 a clause of each: so the paper's definitions have it.
fn is_free(ds: &[u8; STORE], k: usize) -> bool
    requires { k < 16 }
    ensures { result ≡ is_free ds.now k }
{
    all_zero(&ds[9 * k..9 * k + 9])
}

// Nothing is stored.
fn all_free(ds: &[u8; STORE]) -> bool
    ensures { result ≡ all_free ds.now }
{
    all_zero(ds)
}

// A code of 20h or more, five columns or seven, and nothing in the columns that five do not use.
#[tactic(auto, unfolding(paper::specs::Bounds::download_ok))]
fn download_ok(ds: &[u8; STORE], k: usize) -> bool
    requires { k < 16 }
    ensures { result ≡ download_ok ds.now k }
{
    let at = 9 * k;
    let width = ds[at + 1];
    let five = (width == 5) & ((ds[at + 7] == 0) & (ds[at + 8] == 0));
    (0x20 <= ds[at]) & ((width == 7) | five)
}

// A place is free, or its download is whole and its code stands in no place before.
#[tactic(auto, unfolding(paper::specs::Bounds::place_ok))]
fn place_ok(ds: &[u8; STORE], k: usize) -> bool
    requires { k < 16 }
    ensures { result ≡ place_ok ds.now k }
{
    if is_free(ds, k) {
        return true;
    }
    download_ok(ds, k) & (downloads::place(ds, ds[9 * k]) == Some(k))
}

// Each place.
fn places_ok(ds: &[u8; STORE]) -> bool
    ensures { result ≡ places_ok ds.now }
{
    (0..16).all(|k| place_ok(ds, k))
}

// The downloads are accepted. Most often nothing is stored.
#[tactic(auto, unfolding(paper::specs::Bounds::store_ok))]
pub fn store_ok(ds: &[u8]) -> bool
    ensures { result ≡ store_ok ds.now }
{
    let Some(ds) = ds.as_array::<STORE>() else {
        return false;
    };
    all_free(ds) || places_ok(ds)
}
