// Downloads written: stored in a place, and erased. They are lent bytes, 16 places of nine.
// It may use downloads to find a code, the paper and its laws; it knows no state.
#![tactic(auto)]

ghost use Rattle.std.specs.Prelude.{◌≡◌, ◌≤◌, unwrap_or};
ghost use Rattle.paper.specs.Downloads.{places_in, with_place, download_bytes, place_for, put_in, erased, all_erased};

use paper::Columns;

// The place that a code's download takes: its own, else the first free one, if there is either.
#[tactic(auto, unfolding(paper::specs::Downloads::place_for))]
fn place_for(ds: &[u8], code: u8) -> Option<usize>
    ensures { unwrap_or result (places_in ds.now) ≡ place_for ds.now code }
{
    downloads::place(ds, code).or_else(|| downloads::place(ds, 0))
}

// Writes a place. None is the end, where the paper's `with_place` writes as many bytes as there are, most often none.
// It stays out of the function that reads each byte: within it an image's byte took 3.4 ns and not 2.9.
#[inline(never)]
fn write_place(ds: &mut [u8], place: Option<usize>, bytes: [u8; 9])
    requires { unwrap_or place (places_in ds.old) ≤ places_in ds.old }
    ensures { ds.new ≡ with_place ds.old (unwrap_or place (places_in ds.old)) bytes }
{
    let k = place.unwrap_or(ds.len() / 9);
    let from = 9 * k;
    // byte by byte, each asked for: to copy any number of them is a call of memcpy, and the archive for C asks for no name from outside
    for r in 0..9usize {
        if from + r < ds.len() {
            ds[from + r] = bytes[r];
        }
    }
}

// A download's bytes: the code, the width, and the columns.
fn download_bytes(code: u8, c: Columns) -> [u8; 9]
    ensures { result ≡ download_bytes code c }
{
    [code, c.width, c.c0, c.c1, c.c2, c.c3, c.c4, c.c5, c.c6]
}

// Stores a download in its code's place or a free one. Where there is neither it is dropped, and nothing changes.
#[tactic(auto, unfolding(paper::specs::Downloads::put_in))]
pub fn put(ds: &mut [u8], code: u8, c: Columns)
    ensures { ds.new ≡ put_in ds.old code c }
{
    let place = place_for(ds, code);
    write_place(ds, place, download_bytes(code, c));
}

// Frees the code's place. Where it has none, nothing changes.
#[tactic(auto, unfolding(paper::specs::Downloads::erased))]
pub fn erase(ds: &mut [u8], code: u8)
    ensures { ds.new ≡ erased ds.old code }
{
    let place = downloads::place(ds, code);
    write_place(ds, place, [0; 9]);
}

// Frees every place.
pub fn erase_all(ds: &mut [u8])
    ensures { ds.new ≡ all_erased ds.old }
{
    ds.fill(0);
}
