// Whether what is half read is a proper beginning of a command: the last clause of number 8, over each of its cases.
// It uses the paper, accept_words for parameters and settings and accept_define for a define's parts. `half_ok` is the call.
#![tactic(auto)]

ghost use Rattle.std.specs.Prelude.{◌≡◌};
ghost use Rattle.paper.specs.Bounds.{half_ok};

use paper::{Half, Module};

// What is half read is a proper beginning of a command.
#[tactic(auto, unfolding(paper::specs::Bounds::half_ok))]
pub fn half_ok(g: Module, half: Half) -> bool
    ensures { result ≡ half_ok g half }
{
    match half {
        Half::Nothing
        | Half::Escape
        | Half::Unit
        | Half::Group
        | Half::Actions
        | Half::Images
        | Half::Characters
        | Half::Windows => true,
        Half::Value(key) => accept_words::is_known(g, key),
        Half::Rest { left } => (1..=5).contains(&left),
        Half::DownloadA | Half::DownloadFrom => g.downloads,
        Half::DownloadTo { from } => g.downloads & (0x20 <= from),
        Half::GlyphWidth { batch, .. } => g.downloads & accept_define::batch_ok(batch),
        Half::GlyphByte { batch, columns, .. } => g.downloads
            & (accept_define::batch_ok(batch) & accept_define::columns_ok(columns)),
        Half::Low(word) | Half::High { word, .. } => accept_words::word_ok(g, word),
        Half::ImageKind { width, height } => accept_words::is_size(g.columns, width)
            & accept_words::is_size(g.rows, height),
        Half::ImageData {
            width,
            height,
            column,
            row,
        } => {
            accept_words::is_size(g.columns, width)
                & (accept_words::is_size(g.rows, height) & ((column < width) & (row < height)))
        }
        Half::EnlargeX | Half::EnlargeY { .. } | Half::SelectA | Half::WindowA => true,
        Half::WindowB { a } => accept_words::is_window(a),
        Half::EraseA | Half::EraseCode { .. } => g.downloads,
    }
}
