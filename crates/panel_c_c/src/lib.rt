// The exports to C: the calls of panel_c under the names that include/panel.h declares. C passes a slice as a pointer and a length.
// It may use panel_c, and the results' structs of face. Each contract is the one of the call that it makes, word for word.
#![tactic(auto)]

ghost use Rattle.std.specs.Prelude.{◌≡◌};
ghost use Rattle.paper.specs.Panel.{panel};
ghost use Rattle.face.specs.Face.{starting, start_c, feeding, feed_c, calling, hold_c, release_c, refreshing, refresh_c, receive_c};

use face::{PanelFed, PanelReceived, PanelRefreshed};

// Starts a panel. 100: the record is not 259 bytes; 1: the memory is not 1,024, and the record is the initial one.
#[unsafe(no_mangle)]
pub extern "C" fn panel_start(state: &mut [u8], mem: &mut [u8]) -> u32
    ensures { starting result state.new mem.new ≡ start_c panel state.old mem.old }
{
    panel_c::panel_start(state, mem)
}

// Feeds a piece of the stream. 100: the record is not 259 bytes; then 1, 2, 8.
#[unsafe(no_mangle)]
pub extern "C" fn panel_feed(
    state: &mut [u8],
    mem: &mut [u8],
    font: &[u8],
    piece: &[u8],
) -> PanelFed
    ensures { feeding result state.new mem.new ≡ feed_c panel state.old mem.old font.now piece.now }
{
    panel_c::panel_feed(state, mem, font, piece)
}

// Holds a window. 100: the record is not 259 bytes; then 8, 6, 4, 5.
#[unsafe(no_mangle)]
pub extern "C" fn panel_hold(state: &mut [u8], window: usize) -> u32
    ensures { calling result state.new ≡ hold_c panel state.old window }
{
    panel_c::panel_hold(state, window)
}

// Releases the held window. 100: the record is not 259 bytes; then 8, 7.
#[unsafe(no_mangle)]
pub extern "C" fn panel_release(state: &mut [u8]) -> u32
    ensures { calling result state.new ≡ release_c panel state.old }
{
    panel_c::panel_release(state)
}

// Brings the glass in step. 100: the record is not 259 bytes; then 1, 3, 8.
#[unsafe(no_mangle)]
pub extern "C" fn panel_refresh(state: &mut [u8], mem: &[u8], glass: &mut [u8]) -> PanelRefreshed
    ensures { refreshing result state.new glass.new ≡ refresh_c panel state.old mem.now glass.old }
{
    panel_c::panel_refresh(state, mem, glass)
}

// Finds the first telegram for an address in a received piece. 20: the address is not 0 to 15; 21: there is none.
#[unsafe(no_mangle)]
pub extern "C" fn panel_receive(piece: &[u8], address: usize) -> PanelReceived
    ensures { result ≡ receive_c piece.now address }
{
    panel_c::panel_receive(piece, address)
}
