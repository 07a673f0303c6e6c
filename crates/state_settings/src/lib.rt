// Settings: the initial ones, and what a command makes of them.
// It uses the paper alone. Each contract is the paper's definition of the same name.
#![tactic(auto)]

ghost use Rattle.std.specs.Prelude.{◌≡◌};
ghost use Rattle.paper.specs.Settings.{initial_settings, enlarged, with_setting};
ghost use Rattle.paper.specs.Carry.{not_carried_value, is_write};

use paper::{Key, Module, Settings, Style};

// The initial settings.
pub fn initial_settings(g: Module) -> Settings
    ensures { result ≡ initial_settings g }
{
    let style = Style {
        reverse: 0,
        mixing: 0,
        across: 1,
        down: 1,
    };
    Settings {
        charset: 0,
        codes: 0,
        caret: 0,
        brightness: g.brightness,
        speed: 0,
        width: 1,
        write: 0,
        switch: 0,
        style,
    }
}

// Whether a value asks for a width that is not carried.
pub fn not_carried_value(key: Key, n: u8) -> bool
    ensures { result ≡ not_carried_value key n }
{
    key == Key::Width && (2..=3).contains(&n)
}

// Whether a setting is the write mode.
pub fn is_write(key: Key) -> bool
    ensures { result ≡ is_write key }
{
    key == Key::Write
}

// The settings with one of them changed.
pub fn with_setting(v: Settings, key: Key, n: u8) -> Settings
    ensures { result ≡ with_setting v key n }
{
    let mut t = v;
    match key {
        Key::Charset => t.charset = n,
        Key::Codes => t.codes = n,
        Key::Caret => t.caret = n,
        Key::Brightness => t.brightness = n,
        Key::Reverse => t.style.reverse = n,
        Key::Speed => t.speed = n,
        Key::Mixing => t.style.mixing = n,
        Key::Width => t.width = n,
        Key::Write => t.write = n,
        Key::Switch => t.switch = n,
    }
    t
}

// The settings with another enlargement.
pub fn enlarge(v: Settings, x: u8, y: u8) -> Settings
    ensures { result ≡ enlarged v x y }
{
    Settings {
        style: Style {
            across: x,
            down: y,
            ..v.style
        },
        ..v
    }
}
