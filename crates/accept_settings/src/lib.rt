// Whether settings are accepted: the domain of each, one by one and of all in a record. Of number 8's bounds, those of the settings.
// It uses the paper alone. The commands that set one ask it too.
#![tactic(auto)]

ghost use Rattle.std.specs.Prelude.{◌≡◌};
ghost use Rattle.paper.specs.Bounds.{settings_ok};
ghost use Rattle.paper.specs.Settings.{in_domain, in_enlargement};

use paper::{Key, Module, Settings};

// n is in the domain of the setting.
#[tactic(auto, unfolding(paper::specs::Settings::in_domain))]
pub fn in_domain(g: Module, key: Key, n: u8) -> bool
    ensures { result ≡ in_domain g key n }
{
    match key {
        Key::Charset => n <= 13,
        Key::Codes => (n <= 5) | ((16..=19).contains(&n) | (g.tables & (n == 0xFF))),
        Key::Brightness => {
            (g.dimmest..=g.brightest).contains(&n) | (g.finer & (0x10..=0x18).contains(&n))
        }
        Key::Speed => n <= 31,
        Key::Mixing => n <= 3,
        Key::Caret | Key::Reverse | Key::Width | Key::Write | Key::Switch => n <= 1,
    }
}

// x and y are an enlargement.
#[tactic(auto, unfolding(paper::specs::Settings::in_enlargement))]
pub fn in_enlargement(x: u8, y: u8) -> bool
    ensures { result ≡ in_enlargement x y }
{
    (1..=4).contains(&x) & (1..=2).contains(&y)
}

// Each setting is in its domain.
#[tactic(auto, unfolding(paper::specs::Bounds::settings_ok))]
pub fn settings_ok(g: Module, v: Settings) -> bool
    ensures { result ≡ settings_ok g v }
{
    let y = v.style;
    in_domain(g, Key::Charset, v.charset)
        & in_domain(g, Key::Codes, v.codes)
        & in_domain(g, Key::Caret, v.caret)
        & in_domain(g, Key::Brightness, v.brightness)
        & in_domain(g, Key::Speed, v.speed)
        & in_domain(g, Key::Width, v.width)
        & in_domain(g, Key::Write, v.write)
        & in_domain(g, Key::Switch, v.switch)
        & in_domain(g, Key::Reverse, y.reverse)
        & in_domain(g, Key::Mixing, y.mixing)
        & in_enlargement(y.across, y.down)
}
