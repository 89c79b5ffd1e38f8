// Request 8: settings for how a network is grown, and the byte that they are for C. Stages hand on the byte, one
// argument in the place of a struct, and read a bit of it where they need one.
#![tactic(auto)]

ghost use Rattle.std.specs.Prelude.{◌≡◌};
ghost use Rattle.rules.specs.Settings.{usual, settings_of};
ghost use Rattle.settings.specs.Byte.{byte_of};

use rules::{Gate, Settings, SplitOn};

// What exists without settings: max wins ties, a split takes the lowest condition, weak joins are tried.
pub fn usual() -> Settings
    ensures { result ≡ usual }
{
    Settings {
        tie: Gate::Max,
        splits: SplitOn::Lowest,
        weak: true,
    }
}

// The gate that wins a full tie: bit 0, min.
pub fn tie(byte: u8) -> Gate
    ensures { result ≡ (settings_of byte).tie }
{
    if byte % 2 == 1 { Gate::Min } else { Gate::Max }
}

// The condition that a split takes: bit 1, the one with most values.
pub fn splits(byte: u8) -> SplitOn
    ensures { result ≡ (settings_of byte).splits }
{
    if byte / 2 % 2 == 1 {
        SplitOn::MostValues
    } else {
        SplitOn::Lowest
    }
}

// Whether weak joins are tried: bit 2, they are not.
pub fn weak(byte: u8) -> bool
    ensures { result ≡ (settings_of byte).weak }
{
    byte / 4 % 2 != 1
}

// The settings that a byte says. Its other bits are not looked at.
pub fn of_byte(byte: u8) -> Settings
    ensures { result ≡ settings_of byte }
{
    Settings {
        tie: tie(byte),
        splits: splits(byte),
        weak: weak(byte),
    }
}

// A byte that says these settings.
pub fn to_byte(how: Settings) -> u8
    ensures { (result ≡ byte_of how) × (settings_of result ≡ how) }
{
    let tie = u8::from(matches!(how.tie, Gate::Min));
    let splits = u8::from(matches!(how.splits, SplitOn::MostValues));
    let none = u8::from(!how.weak);
    tie + 2 * splits + 4 * none
}
