//! Settings by their names.

ghost use Rattle.fabric.specs.Graph.{Graph};
ghost use Rattle.fabric.specs.GraphOf.{IsGraph};
ghost use Rattle.fabric.specs.Settings.{enum_named as enum_named_in, option_of, word_named as word_named_in};
ghost use Rattle.named_graph.specs.Standing.{settings_at};
ghost use Rattle.std.specs.Option.{option_copied};
ghost use Rattle.std.specs.Prelude.{◌≡◌, option_and_then};

use crate::TileDatabases;
use bits_db::{EnumOption, EnumSetting, WordSetting};
use rr_ids::{Name, TileId};

/// The word of a name in a tile; `None` exactly where the tile has none.
#[tactic(auto, using(crate::proofs::SettingsFound::word_found, crate::proofs::SettingsFound::no_word))]
pub fn word_named<'a, D: TileDatabases<'a>>(
    device: &D,
    t: TileId,
    name: &Name,
) -> Option<&'a WordSetting>
    ensures { (g : Graph) → IsGraph (D.device device.now) g → option_copied result ≡ word_named_in (settings_at g t) name.now }
{
    match device.names(t) {
        Some(names) => names.word(name),
        None => None,
    }
}

/// The enum of a name in a tile; `None` exactly where the tile has none.
#[tactic(auto, using(crate::proofs::SettingsFound::enum_found, crate::proofs::SettingsFound::no_enum))]
pub fn enum_named<'a, D: TileDatabases<'a>>(
    device: &D,
    t: TileId,
    name: &Name,
) -> Option<&'a EnumSetting>
    ensures { (g : Graph) → IsGraph (D.device device.now) g → option_copied result ≡ enum_named_in (settings_at g t) name.now }
{
    match device.names(t) {
        Some(names) => names.enum_setting(name),
        None => None,
    }
}

/// The option of a value of the enum of a name in a tile; `None` exactly where there is no such enum or option.
pub fn option_named<'a, D: TileDatabases<'a>>(
    device: &D,
    t: TileId,
    name: &Name,
    value: &Name,
) -> Option<&'a EnumOption>
    ensures { (g : Graph) → IsGraph (D.device device.now) g
        → option_copied result ≡ option_and_then (λ enum. option_of enum value.now) (enum_named_in (settings_at g t) name.now) }
{
    match device.names(t) {
        Some(names) => names.option(name, value),
        None => None,
    }
}
