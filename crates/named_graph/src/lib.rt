//! How the names of a text are looked up in a routing graph: its tiles, and in a tile its arcs, words and options.
//! Contracts see the neutral graph, however a program keeps it. A tile is known by its number in the grid.
#![tactic(auto)]

ghost use Rattle.fabric.specs.Graph.{Graph};
ghost use Rattle.fabric.specs.Image.{arc_named, mux_named, tile_named};
ghost use Rattle.fabric.specs.Settings.{enum_named, option_of, word_named};
ghost use Rattle.named_graph.specs.Standing.{settings_at};
ghost use Rattle.std.specs.Option.{option_copied};
ghost use Rattle.std.specs.Prelude.{◌<◌, ◌≡◌, IfSome, Some, length, option_and_then, option_map, slice_get};

use bits_db::{EnumOption, EnumSetting, WordSetting};
use rr_ids::{MuxId, Name, TileId};
use text_cut::PatternBit;
use tile_grid::Tile;

/// A graph whose parts are looked up by the names that the files of the device give them.
pub trait NamedGraph {
    /// The tiles, muxes, arcs and settings.
    ghost graph: { Self → Graph };

    /// The tile of a name; `None` exactly where the grid has none.
    fn tile_named(&self, name: &Name) -> Option<TileId>
        ensures named { result ≡ tile_named (graph self.now) name.now }
        ensures there { IfSome result (λ t. t < length (graph self.now).grid.tiles) };

    /// The tile of a number.
    fn tile(&self, t: TileId) -> &Tile
        requires { t < length (graph self.now).grid.tiles }
        ensures { Some result.now ≡ slice_get (graph self.now).grid.tiles t };

    /// The mux of a tile that drives the sink of a name; `None` exactly where the tile has none.
    fn mux_named(&self, t: TileId, sink: &Name) -> Option<MuxId>
        requires { t < length (graph self.now).grid.tiles }
        ensures named { result ≡ mux_named (graph self.now) t sink.now }
        ensures there { IfSome result (λ m. m < length (graph self.now).muxes) };

    /// The pattern of the arc of a mux from the source of a name; `None` exactly where the mux has no such arc.
    fn pattern_named(&self, m: MuxId, source: &Name) -> Option<&[PatternBit]>
        requires { m < length (graph self.now).muxes }
        ensures { option_map (λ bits. bits.now) result ≡ option_map (λ a. a.arc.bits) (arc_named (graph self.now) m source.now) };

    /// The word of a name in a tile; `None` exactly where the tile has none.
    fn word_named(&self, t: TileId, name: &Name) -> Option<&WordSetting>
        requires { t < length (graph self.now).grid.tiles }
        ensures { option_copied result ≡ word_named (settings_at (graph self.now) t) name.now };

    /// The enum of a name in a tile; `None` exactly where the tile has none.
    fn enum_named(&self, t: TileId, name: &Name) -> Option<&EnumSetting>
        requires { t < length (graph self.now).grid.tiles }
        ensures { option_copied result ≡ enum_named (settings_at (graph self.now) t) name.now };

    /// The option of a value of the enum of a name in a tile; `None` exactly where there is no such enum or option.
    fn option_named(&self, t: TileId, name: &Name, value: &Name) -> Option<&EnumOption>
        requires { t < length (graph self.now).grid.tiles }
        ensures { option_copied result ≡ option_and_then (λ enum. option_of enum value.now) (enum_named (settings_at (graph self.now) t) name.now) };
}
