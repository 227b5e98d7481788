//! What choices take.

ghost use Rattle.std.specs.Prelude.{◌≡◌, ◌<◌, length, option_map, false};
ghost use Rattle.std.specs.Option.{option_copied, option_map_or};
ghost use Rattle.std.specs.Str.{bytes_eq};
ghost use Rattle.cell_profile.specs.Takes.{take_of};
ghost use Rattle.cells.specs.Takes.{case_of as case_of_choice, case_with as case_with_of, choice_value as choice_value_of, take_at as take_at_of};
ghost use Rattle.cram_image.specs.Image.{bits};
ghost use Rattle.named_graph.specs.Standing.{StandsInTiles};

use cell_profile::{Case, Choice, Take};
use cram_image::Image;
use named_graph::NamedGraph;
use rr_ids::{Name, TileId};
use setting_values::value_at;

// Whether a case is one of a value.
fn has_value(case: &Case, value: &Name) -> bool
    ensures { result ≡ option_map_or (bytes_eq value.now) case.now.value false }
{
    match &case.value {
        Some(name) => value.bytes() == name.bytes(),
        None => false,
    }
}

// The first case with a value.
fn case_with<'a>(cases: &'a [Case], value: &Name) -> Option<&'a Case>
    ensures { option_copied result ≡ case_with_of cases.now value.now }
{
    for case in cases {
        if has_value(case, value) {
            return Some(case);
        }
    }
    None
}

// The case of a choice that counts.
fn case_of<'a, G: NamedGraph>(
    graph: &G,
    image: &Image,
    t: TileId,
    choice: &'a Choice,
) -> Option<&'a Case>
    requires stands { StandsInTiles (G.graph graph.now) }
    requires there { t < length (G.graph graph.now).grid.tiles }
    ensures { option_copied result ≡ case_of_choice (G.graph graph.now) (bits image.now) t choice.now }
{
    let Some(setting) = &choice.setting else {
        return choice.cases.get(0);
    };
    let value = value_at(graph, image, t, setting)?;
    case_with(choice.cases.as_slice(), value)
}

/// What a choice takes in a tile; `None` exactly where it has no case for the value of its setting.
pub fn take_at<'a, G: NamedGraph>(
    graph: &G,
    image: &Image,
    t: TileId,
    choice: &'a Choice,
) -> Option<&'a Take>
    requires stands { StandsInTiles (G.graph graph.now) }
    requires there { t < length (G.graph graph.now).grid.tiles }
    ensures { option_map (λ take. take_of take.now) result ≡ take_at_of (G.graph graph.now) (bits image.now) t choice.now }
{
    let case = case_of(graph, image, t, choice)?;
    Some(&case.take)
}

/// The value of a choice's setting in a tile; `None` exactly where it has no setting, or that has no value.
pub fn choice_value<'g, G: NamedGraph>(
    graph: &'g G,
    image: &Image,
    t: TileId,
    choice: &Choice,
) -> Option<&'g Name>
    requires stands { StandsInTiles (G.graph graph.now) }
    requires there { t < length (G.graph graph.now).grid.tiles }
    ensures { option_copied result ≡ choice_value_of (G.graph graph.now) (bits image.now) t choice.now }
{
    match &choice.setting {
        Some(setting) => value_at(graph, image, t, setting),
        None => None,
    }
}
