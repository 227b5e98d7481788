//! What the bytes of a grid and of a cell profile stand for, or their first fault.
#![tactic(auto)]

ghost use Rattle.std.specs.Prelude.{◌≡◌, Ok, Err, codes};
ghost use Rattle.json_forms.specs.Faults.{NotJson, BadShape, TooLarge};
ghost use Rattle.json_forms.specs.Grid.{grid_of};
ghost use Rattle.json_forms.specs.MiniGrid.{mini_grid_text, mini_grid};
ghost use Rattle.records.specs.Limits.{Place};

/// Four small grids: no JSON, a list, a place that is too large, and a number that is.
pub fn small_grids_have_their_faults()
    ensures no_json { grid_of (codes "{") ≡ Err NotJson }
    ensures no_object { grid_of (codes "[]") ≡ Err (BadShape (codes ".")) }
    ensures large_place { grid_of
        (codes "{\"R256C0:MLC\":{\"cols\":11,\"rows\":8,\"start_bit\":8,\"start_frame\":16,\"type\":\"MLC\"}}")
        ≡ Err (TooLarge Place) }
    ensures large_number { grid_of
        (codes "{\"R1C1:MLC\":{\"cols\":11,\"rows\":8,\"start_bit\":8,\"start_frame\":2147483648,\"type\":\"MLC\"}}")
        ≡ Err (BadShape (codes "R1C1:MLC")) }
{}

/// The grid of a small device is read as its eleven tiles.
pub fn mini_grid_is_read()
    ensures { grid_of mini_grid_text ≡ Ok mini_grid }
{}
