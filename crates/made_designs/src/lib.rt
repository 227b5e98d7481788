//! Designs made from a number, for `run`.
#![tactic(auto)]

ghost use Rattle.config_grammar.specs.ConfigPrint.{section_text};
ghost use Rattle.fabric.specs.Graph.{Graph};
ghost use Rattle.made_designs.specs.BlockSides.{placed_at};
ghost use Rattle.made_designs.specs.Blocks.{block_tiles};
ghost use Rattle.made_designs.specs.Made.{made_design};
ghost use Rattle.mini.specs.MiniA.{mini_a};
ghost use Rattle.mini_b.specs.Corridor.{corridor};
ghost use Rattle.mini_b.specs.MiniB.{mini_b};
ghost use Rattle.records.specs.Side.{D0, D1, D2};
ghost use Rattle.std.specs.Prelude.{bytes_eq, codes, drop, filter, flat_map, length, Some, [], ◌∷◌, ◌≡◌};

/// One block is the corridor; each further one has as many tiles, slices and pads.
pub fn blocks_are_corridors()
    ensures text { (made_design 1).config.tiles ≡ corridor.tiles }
    ensures grid { (made_design 1).device.grid ≡ mini_b.grid }
    ensures tiles { length (made_design 3).device.grid.tiles ≡ 84 }
    ensures slices { length (made_design 3).side.slices ≡ 27 }
    ensures pads { length (made_design 3).side.pads ≡ 36 }
{}

/// In each further block copy 0 is mirrored: v stands in its first column and u in its second. A cell's name ends with the
/// block's number; block 1 begins behind column 15, and block 16 two rows further down.
pub fn further_blocks_are_mirrored()
    ensures first_column { flat_map section_text (filter (λ text. bytes_eq text.tile (codes "R1C16:SLC")) (made_design 2).config.tiles)
        ≡ codes "\n.tile R1C16:SLC\narc: D N1_PI\narc: U F\nword: S1.K 10\n" }
    ensures second_column { flat_map section_text (filter (λ text. bytes_eq text.tile (codes "R1C17:SLC")) (made_design 2).config.tiles)
        ≡ codes "\n.tile R1C17:SLC\narc: D N1_PI\narc: U W1_U\narc: V F\nword: S1.K 10\n" }
    ensures slices { drop 9 (made_design 2).side.slices
        ≡ placed_at (codes "u0_1") (codes "R1C17:SLC") (codes "S1") D0
        ∷ placed_at (codes "u1_1") (codes "R1C22:SLC") (codes "S1") D1
        ∷ placed_at (codes "u2_1") (codes "R1C27:SLC") (codes "S1") D2
        ∷ placed_at (codes "v0_1") (codes "R1C16:SLC") (codes "S1") D0
        ∷ placed_at (codes "v1_1") (codes "R1C21:SLC") (codes "S1") D1
        ∷ placed_at (codes "v2_1") (codes "R1C26:SLC") (codes "S1") D2
        ∷ placed_at (codes "w0_1") (codes "R1C18:SLC") (codes "S1") D0
        ∷ placed_at (codes "w1_1") (codes "R1C23:SLC") (codes "S1") D1
        ∷ placed_at (codes "w2_1") (codes "R1C28:SLC") (codes "S1") D2
        ∷ [] }
    ensures second_band { filter (λ tile. bytes_eq tile.name (codes "R3C4:SLC")) (block_tiles 16)
        ≡ record { name = codes "R3C4:SLC"; kind = codes "SLC"; place = Some (3, 4); cols = 4; rows = 8; start_frame = 64; start_bit = 24 } ∷ [] }
{}
