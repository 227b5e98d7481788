//! Worked examples of a whole design: its texts, and its first faults. Each is the contract of a function with an empty
//! body.
#![tactic(auto)]

ghost use Rattle.answers.specs.Answers.{NoRoute};
ghost use Rattle.answers.specs.Refusals.{BadLine, BadShape, Missing, NoDevice, NotJson, UnknownSink, UnknownSource, UnknownTile, WordLength};
ghost use Rattle.config_grammar.specs.ConfigPrint.{config_text};
ghost use Rattle.design_checks.specs.LineChecks.{line_refusal};
ghost use Rattle.design_examples.specs.Faulty.{arc_before_word, files_of, good_config, good_grid, inputs, no_cells, no_kinds, no_tile, one_number, one_tile, with_faulty_database, word_before_arc};
ghost use Rattle.design_examples.specs.OneAttempt.{corridor_outcome, cut_text};
ghost use Rattle.design_examples.specs.Texts.{toggle_side_text, toggle_text};
ghost use Rattle.design_files.specs.Designs.{design_of};
ghost use Rattle.fabric_laws.specs.PlainGraph.{graph_of};
ghost use Rattle.mini.specs.MiniA.{mini_a};
ghost use Rattle.mini.specs.Toggle.{toggle, toggle_side};
ghost use Rattle.mini_b.specs.MiniB.{mini_b};
ghost use Rattle.side_form.specs.SidePrint.{side_text};
ghost use Rattle.std.specs.Prelude.{codes, Err, None, Some, [], ◌∷◌, ◌≡◌};

/// The texts of the toggle and of its side file.
pub fn texts_of_toggle()
    ensures config { config_text toggle ≡ toggle_text }
    ensures side { side_text toggle_side ≡ toggle_side_text }
{}

/// Where two files have faults, the one that is read first decides: the configuration, the grid of its device, the
/// profile, the side file, the databases.
pub fn first_faulty_file_decides()
    ensures nothing { design_of (files_of None None None None) inputs ≡ Err (Missing (codes "c")) }
    ensures no_device { design_of (files_of (Some (codes "")) None None None) inputs ≡ Err (NoDevice (codes "c")) }
    ensures no_grid { design_of (files_of good_config None (Some (codes "[")) None) inputs ≡ Err (Missing (codes "f/D/tilegrid.json")) }
    ensures profile { design_of (files_of good_config good_grid (Some (codes "[")) None) inputs ≡ Err (NotJson (codes "p")) }
    ensures shape { design_of (files_of good_config good_grid (Some (codes "{}")) None) inputs ≡ Err (BadShape (codes "p") (codes "chip_prefix")) }
    ensures side { design_of (with_faulty_database (files_of good_config one_tile no_kinds (Some (codes "[")))) inputs ≡ Err (NotJson (codes "s")) }
    ensures database { design_of (with_faulty_database (files_of good_config one_tile no_kinds no_cells)) inputs ≡ Err (BadLine (codes "f/tiledata/T/bits.db") 2) }
{}

/// Where two lines have faults, the lower number decides, and of equal numbers the first in written order.
pub fn first_faulty_line_decides()
    ensures word { line_refusal (graph_of mini_a) word_before_arc ≡ Some (WordLength 3) }
    ensures arc { line_refusal (graph_of mini_a) arc_before_word ≡ Some (UnknownSink 3) }
    ensures equal { line_refusal (graph_of mini_a) one_number ≡ Some (UnknownSource 9) }
    ensures tile { line_refusal (graph_of mini_a) no_tile ≡ Some (UnknownTile 5) }
    ensures none { line_refusal (graph_of mini_a) toggle ≡ None }
{}

/// What repair of the corridor in one attempt prints and writes: a report with the blocked connection, and the file of its
/// cut.
pub fn corridor_in_one_attempt()
    ensures { corridor_outcome (graph_of mini_b) ≡ record {
      status = NoRoute;
      text = codes "noroute\nattempt 1 blocked R1C2/F R0C4/PO\nend rounds\n";
      written = record { name = codes "cut"; bytes = cut_text } ∷ [];
    } }
{}
