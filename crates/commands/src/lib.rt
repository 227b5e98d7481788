//! The words of the commands: `drivers` over one database file, `check`, `analyse` and `harden` over a whole design, and
//! `run`. Which of them a program knows is an argument of the reading.
#![tactic(auto)]

ghost use Rattle.std.specs.Prelude.{◌≡◌, ◌∷◌, ◌++◌, [], Ok, Err, codes};
ghost use Rattle.records.specs.Ripping.{RipUnsafe, RipAll};
ghost use Rattle.commands.specs.Commands.{Drivers, Check, Harden, Run};
ghost use Rattle.commands.specs.Examples.{check_line, harden_line};
ghost use Rattle.commands.specs.Readings.{reading_of, all_commands};

/// Worked command lines that have a reading.
pub fn worked_commands()
    ensures drivers { reading_of all_commands (codes "drivers" ∷ codes "m.db" ∷ codes "F0B1" ∷ [])
        ≡ Ok (Drivers (codes "m.db") (record { frame = 0; bit = 1 } ∷ [])) }
    ensures check { reading_of all_commands check_line ≡ Ok (Check (record { family = codes "f"; profile = codes "p"; side = codes "s"; config = codes "c" })) }
    ensures harden { reading_of all_commands harden_line ≡ Ok (Harden (record { family = codes "f"; profile = codes "p"; side = codes "s"; config = codes "c" })
        (record { out = codes "o"; side_out = codes "so"; cut_out = codes "co"; rounds = 32; rip = RipUnsafe })) }
    ensures options { reading_of all_commands (harden_line ++ codes "--rip" ∷ codes "all" ∷ codes "--rounds" ∷ codes "007" ∷ [])
        ≡ Ok (Harden (record { family = codes "f"; profile = codes "p"; side = codes "s"; config = codes "c" })
        (record { out = codes "o"; side_out = codes "so"; cut_out = codes "co"; rounds = 7; rip = RipAll })) }
    ensures run { reading_of all_commands (codes "run" ∷ codes "2048" ∷ []) ≡ Ok (Run 2048) }
{}

/// Worked command lines that have none, with the number of the first word that can't stand there.
pub fn worked_usages()
    ensures no_bit { reading_of all_commands (codes "drivers" ∷ codes "m.db" ∷ codes "F0" ∷ []) ≡ Err 3 }
    ensures no_file { reading_of all_commands (codes "drivers" ∷ []) ≡ Err 2 }
    ensures not_known { reading_of (codes "drivers" ∷ []) check_line ≡ Err 1 }
    ensures nothing { reading_of all_commands [] ≡ Err 1 }
    ensures unknown { reading_of all_commands (codes "checks" ∷ []) ≡ Err 1 }
    ensures missing { reading_of all_commands (codes "check" ∷ codes "--family" ∷ codes "f" ∷ []) ≡ Err 4 }
    ensures no_value { reading_of all_commands (codes "check" ∷ codes "--family" ∷ []) ≡ Err 3 }
    ensures repeated { reading_of all_commands (codes "check" ∷ codes "--side" ∷ codes "s" ∷ codes "--side" ∷ codes "t" ∷ []) ≡ Err 4 }
    ensures too_many { reading_of all_commands (check_line ++ codes "x" ∷ []) ≡ Err 10 }
    ensures no_rounds { reading_of all_commands (harden_line ++ codes "--rounds" ∷ codes "0" ∷ []) ≡ Err 17 }
    ensures what_to_rip { reading_of all_commands (harden_line ++ codes "--rip" ∷ codes "some" ∷ []) ≡ Err 17 }
    ensures same_out { reading_of all_commands (codes "harden" ∷ codes "--out" ∷ codes "o" ∷ codes "--cut-out" ∷ codes "o" ∷ []) ≡ Err 5 }
    ensures many_blocks { reading_of all_commands (codes "run" ∷ codes "2049" ∷ []) ≡ Err 2 }
    ensures run_alone { reading_of all_commands (codes "run" ∷ []) ≡ Err 2 }
    ensures run_and_more { reading_of all_commands (codes "run" ∷ codes "1" ∷ codes "2" ∷ []) ≡ Err 3 }
{}
