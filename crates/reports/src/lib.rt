//! The reports on a whole design and their texts, none of which the program prints yet.
#![tactic(auto)]

ghost use Rattle.std.specs.Prelude.{◌≡◌, ◌∷◌, ◌++◌, [], pos, codes};
ghost use Rattle.fabric.specs.Wires.{Local, Wide};
ghost use Rattle.records.specs.Side.{D0, D1, D2};
ghost use Rattle.reports.specs.Reports.{AtWire, InCell, BadPlace, Blocked, Complete, Moved, EndRounds, EndSite, RunHardened, Checked, Safe, Unsafe, Standing, Hardened, NoRoute, CutFile, Ran};
ghost use Rattle.reports.specs.ReportTexts.{report_text};

/// Worked texts of one report of each kind.
pub fn worked_reports()
    ensures checked { report_text (Checked (record { slices = 3; pads = 6; outputs = 1; voters = 3 })) ≡ codes "triplicated\nslices 3 pads 6 outputs 1 voters 3\n" }
    ensures safe { report_text (Safe 178) ≡ codes "safe\nbits 178\n" }
    ensures unsafe_one { report_text (Unsafe (record {
      bit = record { frame = 52; bit = 11 };
      first = D0;
      first_at = AtWire (Local (pos 1) (pos 1) (codes "H4"));
      second = D2;
      second_at = AtWire (Local (pos 1) (pos 3) (codes "H3"));
    } ∷ []))
        ≡ codes "unsafe 1\nF52B11 D0 R1C1/H4 D2 R1C3/H3\n" }
    ensures hardened { report_text (Hardened (Blocked (Local (pos 1) (pos 2) (codes "F")) (Local (pos 0) (pos 4) (codes "PO")) ∷ Complete ∷ []) 15)
        ≡ codes "hardened\nattempt 1 blocked R1C2/F R0C4/PO\nattempt 2 complete\nconnections 15\n" }
    ensures no_route { report_text (NoRoute (Blocked (Local (pos 1) (pos 2) (codes "F")) (Local (pos 0) (pos 4) (codes "PO")) ∷ []) EndRounds)
        ≡ codes "noroute\nattempt 1 blocked R1C2/F R0C4/PO\nend rounds\n" }
    ensures moved { report_text (Hardened (Moved (codes "a2") (codes "R1C4:MLC") (codes "S0") ∷ Complete ∷ []) 14)
        ≡ codes "hardened\nmove a2 R1C4:MLC S0\nattempt 1 complete\nconnections 14\n" }
    ensures standing { report_text (Standing (record {
      bit = record { frame = 32; bit = 8 };
      first = D0;
      first_at = InCell (codes "a0");
      second = D1;
      second_at = InCell (codes "a1");
    } ∷ []))
        ≡ codes "standing 1\nF32B8 D0 @a0 D1 @a1\n" }
    ensures no_site { report_text (NoRoute (Blocked (Local (pos 1) (pos 1) (codes "Q")) (Local (pos 1) (pos 3) (codes "B"))
        ∷ Blocked (Local (pos 1) (pos 1) (codes "Q")) (Local (pos 1) (pos 3) (codes "B")) ∷ []) EndSite)
        ≡ codes "noroute\nattempt 1 blocked R1C1/Q R1C3/B\nattempt 2 blocked R1C1/Q R1C3/B\nend site\n" }
    ensures cut_file { report_text (CutFile (record {
      net = Local (pos 1) (pos 2) (codes "F");
      pin = Local (pos 0) (pos 4) (codes "PO");
      inside = Local (pos 0) (pos 2) (codes "PO") ∷ Local (pos 1) (pos 1) (codes "V") ∷ [];
      rim = Local (pos 1) (pos 1) (codes "D") ∷ Wide (codes "G_CK0") ∷ [];
    }))
        ≡ codes "net R1C2/F\npin R0C4/PO\ninside R0C2/PO\ninside R1C1/V\nrim R1C1/D\nrim */G_CK0\n" }
    ensures run { report_text (Ran (record { blocks = 64; tiles = 1792; slices = 576; pads = 768; bits = 12544; answer = RunHardened; attempts = 2; connections = 960 }))
        ≡ codes "run 64\ntiles 1792\nslices 576\npads 768\nbits 12544\nhardened\nattempts 2\nconnections 960\n" }
{}
