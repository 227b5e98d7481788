//! The grammar of a database, `bits.db`: what its bytes stand for, or their first fault.
#![tactic(auto)]

ghost use Rattle.std.specs.Prelude.{◌≡◌, ℕ, List};
ghost use Rattle.texts.specs.Lines.{lines_of};
ghost use Rattle.grammars.specs.BitsDb.{database_of};
ghost use Rattle.grammars.specs.RowByRow.{read_lines, nothing_read, database_read};

/// A database is read line by line: each line makes of what was read before it what is read behind it, or
/// is the first faulty one.
pub fn database_is_read_by_lines()
    ensures { (text : List ℕ) → database_of text ≡ database_read (read_lines nothing_read (lines_of text)) }
{}
