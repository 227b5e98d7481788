//! How texts are cut: lines, words, decimal numbers, names, and the spelling of a pattern's bit. There is no
//! code but laws, each the contract of a function with an empty body.
#![tactic(auto)]

ghost use Rattle.std.specs.Prelude.{◌≡◌, ◌<◌, ◌≤◌, ◌^◌, ℕ, true, false, List, [], ◌∷◌, length, map, codes};
ghost use Rattle.std.specs.Fmt.{decimal};
ghost use Rattle.words.specs.Members.{In};
ghost use Rattle.patterns.specs.Bits.{PatternBit};
ghost use Rattle.texts.specs.Pieces.{Span};
ghost use Rattle.texts.specs.Lines.{Line, lines_of, before_hash};
ghost use Rattle.texts.specs.Words.{words_of};
ghost use Rattle.texts.specs.Parts.{StandsAt, InOrder, span_of, IsTextOf, IsLineOf, IsBeforeHash};
ghost use Rattle.texts.specs.Numbers.{decimal_of};
ghost use Rattle.texts.specs.PatternBits.{pattern_bit_of, spelling_of};

/// The lines of a text are all its lines: they give the text back, with what stands behind each.
pub fn lines_make_the_text()
    ensures { (text : List ℕ) → IsTextOf 1 0 (lines_of text) text }
{}

/// No other lines make the text.
pub fn only_its_lines_make_a_text()
    ensures { (text : List ℕ) (lines : List Line) → IsTextOf 1 0 lines text → lines ≡ lines_of text }
{}

/// Each line is the slice of the text that begins at its place and has its length.
pub fn lines_are_slices()
    ensures { (text : List ℕ) (line : Line) → In (lines_of text) line
        → StandsAt text line.start line.text }
{}

/// Lines come in order and don't overlap.
pub fn lines_come_in_order()
    ensures { (text : List ℕ) → InOrder (map span_of (lines_of text)) }
{}

/// A text has no more lines than bytes.
pub fn lines_are_few()
    ensures { (text : List ℕ) → length (lines_of text) ≤ length text }
{}

/// The words of a line are all its words: they give the line back, with the blanks around them.
pub fn words_make_the_line()
    ensures { (line : Line) → IsLineOf line.start (words_of line) line.text }
{}

/// No other words make the line.
pub fn only_its_words_make_a_line()
    ensures { (line : Line) (words : List Span) → IsLineOf line.start words line.text
        → words ≡ words_of line }
{}

/// Where a line is a slice of a source, so is each of its words.
pub fn words_are_slices()
    ensures { (source : List ℕ) (line : Line) (word : Span) → StandsAt source line.start line.text
        → In (words_of line) word → StandsAt source word.start word.text }
{}

/// Words come in order and don't overlap.
pub fn words_come_in_order()
    ensures { (line : Line) → InOrder (words_of line) }
{}

/// A line has no more words than bytes.
pub fn words_are_few()
    ensures { (line : Line) → length (words_of line) ≤ length line.text }
{}

/// The line before its first `#` has no `#`, and behind it stands a `#` or nothing.
pub fn before_hash_is_before_it()
    ensures { (line : Line) → IsBeforeHash line.text (before_hash line).text }
{}

/// Where a line is a slice of a source, so is the line before its first `#`.
pub fn before_hash_is_slice()
    ensures { (source : List ℕ) (line : Line) → StandsAt source line.start line.text
        → StandsAt source (before_hash line).start (before_hash line).text }
{}

/// A printed number is read as it was.
pub fn printed_number_is_read()
    ensures { (n : ℕ) → n < 2 ^ 32 → decimal_of (decimal n) ≡ Some n }
{}

/// A bit that is spelled is read as it was.
pub fn spelled_bit_is_read()
    ensures { (bit : PatternBit) → bit.frame ≤ 65535 → bit.bit ≤ 65535
        → pattern_bit_of (spelling_of bit) ≡ Some bit }
{}

/// A text with carriage returns, a comment, an empty line and a last line without its line feed.
pub fn lines_example()
    ensures { lines_of (codes ".mux A\r\n\n# b\r\nc") ≡
        record { number = 1; start = 0; text = codes ".mux A" }
        ∷ record { number = 2; start = 8; text = [] }
        ∷ record { number = 3; start = 9; text = codes "# b" }
        ∷ record { number = 4; start = 14; text = codes "c" } ∷ [] }
{}

/// Behind a last line feed there is no line, and a text without bytes has none.
pub fn last_line_example()
    ensures none { lines_of [] ≡ [] }
    ensures one { lines_of (codes "a\n") ≡ record { number = 1; start = 0; text = codes "a" } ∷ [] }
    ensures blank { lines_of (codes "\n\n") ≡
        record { number = 1; start = 0; text = [] } ∷ record { number = 2; start = 1; text = [] } ∷ [] }
{}

/// The words of a line that begins at place 40, up to its comment.
pub fn words_example()
    ensures { words_of (before_hash (record { number = 7; start = 40; text = codes " A \tF0B0 # F1B1" })) ≡
        record { start = 41; text = codes "A" } ∷ record { start = 44; text = codes "F0B0" } ∷ [] }
{}

/// Numbers at and beyond the bounds.
pub fn number_examples()
    ensures greatest { decimal_of (codes "4294967295") ≡ Some 4294967295 }
    ensures too_great { decimal_of (codes "4294967296") ≡ None }
    ensures ten_digits { decimal_of (codes "0000000007") ≡ Some 7 }
    ensures eleven_digits { decimal_of (codes "00000000007") ≡ None }
    ensures no_digit { decimal_of [] ≡ None }
    ensures sign { decimal_of (codes "+7") ≡ None }
{}

/// Spellings of bits, and words that spell none.
pub fn bit_examples()
    ensures plain { pattern_bit_of (codes "F0B0") ≡ Some (record { frame = 0; bit = 0; set = true }) }
    ensures cleared { pattern_bit_of (codes "!F65535B12") ≡ Some (record { frame = 65535; bit = 12; set = false }) }
    ensures too_great { pattern_bit_of (codes "F65536B0") ≡ None }
    ensures no_bit { pattern_bit_of (codes "F3B") ≡ None }
    ensures small_letters { pattern_bit_of (codes "f0b0") ≡ None }
    ensures two_marks { pattern_bit_of (codes "!!F0B0") ≡ None }
{}
