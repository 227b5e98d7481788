//! Words of a line.

ghost use Rattle.std.specs.Prelude.{◌≡◌, ◌+◌, ◌<◌, ◌≤◌, ◌^◌, not, length, filter};
ghost use Rattle.std.specs.List.{position_or_len};
ghost use Rattle.texts.specs.Pieces.{pieces, placed};
ghost use Rattle.texts.specs.Words.{is_blank as is_blank_byte, has_bytes};

use std::marker::Model;

/// A word of a line.
#[derive(Clone, Copy)]
pub struct Word<'a> {
    /// The place of the word's first byte in the source.
    pub start: usize,
    /// The word's bytes, a slice of the source.
    pub text: &'a [u8],
}

/// The words of a line that are left, in order.
#[derive(Drop)]
pub struct Words<'a> {
    start: usize,
    rest: &'a [u8],
}

impl<'a> Model for Words<'a> {
    ghost use Rattle.std.specs.Prelude.{List, ◌+◌, ◌<◌, ◌^◌, length, filter};
    ghost use Rattle.texts.specs.Pieces.{Span, pieces, placed};
    ghost use Rattle.texts.specs.Words.{is_blank, has_bytes};

    ghost Value = { List Span };

    ghost view = { λ s. filter has_bytes (placed s.start (pieces is_blank s.rest.now)) };

    ghost invariant = { λ s. s.start + length s.rest.now < 2 ^ 64 };
}

impl<'a> Words<'a> {
    // The words of a text that begins at a place of the source.
    pub(crate) fn new(start: usize, text: &'a [u8]) -> Words<'a>
        requires { start + length text.now < 2 ^ 64 }
        ensures { result ≡ filter has_bytes (placed start (pieces is_blank_byte text.now)) }
    {
        Words { start, rest: text }
    }
}

impl<'a> Iterator for Words<'a> {
    ghost use Rattle.std.specs.Iterator.{YieldsFirstBy, item_count};
    ghost use Rattle.text_cut.specs.Lent.{word_view};

    type Item = Word<'a>;

    ghost next_gives = { YieldsFirstBy word_view (λ left. left) };

    ghost remaining = { item_count (λ left. left) };

    fn next(&mut self) -> Option<Word<'a>> {
        let blanks = blanks_len(self.rest);
        let (_, from) = self.rest.split_at(blanks);
        let start = self.start + blanks;
        let (text, rest) = from.split_at(word_len(from));
        self.start = start + text.len();
        self.rest = rest;
        if text.is_empty() {
            return None;
        }
        Some(Word { start, text })
    }
}

fn is_blank(byte: u8) -> bool
    ensures { result ≡ is_blank_byte byte }
{
    byte == b' ' || byte == b'\t'
}

// How many blanks stand in front.
fn blanks_len(text: &[u8]) -> usize
    ensures place { result ≡ position_or_len (λ byte. not (is_blank_byte byte)) text.now }
    ensures within { result ≤ length text.now }
{
    for (i, byte) in text.iter().enumerate() {
        if !is_blank(*byte) {
            return i;
        }
    }
    text.len()
}

// How many bytes stand before the first blank.
fn word_len(text: &[u8]) -> usize
    ensures place { result ≡ position_or_len is_blank_byte text.now }
    ensures within { result ≤ length text.now }
{
    for (i, byte) in text.iter().enumerate() {
        if is_blank(*byte) {
            return i;
        }
    }
    text.len()
}
