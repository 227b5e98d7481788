//! Lines.

ghost use Rattle.std.specs.Prelude.{◌≡◌, ◌+◌, ◌<◌, ◌^◌, length};
ghost use Rattle.texts.specs.Lines.{without_return, lines_of};

use super::place_or_len;
use super::word::Words;
use std::marker::Model;

/// A line of a source, without its line feed and the carriage return before it.
#[derive(Clone, Copy)]
pub struct Line<'a> {
    /// The line's number, from 1. A number that would pass the type's end stands at it.
    pub number: u32,
    /// The place of the line's first byte in the source.
    pub start: usize,
    /// The line's bytes, a slice of the source.
    pub text: &'a [u8],
    // The place behind the line is a number too.
    pub ghost in_range: { start + length text.now < 2 ^ 64 },
}

impl<'a> Line<'a> {
    ghost use Rattle.std.specs.Prelude.{◌≡◌};
    ghost use Rattle.texts.specs.Lines.{before_hash};
    ghost use Rattle.texts.specs.Words.{words_of};
    ghost use Rattle.text_cut.specs.Lent.{line_view};

    /// The words of the line, in order: what stands between spaces and tabs.
    pub fn words(&self) -> Words<'a>
        ensures { result ≡ words_of (line_view self.now) }
    {
        Words::new(self.start, self.text)
    }

    /// The line before its first `#`, or the whole line where there is none.
    pub fn before_hash(&self) -> Line<'a>
        ensures { line_view result ≡ before_hash (line_view self.now) }
    {
        let (front, _) = self.text.split_at(place_or_len(b'#', self.text));
        Line {
            number: self.number,
            start: self.start,
            text: front,
        }
    }
}

/// The lines of a source that are left, in order.
#[derive(Drop)]
pub struct Lines<'a> {
    number: u32,
    start: usize,
    rest: &'a [u8],
}

impl<'a> Model for Lines<'a> {
    ghost use Rattle.std.specs.Prelude.{List, ◌+◌, ◌<◌, ◌^◌, length};
    ghost use Rattle.texts.specs.Pieces.{pieces, placed};
    ghost use Rattle.texts.specs.Lines.{Line as LineOf, numbered_lines, is_line_feed};

    ghost Value = { List LineOf };

    ghost view = { λ s. numbered_lines s.number (placed s.start (pieces is_line_feed s.rest.now)) };

    ghost invariant = { λ s. s.start + length s.rest.now < 2 ^ 64 };
}

impl<'a> Lines<'a> {
    pub(crate) fn new(text: &'a [u8]) -> Lines<'a>
        ensures { result ≡ lines_of text.now }
    {
        Lines {
            number: 1,
            start: 0,
            rest: text,
        }
    }
}

impl<'a> Iterator for Lines<'a> {
    ghost use Rattle.std.specs.Iterator.{YieldsFirstBy, item_count};
    ghost use Rattle.text_cut.specs.Lent.{line_view};

    type Item = Line<'a>;

    ghost next_gives = { YieldsFirstBy line_view (λ left. left) };

    ghost remaining = { item_count (λ left. left) };

    fn next(&mut self) -> Option<Line<'a>> {
        if self.rest.is_empty() {
            return None;
        }
        let end = place_or_len(b'\n', self.rest);
        let (piece, _) = self.rest.split_at(end);
        let line = Line {
            number: self.number,
            start: self.start,
            text: trim_return(piece),
        };
        let after = (end + 1).min(self.rest.len());
        let (_, rest) = self.rest.split_at(after);
        self.number = self.number.saturating_add(1);
        self.start += after;
        self.rest = rest;
        Some(line)
    }
}

// The piece without a carriage return at its end.
fn trim_return(piece: &[u8]) -> &[u8]
    ensures { result.now ≡ without_return piece.now }
{
    match piece.split_last() {
        Some((b'\r', front)) => front,
        _ => piece,
    }
}
