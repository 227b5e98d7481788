//! Byte codes of wires.

ghost use Rattle.std.specs.Prelude.{◌≡◌, ◌+◌, ◌<◌, [], ◌∷◌, ◌++◌, length, take, drop, MatchOption};
ghost use Rattle.fabric.specs.Wires as wires;
ghost use Rattle.fabric.specs.WireNames.{Named};
ghost use Rattle.wire_names.specs.Codes.{IsCodeOf, IsCodeOfName, IsKept, signed_of, wire_of as wire_of_code};
ghost use Rattle.wire_names.specs.Kept.{CanBeKept};
ghost use Rattle.wire_names.specs.LentNames.{wire_name};

use crate::WireName;
use arrayvec::ArrayVec;

/// A code: the kind, the row and the column of a local wire, and a base of at most 255 bytes.
pub(crate) type Code = ArrayVec<u8, 264>;

const LOCAL: u8 = 0;

const WIDE: u8 = 1;

/// The code of a wire; none where the name is ignored or the base too long.
pub(crate) fn code_of(w: &WireName<'_>) -> Option<Code>
    ensures { MatchOption result (CanBeKept (wire_name w.now) → ⊥) (λ code. IsCodeOfName (wire_name w.now) code.items) }
{
    match w {
        WireName::Local { row, col, base } => local_code(*row, *col, base),
        WireName::Wide { base } => wide_code(base),
        WireName::Ignored => None,
    }
}

// The code of a local wire; none where its base is too long.
fn local_code(row: i32, col: i32, base: &[u8]) -> Option<Code>
    ensures { MatchOption result (255 < length base.now) (λ code. IsCodeOf (wires.Local row col base.now) code.items) }
{
    let with_row = extended(kind(LOCAL), &row.to_le_bytes())?;
    let with_place = extended(with_row, &col.to_le_bytes())?;
    extended(with_place, base)
}

// The code of a wide wire; none where its base is too long.
fn wide_code(base: &[u8]) -> Option<Code>
    ensures { MatchOption result (255 < length base.now) (λ code. IsCodeOf (wires.Wide base.now) code.items) }
{
    extended(kind(WIDE), base)
}

// The byte of a kind alone.
fn kind(byte: u8) -> Code
    ensures { result.items ≡ byte ∷ [] }
{
    let mut code = Code::new();
    code.push(byte);
    code
}

// A code with more bytes behind it; none where there is no room for them.
fn extended(code: Code, bytes: &[u8]) -> Option<Code>
    ensures { MatchOption result (264 < length code.items + length bytes.now) (λ longer. longer.items ≡ code.items ++ bytes.now) }
{
    let mut longer = code;
    if longer.try_extend_from_slice(bytes).is_err() {
        return None;
    }
    Some(longer)
}

// The wire of a code that is kept.
pub(crate) fn wire_of<'a>(code: &'a [u8]) -> WireName<'a>
    requires { IsKept code.now }
    ensures { wire_name result ≡ Named (wire_of_code code.now) }
{
    let Some((kind, rest)) = code.split_first() else {
        return WireName::Wide { base: code };
    };
    if *kind == WIDE {
        return WireName::Wide { base: rest };
    }
    local_wire(rest)
}

fn local_wire<'a>(rest: &'a [u8]) -> WireName<'a>
    requires { 7 < length rest.now }
    ensures { wire_name result ≡ Named (wires.Local (signed_of (take 4 rest.now)) (signed_of (take 4 (drop 4 rest.now))) (drop 4 (drop 4 rest.now))) }
{
    let (row, behind_row) = front_number(rest);
    let (col, base) = front_number(behind_row);
    WireName::Local { row, col, base }
}

// The number in the first four bytes, and what stands behind them.
#[tactic(auto, unfolding(crate::specs::Codes::signed_of))]
fn front_number<'a>(bytes: &'a [u8]) -> (i32, &'a [u8])
    requires { 3 < length bytes.now }
    ensures number { result.0 ≡ signed_of (take 4 bytes.now) }
    ensures rest { result.1.now ≡ drop 4 bytes.now }
{
    let Some((number, rest)) = bytes.split_first_chunk::<4>() else {
        unreachable!()
    };
    (i32::from_le_bytes(*number), rest)
}
