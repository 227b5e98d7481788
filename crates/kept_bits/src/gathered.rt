//! The bits of the muxes of a database.

ghost use Rattle.std.specs.Prelude.{◌≡◌, IfOk, OnOk, flat_map, map};
ghost use Rattle.record_laws.specs.KeptBits.{arc_bits, kept_bits, place_bit, put_in};

use crate::ignored::is_ignored;
use crate::place_bit::PlaceBit;
use bits_db::{Arc, Mux};
use rr_ids::List;
use std::alloc::{AllocError, Global};
use std::collections::BTreeSet;
use text_cut::PatternBit;
use wire_names::LentRules;

// Puts the bits of a pattern in.
fn put_pattern(bits: &mut BTreeSet<PlaceBit>, pattern: &[PatternBit]) -> Result<(), AllocError>
    ensures { OnOk result (bits.new.keys ≡ put_in bits.old.keys (map place_bit pattern.now)) }
{
    for p in pattern {
        bits.insert(PlaceBit::of(p))?;
    }
    Ok(())
}

// Puts the bits of an arc in, unless its source is ignored.
fn put_arc(
    bits: &mut BTreeSet<PlaceBit>,
    rules: &LentRules<'_>,
    arc: &Arc,
) -> Result<(), AllocError>
    ensures { OnOk result (bits.new.keys ≡ put_in bits.old.keys (arc_bits rules.now arc.now)) }
{
    if is_ignored(rules, &arc.source) {
        return Ok(());
    }
    put_pattern(bits, arc.bits.as_slice())
}

// Puts the bits of arcs in.
fn put_arcs(
    bits: &mut BTreeSet<PlaceBit>,
    rules: &LentRules<'_>,
    arcs: &[Arc],
) -> Result<(), AllocError>
    ensures { OnOk result (bits.new.keys ≡ put_in bits.old.keys (flat_map (arc_bits rules.now) arcs.now)) }
{
    for arc in arcs {
        put_arc(bits, rules, arc)?;
    }
    Ok(())
}

// The bits of a mux in order, each once.
fn bits_of_mux(
    alloc: Global,
    rules: &LentRules<'_>,
    mux: &Mux,
) -> Result<List<PlaceBit>, AllocError>
    ensures { IfOk result (λ bits. bits ≡ kept_bits rules.now mux.now) }
{
    let mut bits = BTreeSet::new(alloc);
    put_arcs(&mut bits, rules, mux.arcs.as_slice())?;
    let bits: Vec<PlaceBit> = bits.iter().copied().collect(alloc)?;
    Ok(List::from_vec(bits))
}

/// The bits of each mux of a database, from the place where a tile's bits begin, in order, each once; without those of arcs whose
/// source is ignored. Takes time in proportion to the bits and the logarithm of how many a mux has.
pub fn bits_of_muxes(
    alloc: Global,
    rules: &LentRules<'_>,
    muxes: &[Mux],
) -> Result<List<List<PlaceBit>>, AllocError>
    ensures { IfOk result (λ rows. rows ≡ map (kept_bits rules.now) muxes.now) }
{
    let mut rows = Vec::with_capacity(alloc, muxes.len())?;
    for mux in muxes {
        rows.push(bits_of_mux(alloc, rules, mux)?)?;
    }
    Ok(List::from_vec(rows))
}
