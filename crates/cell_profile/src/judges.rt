//! How a kind stands behind those before it.

ghost use Rattle.std.specs.Prelude.{◌≡◌, ◌++◌, [], map, IfOk};
ghost use Rattle.json_forms.specs.KindRules.{slice_name, pad_name};
ghost use Rattle.json_forms.specs.Profile.{slice_verdict, pad_verdict};
ghost use Rattle.cell_profile.specs.Known.{KnowsNames, KnowsShapes};

use crate::known::{KindNames, Shapes, add_name, fits_shape, names_of_slices};
use crate::rules::{pad_stands, parts_fit, slice_stands};
use crate::{PadKind, SliceKind};
use json_values::{Judge, Verdict};
use name_sets::NameSet;
use rr_ids::{Limit, Name};
use std::alloc::{AllocError, Global};

/// The rules of slice kinds. The names and shapes are those of the kinds judged so far.
#[derive(Drop)]
pub(crate) struct SliceJudge<'a> {
    alloc: Global,
    other_chips: NameSet<'a>,
    names: KindNames,
    shapes: Shapes,
}

impl<'a> SliceJudge<'a> {
    /// No kind was judged yet.
    pub(crate) fn new(alloc: Global, other_chips: &'a [Name]) -> Result<SliceJudge<'a>, AllocError>
        ensures other_chips { IfOk result (λ it. it.other_chips ≡ other_chips.now) }
        ensures names { IfOk result (λ it. KnowsNames it.names []) }
        ensures shapes { IfOk result (λ it. KnowsShapes it.shapes []) }
    {
        Ok(SliceJudge {
            alloc,
            other_chips: NameSet::new(alloc, other_chips)?,
            names: KindNames::new(alloc),
            shapes: Shapes::new(alloc),
        })
    }
}

impl<'a> Judge<SliceKind> for SliceJudge<'a> {
    ghost verdict = { λ it. slice_verdict it.other_chips };

    ghost Knows = { λ it earlier. KnowsNames it.names (map slice_name earlier) × KnowsShapes it.shapes earlier };

    fn judge(
        &mut self,
        _earlier: &[SliceKind],
        element: &SliceKind,
    ) -> Result<Verdict, AllocError> {
        if !slice_stands(self.alloc, &self.other_chips, element)?
            || !add_name(&mut self.names, &element.tile, &element.name)?
            || !fits_shape(self.alloc, &mut self.shapes, element)?
        {
            return Ok(Verdict::Misfits);
        }
        if !parts_fit(element) {
            return Ok(Verdict::Exceeds(Limit::Parts));
        }
        Ok(Verdict::Fits)
    }
}

/// The rules of pad kinds, which stand behind slice kinds. The names are those of the slice kinds, and of the pad kinds
/// judged so far.
#[derive(Drop)]
pub(crate) struct PadJudge<'a> {
    alloc: Global,
    other_chips: NameSet<'a>,
    slices: &'a [SliceKind],
    names: KindNames,
}

impl<'a> PadJudge<'a> {
    /// No pad kind was judged yet.
    pub(crate) fn new(
        alloc: Global,
        other_chips: &'a [Name],
        slices: &'a [SliceKind],
    ) -> Result<PadJudge<'a>, AllocError>
        ensures other_chips { IfOk result (λ it. it.other_chips ≡ other_chips.now) }
        ensures slices { IfOk result (λ it. it.slices ≡ slices.entry) }
        ensures names { IfOk result (λ it. KnowsNames it.names (map slice_name slices.now ++ [])) }
    {
        Ok(PadJudge {
            alloc,
            other_chips: NameSet::new(alloc, other_chips)?,
            slices,
            names: names_of_slices(alloc, slices)?,
        })
    }
}

impl<'a> Judge<PadKind> for PadJudge<'a> {
    ghost verdict = { λ it. pad_verdict it.other_chips it.slices.now };

    ghost Knows = { λ it earlier. KnowsNames it.names (map slice_name it.slices.now ++ map pad_name earlier) };

    fn judge(&mut self, _earlier: &[PadKind], element: &PadKind) -> Result<Verdict, AllocError> {
        if !pad_stands(self.alloc, &self.other_chips, element)?
            || !add_name(&mut self.names, &element.tile, &element.name)?
        {
            return Ok(Verdict::Misfits);
        }
        Ok(Verdict::Fits)
    }
}
