//! Rules of names whose prefixes are looked up.

ghost use Rattle.std.specs.Prelude.{◌≡◌, ◌<◌, ◌≤◌, ℕ, length, IfOk};
ghost use Rattle.fabric.specs.WireOfName.{wire_of_name};
ghost use Rattle.wire_names.specs.Kept.{IsShortOrIgnored};
ghost use Rattle.wire_names.specs.Slots.{slot_at};

use crate::relative::Relative;
use crate::slot::Slot;
use crate::wire::without_chip;
use name_sets::NameSet;
use rr_ids::{Name, Rules};
use std::alloc::{AllocError, Global};
use std::marker::Model;

/// Rules of names that are lent, with their prefixes in order: a look-up takes what the name is long, and not what the
/// prefixes are many. Contracts see the rules.
#[derive(Drop)]
pub struct LentRules<'a> {
    chip_prefix: &'a Option<Name>,
    other_chips: NameSet<'a>,
    wide: NameSet<'a>,
}

impl<'a> Model for LentRules<'a> {
    ghost use Rattle.records.specs.Profile.{Rules as Prefixes};

    ghost Value = { Prefixes };

    ghost view = { λ r. record { chip_prefix = r.chip_prefix.now; other_chips = r.other_chips; wide = r.wide } };
}

impl<'a> LentRules<'a> {
    /// Lends rules; takes memory for their prefixes.
    pub fn new(alloc: Global, rules: &'a Rules) -> Result<LentRules<'a>, AllocError>
        ensures { IfOk result (λ lent. lent ≡ rules.now) }
    {
        Ok(LentRules {
            chip_prefix: &rules.chip_prefix,
            other_chips: NameSet::new(alloc, rules.other_chips.as_slice())?,
            wide: NameSet::new(alloc, rules.wide.as_slice())?,
        })
    }

    /// What a name stands for in tiles at all places; takes no memory.
    pub fn slot<'b>(&self, name: &'b [u8]) -> Slot<'b>
        ensures stands { (row column : ℕ) → slot_at (row, column) result ≡ wire_of_name (row, column) name.now self.now }

        // So what a name of 1 to 255 bytes stands for can be kept, unless it is ignored.
        ensures short { 0 < length name.now → length name.now ≤ 255
            → (row column : ℕ) → IsShortOrIgnored (slot_at (row, column) result) }
    {
        if self.other_chips.has_front_of(name) {
            return Slot::Ignored;
        }
        let relative = Relative::read(without_chip(self.chip_prefix, name));
        let is_wide = self.wide.has_front_of(relative.base);
        Slot::of(relative, is_wide)
    }
}
