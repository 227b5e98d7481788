//! Laws of images, each the contract of a function with an empty body.

ghost use Rattle.std.specs.Prelude.{◌≡◌, ◌↔◌, List, true};
ghost use Rattle.patterns.specs.Bits.{DeviceBit as Bit};
ghost use Rattle.words.specs.Members.{In};
ghost use Rattle.cram_image.specs.Image.{bits};

/// The bits of an image are those that its list has.
pub fn bits_are_members()
    ensures { (image : List Bit) (b : Bit) → (bits image b ≡ true) ↔ In image b }
{}

/// Images with the same members are the same set.
pub fn same_members_are_same_bits()
    ensures { (image other : List Bit) → ((b : Bit) → In image b ↔ In other b)
        → (b : Bit) → bits image b ≡ bits other b }
{}
