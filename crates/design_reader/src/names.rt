//! Under which names the files of a design stand.

ghost use Rattle.std.specs.Prelude.{◌≡◌, ◌++◌, true, IfOk, OnOk, string_bytes};
ghost use Rattle.std.specs.List.{list_all};
ghost use Rattle.design_files.specs.Names as names;
ghost use Rattle.texts.specs.Names.{is_name_byte};

use rr_ids::Name;
use std::alloc::{AllocError, Global};

// Adds bytes of names, each of which is a character.
#[tactic(auto, using(crate::proofs::NameBytes::one_more))]
fn push_bytes(text: &mut String, bytes: &[u8]) -> Result<(), AllocError>
    requires { list_all is_name_byte bytes.now ≡ true }
    ensures { OnOk result (string_bytes text.new ≡ string_bytes text.old ++ bytes.now) }
{
    for byte in bytes {
        text.push(*byte as char)?;
    }
    Ok(())
}

// Adds a name.
#[tactic(auto, using(crate::proofs::NameBytes::bytes_of_name))]
fn push_name(text: &mut String, name: &Name) -> Result<(), AllocError>
    ensures { OnOk result (string_bytes text.new ≡ string_bytes text.old ++ name.now) }
{
    push_bytes(text, name.bytes())
}

/// The name of the grid of a device in a family's folder.
pub(crate) fn grid_name(alloc: Global, family: &str, device: &Name) -> Result<String, AllocError>
    ensures { IfOk result (λ name. string_bytes name ≡ names.grid_name family.now device.now) }
{
    let mut name = String::from_str(alloc, family)?;
    name.push_str("/")?;
    push_name(&mut name, device)?;
    name.push_str("/tilegrid.json")?;
    Ok(name)
}

/// The name of the database of a tile type in a family's folder.
pub(crate) fn database_name(alloc: Global, family: &str, kind: &Name) -> Result<String, AllocError>
    ensures { IfOk result (λ name. string_bytes name ≡ names.database_name family.now kind.now) }
{
    let mut name = String::from_str(alloc, family)?;
    name.push_str("/tiledata/")?;
    push_name(&mut name, kind)?;
    name.push_str("/bits.db")?;
    Ok(name)
}
