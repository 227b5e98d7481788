//! Files in memory, in a list of names and contents.

ghost use Rattle.std.specs.Prelude.{◌≡◌, ℕ, ◌-◌, ◌<◌, ◌≤◌, List, ◌∷◌, min, option_map, take, drop, length, OnOk, OnErr};
ghost use Rattle.outside.specs.Held.{held_of, file_in, fullest_read};
ghost use Rattle.outside.specs.Files.{Reads};

use super::ReadAnswer;
use std::alloc::AllocError;
use std::marker::Model;

/// Files in memory. Of two with one name the first counts.
#[derive(Drop)]
pub struct Held {
    entries: Vec<(String, Vec<u8>)>,
}

impl Model for Held {
    ghost Value = { List (List ℕ × List ℕ) };

    ghost view = { λ h. held_of h.entries.items };
}

impl Held {
    /// Files by name and content.
    pub fn new(entries: Vec<(String, Vec<u8>)>) -> Held
        ensures { result ≡ held_of entries.items }
    {
        Held { entries }
    }

    /// Reads as many bytes as fit.
    pub fn read(&self, name: &str, at: u64, buf: &mut [u8]) -> ReadAnswer
        requires { 0 < length buf.old }
        ensures answer { result ≡ fullest_read (file_in self.now name.now) at (length buf.old) }
        ensures bytes { Reads (file_in self.now name.now) at result buf.new }
    {
        let Some(bytes) = content_of(&self.entries, name) else {
            return ReadAnswer::Missing;
        };
        if at >= bytes.len() as u64 {
            return ReadAnswer::End;
        }
        ReadAnswer::Got(copy_from(bytes, at as usize, buf))
    }

    /// Puts the bytes under the name, before an older file of this name.
    pub fn put(&mut self, name: &str, bytes: &[u8]) -> Result<(), AllocError>
        ensures ok { OnOk result (self.new ≡ (name.now, bytes.now) ∷ self.old) }
        ensures err { OnErr result (self.new ≡ self.old) }
    {
        let alloc = *self.entries.allocator();
        let content = Vec::from_slice(alloc, bytes)?;
        let key = String::from_str(alloc, name)?;
        self.entries.insert(0, (key, content))?;
        Ok(())
    }
}

// The content of the first file of this name.
fn content_of<'a>(entries: &'a [(String, Vec<u8>)], name: &str) -> Option<&'a [u8]>
    ensures { option_map (λ bytes. bytes.now) result ≡ file_in (held_of entries.now) name.now }
{
    for entry in entries {
        if entry.0.as_str() == name {
            return Some(entry.1.as_slice());
        }
    }
    None
}

// Copies what fits of the bytes from an offset on.
fn copy_from(bytes: &[u8], at: usize, buf: &mut [u8]) -> usize
    requires { at ≤ length bytes.now }
    ensures count { result ≡ min (length buf.old) (length bytes.now - at) }
    ensures same { take result buf.new ≡ take result (drop at bytes.now) }
{
    let count = buf.len().min(bytes.len() - at);
    buf[..count].copy_from_slice(&bytes[at..at + count]);
    count
}
