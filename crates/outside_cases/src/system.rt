//! The files of the system, and writers as sinks.

use crate::memory::{print_text, print_twice, print_whole, print_write, print_written};
use crate::short::{Short, ShortFile};
use anyhow::Result;
use outside::{Files, OsFiles, OsSink, Sink};
use std::path::PathBuf;
use std::{env, fs, process};

/// The path of a new folder, of this process alone.
pub fn new_folder(rt: &HostRuntime) -> Result<PathBuf> {
    let id = process::id(rt.process());
    let mut path = env::temp_dir(rt)?;
    path.push(format!(in rt.alloc(); "outside-{id}")?.as_str())?;
    fs::create_dir(rt, path.as_str())?;
    Ok(path)
}

/// All cases, in a folder.
pub fn all(rt: &HostRuntime, folder: &PathBuf) -> Result<()> {
    let alloc = rt.alloc();
    let file = folder.join(alloc, "file")?;
    real_files(rt, folder, file.as_str())?;
    println!(rt; "# short calls of the system")?;
    short_files(rt, file.as_str(), 1_000)?;
    short_files(rt, file.as_str(), 2)?;
    short_files(rt, file.as_str(), 0)?;
    println!(rt; "# writers as sinks")?;
    short_sink(rt, file.as_str(), 1_000)?;
    short_sink(rt, file.as_str(), 2)?;
    closed_sink(rt, file.as_str())?;
    sink_in_memory(rt)
}

// Bytes that are no text.
fn bytes() -> &'static [u8] {
    b"some\xff bytes"
}

// Paths of a file, of a folder, of nothing, and through the file.
#[derive(Drop)]
struct Paths<'a> {
    file: &'a str,
    folder: &'a str,
    none: &'a str,
    through: &'a str,
}

fn write_real<F: Files>(rt: &HostRuntime, files: &mut F, paths: &Paths<'_>) -> Result<()> {
    print_write(rt, files, paths.file, b"an older and longer text")?;
    print_write(rt, files, paths.file, bytes())?;
    print_write(rt, files, paths.through, bytes())?;
    print_write(rt, files, paths.folder, bytes())
}

fn read_real<F: Files>(rt: &HostRuntime, files: &mut F, paths: &Paths<'_>) -> Result<()> {
    print_whole(rt, files, paths.file, 11, bytes())?;
    print_whole(rt, files, paths.file, 10, bytes())?;
    print_whole(rt, files, paths.none, 99, bytes())?;
    print_whole(rt, files, paths.through, 99, bytes())?;
    print_whole(rt, files, paths.folder, 99, bytes())
}

// A file that is written and read; no such file; a path through a file; a folder in a file's place.
fn real_files(rt: &HostRuntime, folder: &PathBuf, file: &str) -> Result<()> {
    let none = folder.join(rt.alloc(), "none")?;
    let through = format!(in rt.alloc(); "{file}/none")?;
    let paths = Paths {
        file,
        folder: folder.as_str(),
        none: none.as_str(),
        through: through.as_str(),
    };
    let mut files = OsFiles::new(rt.clone()?);
    write_real(rt, &mut files, &paths)?;
    read_real(rt, &mut files, &paths)
}

// A file that is written and read by calls of three bytes, of which so many don't fail.
fn short_files(rt: &HostRuntime, file: &str, left: u32) -> Result<()> {
    println!(rt; "{left} calls don't fail")?;
    fs::write(rt, file, b"old text")?;
    let mut files = OsFiles::new(Short {
        rt: rt.clone()?,
        left,
    });
    print_whole(rt, &mut files, file, 99, b"old text")?;
    print_write(rt, &mut files, file, b"ten bytes.")?;
    print_text(rt, &fs::read(rt, file)?)
}

// A file as a sink, by calls of three bytes, of which so many don't fail.
fn short_sink(rt: &HostRuntime, file: &str, left: u32) -> Result<()> {
    println!(rt; "{left} calls don't fail")?;
    let mut out = OsSink::new(ShortFile {
        file: fs::create(rt, file)?,
        left,
    });
    print_twice(rt, &mut out)?;
    print_text(rt, &fs::read(rt, file)?)
}

// A file that is open to read takes no bytes.
fn closed_sink(rt: &HostRuntime, file: &str) -> Result<()> {
    println!(rt; "a file that is open to read")?;
    let mut out = OsSink::new(fs::open(rt, file)?);
    print_written(rt, &mut out, b"lost")?;
    let answer = out.write(b"lost");
    println!(rt; "  {answer:?}")?;
    Ok(())
}

// A vector tells its bytes; no bytes are taken as none.
fn sink_in_memory(rt: &HostRuntime) -> Result<()> {
    println!(rt; "a vector")?;
    let mut out = OsSink::new(Vec::new(rt.alloc()));
    print_written(rt, &mut out, b"some bytes")?;
    let answer = out.write(b"");
    println!(rt; "  {answer:?}")?;
    Ok(())
}
