//! The files and sinks in memory.

use anyhow::Result;
use outside::{Files, MemFiles, MemSink, Sink, SureFiles, SureSink, read_whole, write_all};
use std::alloc::{AllocError, Global};

// `size` bytes, each other than its neighbours.
fn pattern(alloc: Global, size: usize) -> Result<Vec<u8>, AllocError> {
    let mut bytes = Vec::new(alloc);
    for i in 0..size {
        bytes.push((i % 251) as u8)?;
    }
    Ok(bytes)
}

// Adds a file to a list.
fn add(files: &mut Vec<(String, Vec<u8>)>, name: &str, content: Vec<u8>) -> Result<(), AllocError> {
    let alloc = *files.allocator();
    files.push((String::from_str(alloc, name)?, content))?;
    Ok(())
}

/// Reads a whole file, and prints how many bytes it has, and whether these are the ones that are wanted, or why it isn't
/// read.
pub fn print_whole<R: Print + AllocGlobal, F: Files>(
    rt: &R,
    files: &mut F,
    name: &str,
    limit: u64,
    want: &[u8],
) -> Result<()> {
    match read_whole(rt.alloc(), files, name, limit) {
        Ok(bytes) => {
            let same = bytes.as_slice() == want;
            let size = bytes.len();
            println!(rt; "  {size} bytes, as wanted: {same}")?;
        }
        Err(error) => println!(rt; "  {error:?}")?,
    }
    Ok(())
}

// A file `a` of 150,000 bytes, of whose reads the k-th fails.
fn file_that_fails(alloc: Global, k: u64) -> Result<MemFiles, AllocError> {
    let mut list = Vec::new(alloc);
    add(&mut list, "a", pattern(alloc, 150_000)?)?;
    Ok(MemFiles::new(list, vec![in alloc; k]?, Vec::new(alloc)))
}

fn failing_read<R: Print + AllocGlobal>(rt: &R, k: u64, content: &[u8]) -> Result<()> {
    println!(rt; "read {k} fails")?;
    let mut files = file_that_fails(rt.alloc(), k)?;
    print_whole(rt, &mut files, "a", 150_000, content)
}

/// A file of 150,000 bytes takes three reads and one that finds its end. A read that fails is a fault, at each.
pub fn failing_reads<R: Print + AllocGlobal>(rt: &R) -> Result<()> {
    let content = pattern(rt.alloc(), 150_000)?;
    for k in 1..6u64 {
        failing_read(rt, k, &content)?;
    }
    Ok(())
}

// An empty file, and two of one name.
fn three_files(alloc: Global) -> Result<SureFiles, AllocError> {
    let mut list = Vec::new(alloc);
    add(&mut list, "a", Vec::new(alloc))?;
    add(&mut list, "b", pattern(alloc, 65_536)?)?;
    add(&mut list, "b", pattern(alloc, 3)?)?;
    Ok(SureFiles::new(list))
}

fn print_limits<R: Print + AllocGlobal>(
    rt: &R,
    files: &mut SureFiles,
    content: &[u8],
) -> Result<()> {
    print_whole(rt, files, "a", 0, b"")?;
    print_whole(rt, files, "b", 65_535, content)?;
    print_whole(rt, files, "b", 65_536, content)?;
    print_whole(rt, files, "b", u64::MAX, content)?;
    print_whole(rt, files, "c", 0, b"")
}

/// An empty file, a file past, at and below the limit, the first of two with one name, and no such file.
pub fn limits<R: Print + AllocGlobal>(rt: &R) -> Result<()> {
    println!(rt; "limits")?;
    let content = pattern(rt.alloc(), 65_536)?;
    let mut files = three_files(rt.alloc())?;
    print_limits(rt, &mut files, &content)
}

/// Writes a file, and prints what is answered.
pub fn print_write<R: Print, F: Files>(
    rt: &R,
    files: &mut F,
    name: &str,
    content: &[u8],
) -> Result<()> {
    let answer = files.write(name, content);
    println!(rt; "  {answer:?}")?;
    Ok(())
}

// A file `a`; the second write fails.
fn second_write_fails(alloc: Global) -> Result<MemFiles, AllocError> {
    let mut list = Vec::new(alloc);
    add(&mut list, "a", Vec::from_slice(alloc, b"old")?)?;
    Ok(MemFiles::new(list, Vec::new(alloc), vec![in alloc; 2]?))
}

fn print_writes<R: Print + AllocGlobal>(rt: &R, files: &mut MemFiles) -> Result<()> {
    print_write(rt, files, "a", b"new")?;
    print_write(rt, files, "b", b"lost")?;
    print_write(rt, files, "a", b"newer")?;
    print_whole(rt, files, "a", 9, b"newer")?;
    print_whole(rt, files, "b", 9, b"")
}

/// The second write fails. A written file counts before an older one of its name.
pub fn failing_writes<R: Print + AllocGlobal>(rt: &R) -> Result<()> {
    println!(rt; "write 2 fails")?;
    let mut files = second_write_fails(rt.alloc())?;
    print_writes(rt, &mut files)
}

fn sure_writes<R: Print + AllocGlobal>(rt: &R, files: &mut SureFiles) -> Result<()> {
    print_write(rt, files, "a", b"text")?;
    print_whole(rt, files, "a", 4, b"text")
}

/// Files and a sink of which no call fails.
pub fn sure_files<R: Print + AllocGlobal>(rt: &R) -> Result<()> {
    println!(rt; "no call fails")?;
    let mut files = SureFiles::new(Vec::new(rt.alloc()));
    sure_writes(rt, &mut files)?;
    let mut out = SureSink::new(rt.alloc());
    print_twice(rt, &mut out)?;
    print_text(rt, out.written())
}

/// Writes bytes whole, and prints whether they were.
pub fn print_written<R: Print, O: Sink>(rt: &R, out: &mut O, bytes: &[u8]) -> Result<()> {
    match write_all(out, bytes) {
        Ok(()) => println!(rt; "  written")?,
        Err(error) => println!(rt; "  {error:?}")?,
    }
    Ok(())
}

/// Writes bytes whole, twice.
pub fn print_twice<R: Print, O: Sink>(rt: &R, out: &mut O) -> Result<()> {
    print_written(rt, out, b"some ")?;
    print_written(rt, out, b"bytes")
}

/// Prints bytes that are text.
pub fn print_text<R: Print>(rt: &R, bytes: &[u8]) -> Result<()> {
    let text = std::str::from_utf8(bytes)?;
    println!(rt; "  {text:?}")?;
    Ok(())
}

fn failing_sink<R: Print + AllocGlobal>(rt: &R, j: u64) -> Result<()> {
    println!(rt; "call {j} fails")?;
    let mut out = MemSink::new(rt.alloc(), 1, vec![in rt.alloc(); j]?);
    print_written(rt, &mut out, b"two")?;
    print_text(rt, out.written())
}

/// A sink that takes a byte a call holds, after its call j failed, the j - 1 bytes before.
pub fn failing_sinks<R: Print + AllocGlobal>(rt: &R) -> Result<()> {
    for j in 1..5u64 {
        failing_sink(rt, j)?;
    }
    Ok(())
}
