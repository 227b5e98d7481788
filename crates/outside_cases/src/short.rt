//! A system whose calls are short: its files give and take at most three bytes a call, and each opened one fails after so
//! many calls.

use std::alloc::Allocator;
use std::fs::{File, Metadata, OpenFile, OpenOptions};
use std::io::{self, ErrorKind, Read, Seek, SeekFrom, Write};
use std::rt::Files;

/// The most bytes of a call.
const MOST: usize = 3;

fn failure() -> io::Error {
    io::Error::from(ErrorKind::Unsupported)
}

/// The files of a runtime, by short calls.
#[derive(Drop)]
pub struct Short {
    pub rt: HostRuntime,
    /// How many reads and writes of an opened file don't fail.
    pub left: u32,
}

/// An open file, by short calls.
#[derive(Drop)]
pub struct ShortFile {
    pub file: File,
    pub left: u32,
}

impl ShortFile {
    // Counts a call; the calls past the last that may be fail.
    fn count(&mut self) -> io::Result<()> {
        if self.left == 0 {
            return Err(failure());
        }
        self.left -= 1;
        Ok(())
    }
}

impl Read for ShortFile {
    fn read(&mut self, buf: &mut [u8]) -> io::Result<usize> {
        self.count()?;
        let most = buf.len().min(MOST);
        self.file.read(&mut buf[..most])
    }
}

impl Write for ShortFile {
    fn write(&mut self, buf: &[u8]) -> io::Result<usize> {
        self.count()?;
        let most = buf.len().min(MOST);
        self.file.write(&buf[..most])
    }

    fn flush(&mut self) -> io::Result<()> {
        self.file.flush()
    }
}

impl Seek for ShortFile {
    fn seek(&mut self, to: SeekFrom) -> io::Result<u64> {
        self.file.seek(to)
    }
}

impl OpenFile for ShortFile {
    fn metadata(&self) -> io::Result<Metadata> {
        Err(failure())
    }

    fn set_len(&self, _size: u64) -> io::Result<()> {
        Err(failure())
    }

    fn sync_all(&self) -> io::Result<()> {
        Err(failure())
    }

    fn sync_data(&self) -> io::Result<()> {
        Err(failure())
    }
}

impl Files for Short {
    type File = ShortFile;

    type Dir = File;

    fn open_file(&self, how: &OpenOptions, path: &str) -> io::Result<ShortFile> {
        Ok(ShortFile {
            file: self.rt.open_file(how, path)?,
            left: self.left,
        })
    }

    fn open_dir(&self, _path: &str) -> io::Result<File> {
        Err(failure())
    }

    fn metadata(&self, _path: &str) -> io::Result<Metadata> {
        Err(failure())
    }

    fn symlink_metadata(&self, _path: &str) -> io::Result<Metadata> {
        Err(failure())
    }

    fn copy(&self, _from: &str, _to: &str) -> io::Result<u64> {
        Err(failure())
    }

    fn rename(&self, _from: &str, _to: &str) -> io::Result<()> {
        Err(failure())
    }

    fn remove_file(&self, _path: &str) -> io::Result<()> {
        Err(failure())
    }

    fn create_dir(&self, _path: &str) -> io::Result<()> {
        Err(failure())
    }

    fn remove_dir(&self, _path: &str) -> io::Result<()> {
        Err(failure())
    }

    fn remove_dir_all<B: Allocator>(&self, _alloc: B, _path: &str) -> io::Result<()> {
        Err(failure())
    }
}
