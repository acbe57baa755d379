// What the adapters to files and streams do where a call of the system fails: it is not made again. Each call
// that fails here would go well the second time, and the run would end otherwise.
use crate::bytes::{Refused, words_in};
use bench_io::{MemoryInputs, MemorySink};
use ptu_cli::{FileInputs, StreamSink, ptu_main};
use std::alloc::{Allocator, Global};
use std::cell::Cell;
use std::fs::{Files, Metadata, OpenFile, OpenOptions};
use std::io;
use std::io::{ErrorKind, Read, Seek, SeekFrom, Write};

fn unsupported<T>() -> io::Result<T> {
    Err(io::Error::from(ErrorKind::Unsupported))
}

/// The error after which a call is usually made again.
fn interrupted<T>() -> io::Result<T> {
    Err(io::Error::from(ErrorKind::Interrupted))
}

/// An empty file, of which the first read may fail.
#[derive(Drop)]
struct Empty {
    fails: bool,
}

impl Read for Empty {
    fn read(&mut self, _into: &mut [u8]) -> io::Result<usize> {
        if self.fails {
            self.fails = false;
            return Err(io::Error::from(ErrorKind::Interrupted));
        }
        Ok(0)
    }
}

impl Write for Empty {
    fn write(&mut self, _piece: &[u8]) -> io::Result<usize> {
        Err(io::Error::from(ErrorKind::Unsupported))
    }

    fn flush(&mut self) -> io::Result<()> {
        unsupported()
    }
}

impl Seek for Empty {
    fn seek(&mut self, _to: SeekFrom) -> io::Result<u64> {
        unsupported()
    }
}

impl OpenFile for Empty {
    fn metadata(&self) -> io::Result<Metadata> {
        unsupported()
    }

    fn set_len(&self, _size: u64) -> io::Result<()> {
        unsupported()
    }

    fn sync_all(&self) -> io::Result<()> {
        unsupported()
    }

    fn sync_data(&self) -> io::Result<()> {
        unsupported()
    }
}

/// A file system in which every name is an empty file, of which the first opening may fail, or the first read
/// of each file.
#[derive(Drop)]
struct Folder {
    opening_fails: Cell<bool>,
    reads_fail: bool,
}

impl Files for Folder {
    type File = Empty;

    type Dir = Empty;

    fn open_file(&self, _how: &OpenOptions, _path: &str) -> io::Result<Empty> {
        if self.opening_fails.replace(false) {
            return interrupted();
        }
        Ok(Empty {
            fails: self.reads_fail,
        })
    }

    fn open_dir(&self, _path: &str) -> io::Result<Empty> {
        unsupported()
    }

    fn metadata(&self, _path: &str) -> io::Result<Metadata> {
        unsupported()
    }

    fn symlink_metadata(&self, _path: &str) -> io::Result<Metadata> {
        unsupported()
    }

    fn copy(&self, _from: &str, _to: &str) -> io::Result<u64> {
        unsupported()
    }

    fn rename(&self, _from: &str, _to: &str) -> io::Result<()> {
        unsupported()
    }

    fn remove_file(&self, _path: &str) -> io::Result<()> {
        unsupported()
    }

    fn create_dir(&self, _path: &str) -> io::Result<()> {
        unsupported()
    }

    fn remove_dir(&self, _path: &str) -> io::Result<()> {
        unsupported()
    }

    fn remove_dir_all<B: Allocator>(&self, _alloc: B, _path: &str) -> io::Result<()> {
        unsupported()
    }
}

/// Whether `count` of a file of this folder leaves a status and a line.
fn leaves(alloc: Global, folder: &Folder, status: u8, line: &[u8]) -> Result<bool, Refused> {
    let words = words_in(alloc, "count f")?;
    let mut inputs = FileInputs::new(folder);
    let mut out = MemorySink::new(alloc, 256, Vec::new(alloc))?;
    let mut err = MemorySink::new(alloc, 96, Vec::new(alloc))?;
    let left = ptu_main(alloc, words.as_slice(), &mut inputs, &mut out, &mut err);
    Ok(left == status && out.bytes().is_empty() && err.bytes() == line)
}

/// What the first opening and the first read do, and what a run leaves then.
const ONCE_READ: [(bool, bool, u8, &[u8]); 4] = [
    (false, false, 11, b"ptu: header cut after 0 bytes\n"),
    (true, false, 2, b"ptu: cannot open the data\n"),
    (true, true, 2, b"ptu: cannot open the data\n"),
    (false, true, 3, b"ptu: cannot read the data\n"),
];

/// Whether an opening and a read that failed are not tried again.
pub(crate) fn reads_once(alloc: Global) -> Result<bool, Refused> {
    for (opening_fails, reads_fail, status, line) in ONCE_READ {
        let folder = Folder {
            opening_fails: Cell::new(opening_fails),
            reads_fail,
        };
        if !leaves(alloc, &folder, status, line)? {
            return Ok(false);
        }
    }
    Ok(true)
}

/// What a stream does once, before it takes each piece whole, or one byte of each.
#[derive(Clone, Copy)]
enum Once {
    Takes,
    TakesOne,
    TakesOneEach,
    TakesNone,
    FailsToWrite,
    FailsToFlush,
}

#[derive(Drop)]
struct Stream {
    once: Once,
}

impl Write for Stream {
    fn write(&mut self, piece: &[u8]) -> io::Result<usize> {
        let once = self.once;
        match once {
            Once::Takes | Once::FailsToFlush => Ok(piece.len()),
            Once::TakesOne => {
                self.once = Once::Takes;
                Ok(piece.len().min(1))
            }
            Once::TakesOneEach => Ok(piece.len().min(1)),
            Once::TakesNone => {
                self.once = Once::Takes;
                Ok(0)
            }
            Once::FailsToWrite => {
                self.once = Once::Takes;
                Err(io::Error::from(ErrorKind::Interrupted))
            }
        }
    }

    fn flush(&mut self) -> io::Result<()> {
        if let Once::FailsToFlush = self.once {
            self.once = Once::Takes;
            return interrupted();
        }
        Ok(())
    }
}

/// Whether a small report to a stream ends with this status, and with a line on standard error but where it is 0.
fn prints(alloc: Global, once: Once, status: u8) -> Result<bool, Refused> {
    let words = words_in(alloc, "demo 0 0")?;
    let mut inputs = MemoryInputs::new(Vec::new(alloc), Vec::new(alloc), Vec::new(alloc));
    let mut out = StreamSink::new(Stream { once });
    let mut err = MemorySink::new(alloc, 96, Vec::new(alloc))?;
    let left = ptu_main(alloc, words.as_slice(), &mut inputs, &mut out, &mut err);
    let line = match status {
        0 => b"".as_slice(),
        _ => b"ptu: cannot write\n",
    };
    Ok(left == status && err.bytes() == line)
}

const ONCE_WRITTEN: [(Once, u8); 6] = [
    (Once::Takes, 0),
    (Once::TakesOne, 0),
    (Once::TakesOneEach, 0),
    (Once::TakesNone, 4),
    (Once::FailsToWrite, 4),
    (Once::FailsToFlush, 4),
];

/// Whether a write and its flush that failed are not tried again.
pub(crate) fn writes_once(alloc: Global) -> Result<bool, Refused> {
    for (once, status) in ONCE_WRITTEN {
        if !prints(alloc, once, status)? {
            return Ok(false);
        }
    }
    Ok(true)
}
