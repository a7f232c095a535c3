//! A runtime for tests, whose files and output move one byte at a time, as a slow pipe does.
use std::alloc::Allocator;
use std::cell::RefCell;
use std::fmt::Display;
use std::fs::{Metadata, OpenFile, OpenOptions};
use std::io::{self, Error, ErrorKind, Read, Seek, SeekFrom, Write};
use std::rt::Files;

fn unsupported_error() -> Error {
    Error::from(ErrorKind::Unsupported)
}

/// Files whose names say how many bytes they give.
#[derive(Clone, Copy)]
pub struct SlowFiles;

/// A file that gives so many bytes more, and takes as many as come.
#[derive(Drop)]
pub struct SlowFile {
    left: u32,
}

impl Read for SlowFile {
    fn read(&mut self, buf: &mut [u8]) -> io::Result<usize> {
        if self.left == 0 || buf.is_empty() {
            return Ok(0);
        }
        self.left -= 1;
        buf[0] = b'x';
        Ok(1)
    }
}

impl Write for SlowFile {
    fn write(&mut self, buf: &[u8]) -> io::Result<usize> {
        Ok(buf.len().min(1))
    }

    fn flush(&mut self) -> io::Result<()> {
        Ok(())
    }
}

impl Seek for SlowFile {
    fn seek(&mut self, _to: SeekFrom) -> io::Result<u64> {
        Err(unsupported_error())
    }
}

impl OpenFile for SlowFile {
    fn metadata(&self) -> io::Result<Metadata> {
        Err(unsupported_error())
    }

    fn set_len(&self, _size: u64) -> io::Result<()> {
        Err(unsupported_error())
    }

    fn sync_all(&self) -> io::Result<()> {
        Err(unsupported_error())
    }

    fn sync_data(&self) -> io::Result<()> {
        Err(unsupported_error())
    }
}

impl Files for SlowFiles {
    type File = SlowFile;

    type Dir = SlowFile;

    fn open_file(&self, _how: &OpenOptions, path: &str) -> io::Result<SlowFile> {
        match path.parse::<u32>() {
            Ok(left) => Ok(SlowFile { left }),
            Err(_) => Err(Error::from(ErrorKind::NotFound)),
        }
    }

    fn open_dir(&self, _path: &str) -> io::Result<SlowFile> {
        Err(unsupported_error())
    }

    fn metadata(&self, _path: &str) -> io::Result<Metadata> {
        Err(unsupported_error())
    }

    fn symlink_metadata(&self, _path: &str) -> io::Result<Metadata> {
        Err(unsupported_error())
    }

    fn copy(&self, _from: &str, _to: &str) -> io::Result<u64> {
        Err(unsupported_error())
    }

    fn rename(&self, _from: &str, _to: &str) -> io::Result<()> {
        Err(unsupported_error())
    }

    fn remove_file(&self, _path: &str) -> io::Result<()> {
        Err(unsupported_error())
    }

    fn create_dir(&self, _path: &str) -> io::Result<()> {
        Err(unsupported_error())
    }

    fn remove_dir(&self, _path: &str) -> io::Result<()> {
        Err(unsupported_error())
    }

    fn remove_dir_all<B: Allocator>(&self, _alloc: B, _path: &str) -> io::Result<()> {
        Err(unsupported_error())
    }
}

/// An output that keeps what it took.
#[derive(Clone, Copy)]
pub struct SlowOutput<'a>(pub &'a RefCell<Vec<u8>>);

impl Print for SlowOutput<'_> {
    fn print<D: Display + Drop>(&self, _value: D) -> io::Result<()> {
        Err(unsupported_error())
    }

    fn println<D: Display + Drop>(&self, _value: D) -> io::Result<()> {
        Err(unsupported_error())
    }

    fn write_all(&self, _bytes: &[u8]) -> io::Result<()> {
        Err(unsupported_error())
    }

    fn write_some(&self, bytes: &[u8]) -> io::Result<usize> {
        let Some(first) = bytes.first() else {
            return Ok(0);
        };
        match self.0.try_borrow_mut() {
            Ok(mut taken) => {
                taken.push(*first)?;
                Ok(1)
            }
            Err(_) => Err(unsupported_error()),
        }
    }
}
