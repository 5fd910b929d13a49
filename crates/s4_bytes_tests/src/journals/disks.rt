//! Files on disks that are full, or on which no sync works.

use std::fs::{File, Metadata, OpenFile, OpenOptions};
use std::io::{Error, ErrorKind, Write};
use std::{fs, io};

/// A file on a disk that has room for so many more bytes, and may be broken so that no sync works.
#[derive(Drop)]
pub struct Narrow {
    file: File,
    pub room: usize,
    pub broken: bool,
}

impl Write for Narrow {
    fn write(&mut self, bytes: &[u8]) -> io::Result<usize> {
        let count = bytes.len().min(self.room);
        if count == 0 {
            return Err(Error::from(ErrorKind::StorageFull));
        }
        let written = self.file.write(&bytes[..count])?;
        self.room = self.room.saturating_sub(written);
        Ok(written)
    }

    fn flush(&mut self) -> io::Result<()> {
        self.file.flush()
    }
}

impl OpenFile for Narrow {
    fn metadata(&self) -> io::Result<Metadata> {
        self.file.metadata()
    }

    fn set_len(&self, size: u64) -> io::Result<()> {
        self.file.set_len(size)
    }

    fn sync_all(&self) -> io::Result<()> {
        self.file.sync_all()
    }

    fn sync_data(&self) -> io::Result<()> {
        if self.broken {
            return Err(Error::from(ErrorKind::Other));
        }
        self.file.sync_data()
    }
}

/// Room for all.
pub const AMPLE: usize = 1000;

/// An empty file with this path, on a disk with that room.
pub fn on_disk(files: &HostRuntime, path: &str, room: usize) -> io::Result<Narrow> {
    let _ = fs::remove_file(files, path);
    let file = OpenOptions::new()
        .append(true)
        .create_new(true)
        .open(files, path)?;
    Ok(Narrow {
        file,
        room,
        broken: false,
    })
}
