//! A file that lines are appended to, which may be moved meanwhile.

use std::fs::{File, Metadata, OpenOptions, metadata};
use std::io::{self, ErrorKind, Read, Seek, SeekFrom, Write};
use std::os::unix::fs::MetadataExt;

/// A file by its name, which lines are appended to. Where the name leads elsewhere, since the file was moved or removed, it is opened anew
/// before the next line; while that can't be done, the lines go where they went before.
#[derive(Drop)]
pub(crate) struct RotatedFile {
    rt: HostRuntime,
    path: String,
    opened: OpenedFile,
}

/// A file that is open, and by what it is known.
#[derive(Drop)]
struct OpenedFile {
    file: File,
    device: u64,
    inode: u64,
}

impl RotatedFile {
    /// The file at a path, which is made if it isn't there. `None`: it can't be opened.
    pub fn open(rt: &HostRuntime, path: String) -> Option<RotatedFile> {
        let opened = OpenedFile::at(rt, path.as_str())?;
        Some(RotatedFile {
            rt: *rt,
            path,
            opened,
        })
    }

    /// Opens the file anew, if its name leads elsewhere.
    fn follow(&mut self) {
        if let Ok(there) = metadata(&self.rt, self.path.as_str()) {
            if self.opened.is(&there) {
                return;
            }
        }
        if let Some(opened) = OpenedFile::at(&self.rt, self.path.as_str()) {
            self.opened = opened;
        }
    }
}

impl OpenedFile {
    /// The file at a path, which is made if it isn't there. Where its last line has no end, since it was cut in a kill, it gets one.
    fn at(rt: &HostRuntime, path: &str) -> Option<OpenedFile> {
        let file = OpenOptions::new()
            .append(true)
            .create(true)
            .open(rt, path)
            .ok()?;
        let found = file.metadata().ok()?;
        let mut opened = OpenedFile {
            device: found.dev(),
            inode: found.ino(),
            file,
        };
        if found.len() > 0 && !ends_in_newline(rt, path) {
            let _ = opened.append(b"\n");
        }
        Some(opened)
    }

    /// Whether it is this one.
    fn is(&self, there: &Metadata) -> bool {
        self.device == there.dev() && self.inode == there.ino()
    }

    /// Appends all of the bytes, by one write unless the device takes a part of them. Where it fails, what it took of them is cut off.
    fn append(&mut self, bytes: &[u8]) -> io::Result<()> {
        let mut rest = bytes;
        while !rest.is_empty() {
            match self.file.write(rest) {
                Ok(0) => {
                    self.cut(bytes.len().saturating_sub(rest.len()));
                    return Err(io::Error::from(ErrorKind::WriteZero));
                }
                Ok(count) => rest = &rest[count..],
                Err(error) => {
                    self.cut(bytes.len().saturating_sub(rest.len()));
                    return Err(error);
                }
            }
        }
        Ok(())
    }

    /// Takes so many bytes off its end.
    fn cut(&self, count: usize) {
        if count == 0 {
            return;
        }
        if let Ok(found) = self.file.metadata() {
            let _ = self.file.set_len(found.len().saturating_sub(count as u64));
        }
    }
}

/// Whether the last byte of the file at a path is a newline, or can't be read.
fn ends_in_newline(rt: &HostRuntime, path: &str) -> bool {
    let Ok(file) = File::open(rt, path) else {
        return true;
    };
    let mut file = file;
    let mut last = [b'\n'];
    if file.seek(SeekFrom::End(-1)).is_ok() {
        let _ = file.read(&mut last);
    }
    last[0] == b'\n'
}

impl Write for RotatedFile {
    /// Appends all of the bytes, or none.
    fn write(&mut self, bytes: &[u8]) -> io::Result<usize> {
        self.follow();
        self.opened.append(bytes)?;
        Ok(bytes.len())
    }

    fn flush(&mut self) -> io::Result<()> {
        Ok(())
    }
}
