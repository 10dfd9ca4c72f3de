//! What stands at the name of a file.

use std::fs::{FileType, metadata};
use std::io::ErrorKind;
use std::os::unix::fs::FileTypeExt;
use std::rt::Files;

/// What stands at a name.
#[derive(Clone, Copy)]
pub enum PathKind {
    /// Nothing.
    Missing,
    /// The system does not let it be looked at.
    Forbidden,
    /// A folder.
    Folder,
    /// A pipe or a socket, whose bytes come once.
    Pipe,
    /// A device, as a terminal is.
    Device,
    /// A file.
    File,
    /// What the system does not tell.
    Untold,
}

/// A source that tells what stands at a name.
pub trait Paths {
    /// What stands there. A link is what it leads to.
    fn kind(&self, name: &[u8]) -> PathKind;
}

/// What the operating system says.
#[derive(Drop)]
pub struct OsPaths<'a, R: Files> {
    rt: &'a R,
}

impl<'a, R: Files> OsPaths<'a, R> {
    /// What the runtime reaches.
    pub fn new(rt: &'a R) -> OsPaths<'a, R> {
        OsPaths { rt }
    }
}

/// What a thing of this type is.
fn kind_of(found: FileType) -> PathKind {
    if found.is_dir() {
        return PathKind::Folder;
    }
    if found.is_fifo() || found.is_socket() {
        return PathKind::Pipe;
    }
    if found.is_char_device() || found.is_block_device() {
        return PathKind::Device;
    }
    PathKind::File
}

impl<R: Files> Paths for OsPaths<'_, R> {
    fn kind(&self, name: &[u8]) -> PathKind {
        let Ok(path) = str::from_utf8(name) else {
            return PathKind::Untold;
        };
        match metadata(self.rt, path) {
            Ok(found) => kind_of(found.file_type()),
            Err(error) => match error.kind() {
                ErrorKind::NotFound => PathKind::Missing,
                ErrorKind::PermissionDenied => PathKind::Forbidden,
                _ => PathKind::Untold,
            },
        }
    }
}
