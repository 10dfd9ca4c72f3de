//! Files of a system whose reads are listed.

ghost use Rattle.std.specs.Prelude.{IsErr};

use crate::system_files::reads;
use edge_io::{OsFiles, ReadError};
use std::alloc::{Allocator, Global};
use std::fs::{Metadata, OpenFile, OpenOptions};
use std::io::{self, ErrorKind, Read, Seek, SeekFrom, Write};
use std::rt;

/// What a read answers.
#[derive(Clone, Copy)]
enum Answer {
    /// It fails for this reason.
    Fails(ErrorKind),
    /// It gives these bytes, or none: the end.
    Gives(&'static [u8]),
}

/// A system with one file, whatever its name. Its reads are answered so, one after the other, and all behind them by an end.
#[derive(Drop)]
struct Listed(&'static [Answer]);

/// The file, and what its next reads answer.
#[derive(Drop)]
struct ListedFile(&'static [Answer]);

/// What this system does not do.
fn unsupported<T>() -> io::Result<T>
    ensures { IsErr result }
{
    Err(io::Error::from(ErrorKind::Unsupported))
}

impl Read for ListedFile {
    fn read(&mut self, buf: &mut [u8]) -> io::Result<usize> {
        let Some((answer, rest)) = self.0.split_first() else {
            return Ok(0);
        };
        self.0 = rest;
        match *answer {
            Answer::Fails(why) => Err(io::Error::from(why)),
            Answer::Gives(bytes) => {
                let count = bytes.len().min(buf.len());
                buf[..count].copy_from_slice(&bytes[..count]);
                Ok(count)
            }
        }
    }
}

impl Write for ListedFile {
    fn write(&mut self, _buf: &[u8]) -> io::Result<usize> {
        unsupported()
    }

    fn flush(&mut self) -> io::Result<()> {
        unsupported()
    }
}

impl Seek for ListedFile {
    fn seek(&mut self, _to: SeekFrom) -> io::Result<u64> {
        unsupported()
    }
}

impl OpenFile for ListedFile {
    fn metadata(&self) -> io::Result<Metadata> {
        unsupported()
    }

    fn set_len(&self, _size: u64) -> io::Result<()> {
        unsupported()
    }

    fn sync_all(&self) -> io::Result<()> {
        unsupported()
    }

    fn sync_data(&self) -> io::Result<()> {
        unsupported()
    }
}

impl rt::Files for Listed {
    type File = ListedFile;

    type Dir = ListedFile;

    fn open_file(&self, _how: &OpenOptions, _path: &str) -> io::Result<ListedFile> {
        Ok(ListedFile(self.0))
    }

    fn open_dir(&self, _path: &str) -> io::Result<ListedFile> {
        unsupported()
    }

    fn metadata(&self, _path: &str) -> io::Result<Metadata> {
        unsupported()
    }

    fn symlink_metadata(&self, _path: &str) -> io::Result<Metadata> {
        unsupported()
    }

    fn copy(&self, _from: &str, _to: &str) -> io::Result<u64> {
        unsupported()
    }

    fn rename(&self, _from: &str, _to: &str) -> io::Result<()> {
        unsupported()
    }

    fn remove_file(&self, _path: &str) -> io::Result<()> {
        unsupported()
    }

    fn create_dir(&self, _path: &str) -> io::Result<()> {
        unsupported()
    }

    fn remove_dir(&self, _path: &str) -> io::Result<()> {
        unsupported()
    }

    fn remove_dir_all<B: Allocator>(&self, _alloc: B, _path: &str) -> io::Result<()> {
        unsupported()
    }
}

/// What the reads of the file answer, and what it is when it is read whole.
type Row = (&'static [Answer], Result<&'static [u8], ReadError>);

/// A read that was broken off, and one that failed otherwise.
const BROKEN_OFF: Answer = Answer::Fails(ErrorKind::Interrupted);

const FAILED: Answer = Answer::Fails(ErrorKind::Other);

/// The file ends at the first read that gives nothing, and is not read behind a read that fails.
const ROWS: &[Row] = &[
    (&[], Ok(b"")),
    (&[Answer::Gives(b"a"), Answer::Gives(b"bc")], Ok(b"abc")),
    (&[Answer::Gives(b""), Answer::Gives(b"abc")], Ok(b"")),
    (
        &[
            Answer::Gives(b"abc"),
            Answer::Gives(b""),
            Answer::Gives(b"d"),
        ],
        Ok(b"abc"),
    ),
    (&[FAILED, Answer::Gives(b"abc")], Err(ReadError::Fault)),
    (&[BROKEN_OFF, Answer::Gives(b"abc")], Err(ReadError::Fault)),
    (
        &[Answer::Gives(b"abc"), FAILED, Answer::Gives(b"d")],
        Err(ReadError::Fault),
    ),
    (
        &[Answer::Gives(b"abc"), BROKEN_OFF, Answer::Gives(b"")],
        Err(ReadError::Fault),
    ),
];

/// Whether the file of this system is read whole so.
fn is_read<R: rt::Files>(alloc: Global, system: &R, want: Result<&[u8], ReadError>) -> bool {
    reads(alloc, &mut OsFiles::new(system), b"a", 9, want)
}

#[test]
fn files_are_read_to_their_first_end_or_failure(rt: HostRuntime) {
    for (number, (answers, want)) in ROWS.iter().enumerate() {
        let system = Listed(answers);
        assert!(rt; is_read(rt.alloc(), &system, *want), "row {number}");
    }
}
