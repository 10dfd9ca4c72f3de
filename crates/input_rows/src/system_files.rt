//! Files of the operating system, which are read, written, and read again.

ghost use Rattle.std.specs.Prelude.{◌<◌, ◌≤◌, IfOk, length};

use edge_io::{Failed, Files, OsFiles, OsSink, ReadError, read_whole, write_all};
use std::alloc::{AllocError, Global};
use std::path::PathBuf;
use std::process::Abort;
use std::test::Fail;
use std::{env, fs, process, rt};

/// Whether a source answers so if the file of this name is read up to the limit.
pub fn reads(
    alloc: Global,
    files: &mut impl Files,
    name: &[u8],
    limit: u16,
    want: Result<&[u8], ReadError>,
) -> bool {
    match read_whole(alloc, files, name, usize::from(limit)) {
        Ok(bytes) => want == Ok(bytes.as_slice()),
        Err(error) => want == Err(error),
    }
}

/// Names of files, and the answer if each is read up to 5,000 bytes.
const SYSTEM_FILES: &[(&[u8], Result<&[u8], ReadError>)] = &[
    (b"/dev/null", Ok(b"")),
    (b"/dev/zero", Err(ReadError::TooLong)),
    // names that are not there, a folder, and a name that is no text
    (b"/dev/null ", Err(ReadError::Fault)),
    (b"/dev/no such file", Err(ReadError::Fault)),
    (b"", Err(ReadError::Fault)),
    (b"/", Err(ReadError::Fault)),
    // no file of this name is in the folder of the tests, and the standard input is none
    (b"-", Err(ReadError::Fault)),
    (b"\xff", Err(ReadError::Fault)),
];

#[test]
fn files_of_the_system_are_read(rt: HostRuntime) {
    let mut files = OsFiles::new(&rt);
    for (number, (name, want)) in SYSTEM_FILES.iter().enumerate() {
        assert!(rt;
            reads(rt.alloc(), &mut files, name, 5000, *want),
            "case {number}"
        );
    }
}

/// Whether the file is read, and is empty, whose name is that of `/dev/null` with so many steps within a folder: each has two bytes.
fn is_empty_by(rt: &HostRuntime, steps: usize) -> Result<bool, AllocError> {
    let mut name = String::from_str(rt.alloc(), "/dev/")?;
    name.push_str("./".repeat(rt.alloc(), steps)?.as_str())?;
    name.push_str("null")?;
    Ok(reads(
        rt.alloc(),
        &mut OsFiles::new(rt),
        name.as_bytes(),
        9,
        Ok(b""),
    ))
}

/// Names of 9, 255, 257 and 4,009 bytes. The system opens names of up to 4,095 bytes.
const STEPS: &[usize] = &[0, 123, 124, 2000];

#[test]
fn files_with_long_names_are_read(rt: HostRuntime) {
    for steps in STEPS {
        assert!(rt; is_empty_by(&rt, *steps) == Ok(true), "{steps} steps");
    }
}

/// The path of a file for the test of this name alone.
fn path_of_a_file(rt: &HostRuntime, test: &str) -> Result<PathBuf, Fail> {
    let name = format!(in rt.alloc(); "input_rows_{test}_{}", process::id(rt.process()))?;
    Ok(env::temp_dir(rt)?.join(rt.alloc(), name.as_str())?)
}

/// Writes these bytes to the file.
fn write(rt: &(impl Abort + rt::Files), path: &str, bytes: &[u8]) {
    let file = fs::create(rt, path).expect(rt, "the file is not created");
    write_all(&mut OsSink::new(file), bytes).expect(rt, "the file is not written");
}

/// Removes the file.
fn remove(rt: &(impl Abort + rt::Files), path: &str) {
    fs::remove_file(rt, path).expect(rt, "the file is not removed");
}

/// Contents of files: none, a few bytes, a newline at the end of a read of 4,096 bytes and of the file, and 10,000 bytes.
const CONTENTS: &[&[u8]] = &[
    b"",
    b"abc",
    b"abc\n",
    b"\n\n",
    &[b'\n'; 4096],
    &[b'\n'; 10_000],
    &[7; 8192],
    &[7; 10_000],
];

#[test]
fn written_files_are_read_again(rt: HostRuntime) -> Result<(), Fail> {
    let path = path_of_a_file(&rt, "whole")?;
    for bytes in CONTENTS {
        write(&rt, path.as_str(), bytes);
        let mut files = OsFiles::new(&rt);
        let same = reads(
            rt.alloc(),
            &mut files,
            path.as_str().as_bytes(),
            10_000,
            Ok(bytes),
        );
        remove(&rt, path.as_str());
        assert!(rt; same, "{} bytes", bytes.len());
    }
    Ok(())
}

/// So many bytes, of which none equals the next one.
fn changing_bytes(alloc: Global, count: u32) -> Result<Vec<u8>, AllocError> {
    let mut bytes = Vec::new(alloc);
    for number in 0..count {
        bytes.push((number % 251) as u8)?;
    }
    Ok(bytes)
}

/// Starts the file, reads into `buf` once, and answers how many bytes that gave.
fn read_once(rt: &HostRuntime, path: &str, buf: &mut [u8]) -> Result<usize, Failed>
    requires { 0 < length buf.old }
    ensures { IfOk result (λ count. count ≤ length buf.new) }
{
    let mut files = OsFiles::new(rt);
    files.start(path.as_bytes())?;
    files.read(buf)
}

/// One read with room for all bytes of a file gives some from its front.
#[test]
fn large_pieces_are_written_and_read(rt: HostRuntime) -> Result<(), Fail> {
    let path = path_of_a_file(&rt, "large")?;
    let bytes = changing_bytes(rt.alloc(), 70_000)?;
    write(&rt, path.as_str(), bytes.as_slice());
    let mut buf = [0; 70_000];
    let read = read_once(&rt, path.as_str(), &mut buf);
    remove(&rt, path.as_str());
    match read {
        Ok(count) => assert!(rt; count > 0 && bytes.as_slice().starts_with(&buf[..count])),
        Err(Failed) => panic!(rt; "the read failed"),
    }
    Ok(())
}
