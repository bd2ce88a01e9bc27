//! Files: sources, and the output.

use glslpp_parts::arguments::STANDARD_INPUT;
use glslpp_parts::failure::{Failure, failure_of};
use std::alloc::Global;
use std::fs::{File, Metadata};
use std::io::{ErrorKind, Read, Write};
use std::os::unix::fs::MetadataExt;
use std::{fs, io};

/// Returns the failure for a command line that can't be read, which names the first word that isn't UTF-8.
pub(crate) fn unread_words(rt: &HostRuntime, error: io::Error) -> Failure {
    let line = match fs::read(rt, COMMAND_LINE) {
        Ok(line) => line,
        Err(_) => Vec::new(rt.alloc()),
    };
    let failure = match unread_word(line.as_slice()) {
        Some(word) => unread(rt.alloc(), word),
        None => failure_of(rt.alloc(), "the command line", error),
    };
    drop(line);
    failure
}

// The first word that isn't UTF-8.
fn unread_word(line: &[u8]) -> Option<&[u8]> {
    for word in line.split(|byte| *byte == 0) {
        if str::from_utf8(word).is_err() {
            return Some(word);
        }
    }
    None
}

fn unread(alloc: Global, word: &[u8]) -> Failure {
    match String::from_utf8_lossy(alloc, word) {
        Ok(name) => failure_of(alloc, name.as_str(), "the word isn't UTF-8"),
        Err(_) => Failure::OutOfMemory,
    }
}

// What Linux gives of the words of this process, each with a zero behind it.
const COMMAND_LINE: &str = "/proc/self/cmdline";

/// Reads a file, or the standard input.
pub(crate) fn read(rt: &HostRuntime, file: &str) -> io::Result<Vec<u8>> {
    if file != STANDARD_INPUT {
        return fs::read(rt, file);
    }
    let mut bytes = Vec::new(rt.alloc());
    rt.stdin().read_to_end(&mut bytes)?;
    Ok(bytes)
}

/// Returns whether two names are those of one file.
pub(crate) fn is_same(rt: &HostRuntime, first: &str, second: &str) -> bool {
    match (fs::metadata(rt, first), fs::metadata(rt, second)) {
        (Ok(first), Ok(second)) => first.dev() == second.dev() && first.ino() == second.ino(),
        _ => false,
    }
}

/// Returns whether a name is that of a folder.
pub(crate) fn is_folder(rt: &HostRuntime, name: &str) -> bool {
    match fs::metadata(rt, name) {
        Ok(found) => found.is_dir(),
        Err(_) => false,
    }
}

/// Prints the output. A reader that closes it early is no failure.
pub(crate) fn print(rt: &HostRuntime, output: &str) -> io::Result<()> {
    match rt.stdout().write_all(output.as_bytes()) {
        Err(error) if error.kind() == ErrorKind::BrokenPipe => Ok(()),
        end => end,
    }
}

/// Writes a file whole or not at all: into a temporary file beside it, which is then renamed. What isn't a regular
/// file, such as a device, is written as it is.
pub(crate) fn write(rt: &HostRuntime, file: &str, output: &str) -> io::Result<()> {
    let old = match fs::metadata(rt, file) {
        Ok(found) if !found.is_file() => return fs::write(rt, file, output),
        Ok(found) => Some(found),
        Err(_) => None,
    };
    let target = match &old {
        Some(_) => fs::canonicalize(rt, file)?.into_string(),
        None => String::from_str(rt.alloc(), file)?,
    };
    let end = replace(rt, target.as_str(), old, output);
    drop(target);
    end
}

// Writes a new file, which is then renamed to this.
fn replace(rt: &HostRuntime, target: &str, old: Option<Metadata>, output: &str) -> io::Result<()> {
    let (name, temporary) = create_beside(rt, target)?;
    let end = match fill(rt, temporary, old, output) {
        Ok(()) => fs::rename(rt, name.as_str(), target),
        Err(error) => Err(error),
    };
    if end.is_err() {
        let _ = fs::remove_file(rt, name.as_str());
    }
    drop(name);
    end
}

// How many names are tried for a temporary file.
const TRIES: u32 = 100;

// Makes a file that wasn't there, and returns its name.
fn create_beside(rt: &HostRuntime, target: &str) -> io::Result<(String, File)> {
    for number in 0..TRIES {
        let name = format!(in rt.alloc(); "{target}.new{number}")?;
        match File::create_new(rt, name.as_str()) {
            Err(error) if error.kind() == ErrorKind::AlreadyExists => {}
            Ok(file) => return Ok((name, file)),
            Err(error) => return Err(error),
        }
    }
    Err(io::Error::from(ErrorKind::AlreadyExists))
}

// Writes a file, which gets the permissions of the old one.
fn fill(rt: &HostRuntime, mut file: File, old: Option<Metadata>, output: &str) -> io::Result<()> {
    if let Some(old) = old {
        file.set_permissions(old.permissions())?;
    }
    file.write_all(output.as_bytes())?;
    file.sync_all()
}
