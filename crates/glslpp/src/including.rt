//! The files that sources include.

ghost use Rattle.std.specs.Prelude.{◌≡◌, IfOk, length};

use bumpalo::Bump;
use glslpp_parts::changes::Definition;
use glslpp_parts::failure::Failure;
use glslpp_parts::include_line::Header;
use glslpp_parts::include_path::{folders_for, not_found};
use glslpp_parts::line_names::{line_marks, without_names};
use glslpp_parts::report::COMMAND_LINE;
use glslpp_parts::rule_set::RuleSet;
use glslpp_parts::source::Source;
use glslpp_parts::texts::File;
use pp_rs::SOURCE_LIMIT;
use std::alloc::{AllocError, Global};
use std::fs::{self, Metadata};
use std::io::{self, ErrorKind};
use std::os::unix::fs::MetadataExt;
use std::path::Path;

/// What tells a file from others.
#[derive(Clone, Copy, PartialEq, Eq)]
pub(crate) struct Identity {
    device: u64,
    inode: u64,
}

/// Returns what tells a file from others, if it is there.
pub(crate) fn identity_of(rt: &HostRuntime, path: &str) -> Option<Identity> {
    match fs::metadata(rt, path) {
        Ok(found) => Some(Identity::of(&found)),
        Err(_) => None,
    }
}

impl Identity {
    fn of(found: &Metadata) -> Identity {
        Identity {
            device: found.dev(),
            inode: found.ino(),
        }
    }
}

// A file that was read.
#[derive(Clone, Copy)]
struct Kept<'x> {
    file: File<'x>,
    identity: Option<Identity>,
    // Whether it isn't read again.
    is_once: bool,
}

/// What an `#include` gets.
#[derive(Drop)]
pub(crate) enum Answer<'x> {
    /// The text of a file.
    Text(File<'x>),
    /// Nothing, since the file has a `#pragma once`.
    Nothing,
    /// Why there is none.
    Refused(String),
}

// What is found under a name.
#[derive(Drop)]
enum Look<'x> {
    Nothing,
    Folder,
    Answer(Answer<'x>),
}

/// The files that were read for one source, and where others are looked for. Their texts are kept in the arena, as the
/// preprocessor reads them where they are.
#[derive(Drop)]
pub(crate) struct Library<'x> {
    rt: &'x HostRuntime,
    arena: &'x Bump,
    folders: &'x [&'x str],
    // The lines of the command line that come before the source.
    before: Option<File<'x>>,
    // Each file once, by its number. The source is the first.
    kept: Vec<Kept<'x>>,
}

impl<'x> Library<'x> {
    /// A library in which files are looked for in these folders, and which has the source.
    pub(crate) fn new(
        rt: &'x HostRuntime,
        arena: &'x Bump,
        folders: &'x [&'x str],
        source: File<'x>,
        identity: Option<Identity>,
    ) -> Result<Library<'x>, AllocError> {
        let mut kept = Vec::new(rt.alloc());
        kept.push(Kept {
            file: source,
            identity,
            is_once: false,
        })?;
        Ok(Library {
            rt,
            arena,
            folders,
            before: None,
            kept,
        })
    }

    /// Keeps the lines of the command line that come before the source, if there are some.
    pub(crate) fn keep_before(&mut self, lines: &str) -> Result<(), AllocError> {
        if lines.is_empty() {
            return Ok(());
        }
        let text = self.arena.try_alloc_str(lines)?;
        self.before = Some(plain_file(text, COMMAND_LINE, &[]));
        Ok(())
    }

    /// The runtime that reads the files.
    pub(crate) fn runtime(&self) -> &'x HostRuntime {
        self.rt
    }

    /// Keeps a text in the arena.
    pub(crate) fn keep(&self, text: &str) -> Result<&'x str, AllocError> {
        self.arena.try_alloc_str(text)
    }

    /// Keeps definitions in the arena.
    pub(crate) fn keep_definitions(
        &self,
        definitions: &[Definition<'x>],
    ) -> Result<&'x [Definition<'x>], AllocError> {
        Ok(self.arena.try_alloc_slice_copy(definitions)?)
    }

    /// The lines that come before the source, if they aren't taken.
    pub(crate) fn before(&self) -> Option<File<'x>> {
        self.before
    }

    /// Forgets which files aren't read again.
    pub(crate) fn forget_once(&mut self) {
        for kept in self.kept.iter_mut() {
            kept.is_once = false;
        }
    }

    /// Gives the lines that come before the source, the first time.
    pub(crate) fn take_before(&mut self) -> Option<File<'x>> {
        self.before.take()
    }

    /// Appends the names of the files that were read, the source first, but for the standard input.
    pub(crate) fn push_names(&self, names: &mut Vec<String>) -> Result<(), AllocError> {
        for kept in self.kept.as_slice() {
            if kept.identity.is_some() {
                names.push(String::from_str(self.rt.alloc(), kept.file.name)?)?;
            }
        }
        Ok(())
    }

    /// Reads a file no more that has this number.
    pub(crate) fn read_once(&mut self, number: u32) {
        if let Some(kept) = self.kept.get_mut(number as usize) {
            kept.is_once = true;
        }
    }

    /// Looks for the file that an `#include` in a file of this name asks for.
    pub(crate) fn find(
        &mut self,
        header: Header<'_>,
        includer: &str,
    ) -> Result<Answer<'x>, Failure> {
        let folders = folders_for(self.rt.alloc(), header, includer, self.folders)?;
        let answer = self.find_in(folders.as_slice(), header);
        drop(folders);
        answer
    }

    // Looks for a file in these folders.
    fn find_in(&mut self, folders: &[&str], header: Header<'_>) -> Result<Answer<'x>, Failure> {
        let mut is_folder = false;
        for folder in folders {
            match self.look_in(folder, header.name)? {
                Look::Answer(answer) => return Ok(answer),
                Look::Folder => is_folder = true,
                Look::Nothing => {}
            }
        }
        let alloc = self.rt.alloc();
        Ok(Answer::Refused(if is_folder {
            format!(in alloc; "`{}` is a folder", header.name)?
        } else {
            not_found(alloc, header, folders)?
        }))
    }

    fn look_in(&mut self, folder: &str, name: &str) -> Result<Look<'x>, Failure> {
        let path = Path::new(folder).join(self.rt.alloc(), name)?;
        let look = self.look_at(path.as_str());
        drop(path);
        look
    }

    // Looks at what has a name. A folder is passed, and so is what isn't there; what can't be read is refused.
    fn look_at(&mut self, path: &str) -> Result<Look<'x>, Failure> {
        match fs::metadata(self.rt, path) {
            Ok(found) if found.is_dir() => Ok(Look::Folder),
            Ok(found) => Ok(Look::Answer(self.answer(path, &found)?)),
            Err(error) if is_absence(error.kind()) => Ok(Look::Nothing),
            Err(error) => Ok(Look::Answer(self.unread(path, error)?)),
        }
    }

    // What there is under a name that isn't a folder's.
    fn answer(&mut self, path: &str, found: &Metadata) -> Result<Answer<'x>, Failure> {
        if !found.is_file() {
            let message = format!(in self.rt.alloc(); "`{path}` isn't a regular file")?;
            return Ok(Answer::Refused(message));
        }
        let identity = Identity::of(found);
        match self.kept_with(identity) {
            Some(kept) if kept.is_once => Ok(Answer::Nothing),
            Some(kept) => Ok(Answer::Text(File {
                name: self.arena.try_alloc_str(path)?,
                ..kept.file
            })),
            None => self.read(path, identity),
        }
    }

    fn kept_with(&self, identity: Identity) -> Option<Kept<'x>> {
        for kept in self.kept.as_slice() {
            if kept.identity == Some(identity) {
                return Some(*kept);
            }
        }
        None
    }

    // Reads a file, and keeps it.
    fn read(&mut self, path: &str, identity: Identity) -> Result<Answer<'x>, Failure> {
        match fs::read(self.rt, path) {
            Ok(bytes) => {
                let source = Source::from_bytes(self.rt.alloc(), bytes)?;
                let answer = self.keep_source(path, identity, &source);
                drop(source);
                Ok(answer?)
            }
            Err(error) => Ok(self.unread(path, error)?),
        }
    }

    // Why a file isn't read.
    fn unread(&self, path: &str, error: io::Error) -> Result<Answer<'x>, AllocError> {
        let message = format!(in self.rt.alloc(); "`{path}` can't be read: {error}")?;
        Ok(Answer::Refused(message))
    }

    // Keeps a file that was read, unless it is too long.
    fn keep_source(
        &mut self,
        path: &str,
        identity: Identity,
        source: &Source,
    ) -> Result<Answer<'x>, AllocError> {
        let alloc = self.rt.alloc();
        if source.text().len() >= SOURCE_LIMIT {
            let message = format!(in alloc; "`{path}` is too long")?;
            return Ok(Answer::Refused(message));
        }
        let number = u32::try_from(self.kept.len()).unwrap_or(u32::MAX);
        let text = self.arena.try_alloc_str(source.text())?;
        let name = self.arena.try_alloc_str(path)?;
        let replaced = self.arena.try_alloc_slice_copy(source.replaced.as_slice())?;
        let file = file_of(alloc, self.arena, text, name, replaced, number)?;
        self.kept.push(Kept {
            file,
            identity: Some(identity),
            is_once: false,
        })?;
        Ok(Answer::Text(file))
    }
}

/// Returns the file of this text, whose `#line` lines have no names.
pub(crate) fn plain_file<'x>(text: &'x str, name: &'x str, replaced: &'x [usize]) -> File<'x>
    ensures text { result.text.now ≡ text.now }
    ensures read { result.read.now ≡ text.now }
{
    File {
        text,
        read: text,
        marks: &[],
        name,
        replaced,
        number: 0,
    }
}

/// Returns the file of this text. What is made of the text is kept in the arena.
pub(crate) fn file_of<'x>(
    alloc: Global,
    arena: &'x Bump,
    text: &'x str,
    name: &'x str,
    replaced: &'x [usize],
    number: u32,
) -> Result<File<'x>, AllocError>
    ensures text { IfOk result (λ file. file.text.now ≡ text.now) }
    ensures read { IfOk result (λ file. length file.read.now ≡ length text.now) }
{
    let read = read_text(alloc, arena, text)?;
    let marks = line_marks(alloc, text)?;
    let marks = arena.try_alloc_slice_copy(marks.as_slice())?;
    Ok(File {
        text,
        read,
        marks,
        name,
        replaced,
        number,
    })
}

// The text as the preprocessor reads it.
fn read_text<'x>(alloc: Global, arena: &'x Bump, text: &'x str) -> Result<&'x str, AllocError>
    ensures { IfOk result (λ read. length read.now ≡ length text.now) }
{
    match without_names(alloc, text)? {
        Some(blanked) if blanked.len() == text.len() => arena.try_alloc_str(blanked.as_str()),
        Some(_) | None => Ok(text),
    }
}

/// Returns the file of the text of a source that is read by these rules. pp-rs's have no names in `#line` lines.
pub(crate) fn source_of<'x>(
    alloc: Global,
    arena: &'x Bump,
    rule_set: RuleSet,
    text: &'x str,
    name: &'x str,
    replaced: &'x [usize],
) -> Result<File<'x>, AllocError>
    ensures text { IfOk result (λ file. file.text.now ≡ text.now) }
    ensures read { IfOk result (λ file. length file.read.now ≡ length text.now) }
{
    match rule_set {
        RuleSet::Glsl => file_of(alloc, arena, text, name, replaced, 0),
        RuleSet::PpRs => Ok(plain_file(text, name, replaced)),
    }
}

// Whether an error says that a file isn't there.
fn is_absence(kind: ErrorKind) -> bool {
    matches!(kind, ErrorKind::NotFound | ErrorKind::NotADirectory)
}
