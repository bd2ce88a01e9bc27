//! The files of a page, and places in them.

use glslpp_html::source::Note;
use glslpp_parts::macro_history::DefinedAt;
use glslpp_parts::texts::{File, Texts};
use std::alloc::{AllocError, Global};

/// A file of a page.
#[derive(Drop)]
pub(crate) struct Sheet<'a> {
    /// The number of its text.
    pub(crate) number: u32,
    /// The file.
    pub(crate) file: File<'a>,
    /// The byte offsets at which its lines end, each behind its line end.
    pub(crate) ends: Vec<usize>,
    /// Whether it stands within another.
    pub(crate) is_inner: bool,
    /// The files that stand within it, in the order of the lines that include them.
    pub(crate) inner: Vec<Inner>,
}

/// A file that stands within another.
#[derive(Clone, Copy)]
pub(crate) struct Inner {
    /// Its index among the files of the page.
    pub(crate) index: usize,
    /// The index of the line of the other below which it stands.
    pub(crate) line: usize,
}

/// Lines of a file between which no other stands.
#[derive(Clone, Copy)]
pub(crate) struct Piece {
    /// The index of the first line.
    pub(crate) first: usize,
    /// The index behind that of the last line.
    pub(crate) last: usize,
    /// The byte offset at which it begins.
    pub(crate) start: usize,
    /// The byte offset at which it ends.
    pub(crate) end: usize,
}

impl<'a> Sheet<'a> {
    /// The whole file as one piece.
    pub(crate) fn whole(&self) -> Piece {
        Piece {
            first: 0,
            last: self.ends.len(),
            start: 0,
            end: self.file.text.len(),
        }
    }

    /// The text between two byte offsets.
    fn between(&self, start: u32, end: u32) -> &'a str {
        let text = self.file.text;
        text.get(start as usize..end as usize).unwrap_or("")
    }

    /// The pieces of the file, one more than files stand within it.
    pub(crate) fn pieces(&self, alloc: Global) -> Result<Vec<Piece>, AllocError> {
        let mut pieces = Vec::new(alloc);
        let (mut first, mut start) = (0usize, 0usize);
        for inner in self.inner.as_slice() {
            let last = inner.line.saturating_add(1);
            let end = match self.ends.get(inner.line) {
                Some(end) => *end,
                None => start,
            };
            pieces.push(Piece {
                first,
                last,
                start,
                end,
            })?;
            (first, start) = (last, end);
        }
        pieces.push(Piece {
            first,
            last: self.ends.len(),
            start,
            end: self.file.text.len(),
        })?;
        Ok(pieces)
    }
}

/// How many bytes files may have together of which anything is marked: a page has about ten times as many.
pub(crate) const MOST_MARKED: usize = 4_000_000;

/// The files of a page, in the order of their texts.
#[derive(Drop)]
pub(crate) struct Sheets<'a> {
    alloc: Global,
    /// The files.
    pub(crate) sheets: Vec<Sheet<'a>>,
    /// Whether anything is marked in them.
    pub(crate) are_marked: bool,
}

impl<'a> Sheets<'a> {
    /// The files of these texts.
    pub(crate) fn of(alloc: Global, texts: &Texts<'a>) -> Result<Sheets<'a>, AllocError> {
        let mut sheets = Sheets {
            alloc,
            sheets: Vec::new(alloc),
            are_marked: false,
        };
        sheets.take_files(texts)?;
        Ok(sheets)
    }

    fn take_files(&mut self, texts: &Texts<'a>) -> Result<(), AllocError> {
        let mut bytes = 0usize;
        for number in 0..texts.count() {
            if let Some(file) = texts.file(number) {
                bytes = bytes.saturating_add(file.text.len());
                self.push(number, file)?;
            }
        }
        self.are_marked = bytes <= MOST_MARKED;
        if self.are_marked {
            for index in 0..self.sheets.len() {
                self.place_within(texts, index)?;
            }
        }
        Ok(())
    }

    fn push(&mut self, number: u32, file: File<'a>) -> Result<(), AllocError> {
        let ends = line_ends(self.alloc, file.text)?;
        self.sheets.push(Sheet {
            number,
            file,
            ends,
            is_inner: false,
            inner: Vec::new(self.alloc),
        })?;
        Ok(())
    }

    // Notes within which file another stands, below which of its lines, if it was included by one.
    fn place_within(&mut self, texts: &Texts<'a>, index: usize) -> Result<(), AllocError> {
        let Some(sheet) = self.sheets.get(index) else {
            return Ok(());
        };
        let Some(inclusion) = texts.inclusion(sheet.number) else {
            return Ok(());
        };
        let line = self
            .line(inclusion.text, inclusion.location.end)
            .saturating_sub(1);
        let around = self.index_of(inclusion.text);
        if let Some(other) = self.sheets.get_mut(around) {
            other.inner.push(Inner { index, line })?;
        }
        if let Some(sheet) = self.sheets.get_mut(index) {
            sheet.is_inner = true;
        }
        Ok(())
    }

    fn index_of(&self, number: u32) -> usize {
        let sheets = self.sheets.as_slice();
        sheets.partition_point(|sheet| sheet.number < number)
    }

    fn sheet(&self, number: u32) -> Option<&Sheet<'a>> {
        self.sheets.get(self.index_of(number))
    }

    /// The number of the line of a byte offset in a text, from 1.
    pub(crate) fn line(&self, number: u32, offset: u32) -> usize {
        match self.sheet(number) {
            Some(sheet) => {
                let ends = sheet.ends.as_slice();
                ends.partition_point(|end| *end <= offset as usize)
                    .saturating_add(1)
            }
            None => 1,
        }
    }

    /// Appends the id of a file.
    pub(crate) fn push_id(&self, id: &mut String, number: u32) -> Result<(), AllocError> {
        write!(id, "f{}", self.index_of(number))
    }

    /// Appends the id of the line of a byte offset in a text.
    pub(crate) fn push_line_id(
        &self,
        id: &mut String,
        number: u32,
        offset: u32,
    ) -> Result<(), AllocError> {
        self.push_id(id, number)?;
        write!(id, "-{}", self.line(number, offset))
    }

    // Appends the line of a byte offset in a text, as it is called in another text.
    fn push_place(
        &self,
        place: &mut String,
        number: u32,
        offset: u32,
        from: u32,
    ) -> Result<(), AllocError> {
        let line = self.line(number, offset);
        match self.sheet(number) {
            Some(sheet) if number != from => write!(place, "{}, line {line}", sheet.file.name),
            _ => write!(place, "line {line}"),
        }
    }

    // What stands between two byte offsets of a text.
    fn between(&self, number: u32, start: u32, end: u32) -> &'a str {
        match self.sheet(number) {
            Some(sheet) => sheet.between(start, end),
            None => "",
        }
    }

    /// Appends the line of a definition, with its continuations.
    pub(crate) fn push_line(&self, lines: &mut String, line: DefinedAt) -> Result<(), AllocError> {
        writeln!(lines, "#{}", self.between(line.text, line.start, line.end))
    }

    /// Appends the directive whose word begins at a byte offset of a text and whose line ends at another, on one line,
    /// with its place as it is called in a text, and the id of its line.
    pub(crate) fn push_directive(
        &self,
        note: &mut Note,
        number: u32,
        start: u32,
        end: u32,
        from: u32,
    ) -> Result<(), AllocError> {
        note.text.push('#')?;
        push_shortened(&mut note.text, self.between(number, start, end))?;
        note.text.push_str(" (")?;
        self.push_place(&mut note.text, number, start, from)?;
        note.text.push(')')?;
        self.push_line_id(&mut note.target, number, start)
    }
}

// How many characters of a directive are shown beside another line.
const MOST_CHARACTERS: usize = 80;

// Appends a text with a space in place of each run of white space and line ends that are continued, cut if it is long.
fn push_shortened(line: &mut String, text: &str) -> Result<(), AllocError> {
    let mut count = 0usize;
    let mut is_parted = false;
    'characters: for c in text.chars() {
        if count >= MOST_CHARACTERS {
            return line.push('…');
        }
        if is_blank(c) {
            is_parted = count > 0;
            continue;
        }
        if is_parted {
            line.push(' ')?;
        }
        is_parted = false;
        line.push(c)?;
        count = count.saturating_add(1);
    }
    Ok(())
}

// Whether a character is white space or continues a line.
fn is_blank(c: char) -> bool {
    c.is_ascii_whitespace() || c == '\x0b' || c == '\\'
}

// The byte offsets in a text at which its lines end, each behind its line end.
fn line_ends(alloc: Global, text: &str) -> Result<Vec<usize>, AllocError> {
    let mut ends = Vec::new(alloc);
    let mut last = None;
    for (offset, byte) in text.bytes().enumerate() {
        let behind = offset.saturating_add(1);
        match (last, byte) {
            // CR LF and LF CR are one line end each.
            (Some(b'\r'), b'\n') | (Some(b'\n'), b'\r') => {
                ends.pop();
                ends.push(behind)?;
                last = None;
            }
            (_, b'\n' | b'\r') => {
                ends.push(behind)?;
                last = Some(byte);
            }
            _ => last = None,
        }
    }
    if ends.last() != Some(&text.len()) {
        ends.push(text.len())?;
    }
    Ok(ends)
}
