//! The page of `--html`: a source and the files that it includes, with what the preprocessor did.

mod defined;
mod lines;
mod marks;
mod order;
mod sheet;
mod steps;
mod tally;
mod verdicts;
mod view;
mod words;

use crate::run::Ended;
use glslpp_html::page::{File, Part, page};
use glslpp_parts::changes::Definition;
use glslpp_parts::texts::Texts;
use glslpp_parts::undefined_names::Conditions;
use lines::Found;
use order::Order;
use pp_rs::pp::SOURCE_TEXT;
use pp_rs::rules::Rules;
pub(crate) use sheet::MOST_MARKED;
use sheet::{Piece, Sheet, Sheets};
use std::alloc::{AllocError, Global};
use std::env;
use tally::Tally;
pub(crate) use view::View;

/// What a page is made of.
#[derive(Clone, Copy)]
pub(crate) struct Sight<'p, 'a> {
    alloc: Global,
    rules: Rules,
    texts: &'p Texts<'a>,
    sheets: &'p Sheets<'a>,
    // The definitions before the source.
    definitions: &'p [Definition<'a>],
    conditions: &'p Conditions,
    view: &'p View,
}

/// Makes the page of a source and the files that it includes, and what is said of it in an index: how much of it is
/// compiled, and how many messages it has.
pub(crate) fn make_page<'a>(
    alloc: Global,
    rt: &HostRuntime,
    texts: &Texts<'a>,
    rules: Rules,
    definitions: &[Definition<'a>],
    conditions: &Conditions,
    view: &View,
    ended: &mut Ended,
) -> Result<(), AllocError> {
    let command = command_line(rt)?;
    let sheets = Sheets::of(alloc, texts)?;
    let sight = Sight {
        alloc,
        rules,
        texts,
        sheets: &sheets,
        definitions,
        conditions,
        view,
    };
    let end = sight.make(command.as_str(), ended);
    drop(sheets);
    drop(command);
    end
}

/// Returns the words of the command line, with a space between each two.
pub(crate) fn command_line(rt: &HostRuntime) -> Result<String, AllocError> {
    let mut command = String::new(rt.alloc());
    push_command_line(rt, &mut command)?;
    Ok(command)
}

fn push_command_line(rt: &HostRuntime, command: &mut String) -> Result<(), AllocError> {
    let Ok(words) = env::args(rt) else {
        return Ok(());
    };
    for word in words {
        if !command.is_empty() {
            command.push(' ')?;
        }
        command.push_str(word.as_str())?;
    }
    Ok(())
}

impl<'p, 'a> Sight<'p, 'a> {
    // Makes the page of this command.
    fn make(&self, command: &str, ended: &mut Ended) -> Result<(), AllocError> {
        let mut total = Tally::nothing();
        let parts = self.arranged(&mut total)?;
        ended.output = self.page(command, parts)?;
        self.push_summary(&mut ended.summary, total)
    }

    fn page(&self, command: &str, parts: Vec<Part<'_>>) -> Result<String, AllocError> {
        let files = self.files()?;
        let title = self.texts.name(SOURCE_TEXT);
        page(self.alloc, title, command, files.as_slice(), parts)
    }

    fn files(&self) -> Result<Vec<File<'a>>, AllocError> {
        let mut files = Vec::new(self.alloc);
        for sheet in self.sheets.sheets.as_slice() {
            files.push(File {
                name: sheet.file.name,
                text: sheet.file.text,
            })?;
        }
        Ok(files)
    }

    // The parts of the files in the order of the page. What there is to count in them is added.
    fn arranged(&self, total: &mut Tally) -> Result<Vec<Part<'a>>, AllocError> {
        let mut order = Order::new(self.alloc);
        self.arrange(&mut order, total)?;
        Ok(order.parts)
    }

    fn arrange(&self, order: &mut Order<'a>, total: &mut Tally) -> Result<(), AllocError> {
        for (index, sheet) in self.sheets.sheets.as_slice().iter().enumerate() {
            let parts = self.parts(index, sheet)?;
            total.add(self.tally(sheet.number, parts.as_slice()));
            order.push(parts)?;
        }
        order.arrange(self.sheets)
    }

    // The parts of a file, which has this index, in their order.
    fn parts<'s>(&self, index: usize, sheet: &Sheet<'s>) -> Result<Vec<Part<'s>>, AllocError> {
        let mut parts = Vec::new(self.alloc);
        self.push_parts(&mut parts, index, sheet)?;
        Ok(parts)
    }

    fn push_parts<'s>(
        &self,
        parts: &mut Vec<Part<'s>>,
        index: usize,
        sheet: &Sheet<'s>,
    ) -> Result<(), AllocError> {
        if self.sheets.are_marked {
            self.push_marked_parts(parts, index, sheet)?;
        } else {
            parts.push(self.part(index, sheet, sheet.whole()))?;
        }
        if let Some(last) = parts.last_mut() {
            last.is_last = true;
        }
        self.begin_first(parts, sheet.number)
    }

    // Has a file begin with the first of its parts, and says there how much of it is compiled.
    fn begin_first(&self, parts: &mut [Part<'_>], number: u32) -> Result<(), AllocError> {
        let tally = self.tally(number, parts);
        match parts.first_mut() {
            Some(first) => {
                first.is_first = true;
                self.push_note_of(&mut first.note, number, tally)
            }
            None => Ok(()),
        }
    }

    // Appends the parts of a file with their lines.
    fn push_marked_parts<'s>(
        &self,
        parts: &mut Vec<Part<'s>>,
        index: usize,
        sheet: &Sheet<'s>,
    ) -> Result<(), AllocError> {
        let mut found = self.found(sheet)?;
        self.push_pieces(parts, index, sheet, &mut found)
    }

    fn push_pieces<'s>(
        &self,
        parts: &mut Vec<Part<'s>>,
        index: usize,
        sheet: &Sheet<'s>,
        found: &mut Found<'p>,
    ) -> Result<(), AllocError> {
        let pieces = sheet.pieces(self.alloc)?;
        for piece in pieces.as_slice() {
            parts.push(self.part(index, sheet, *piece))?;
            if let Some(part) = parts.last_mut() {
                self.push_lines(&mut part.lines, sheet, *piece, found)?;
            }
        }
        Ok(())
    }

    // A piece of a file, in which nothing is marked yet.
    fn part<'s>(&self, index: usize, sheet: &Sheet<'s>, piece: Piece) -> Part<'s> {
        let text = sheet.file.text;
        Part {
            file: index,
            name: sheet.file.name,
            note: String::new(self.alloc),
            is_first: false,
            is_last: false,
            is_inner: sheet.is_inner,
            text: text.get(piece.start..piece.end).unwrap_or(""),
            first_line: piece.first.saturating_add(1),
            lines: Vec::new(self.alloc),
        }
    }
}
