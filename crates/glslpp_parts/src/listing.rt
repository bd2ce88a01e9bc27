//! The macros that are defined at the end of a source, as `#define` lines.
//!
//! Which of several definitions of a name holds is left to the preprocessor: it reads a text that defines each name
//! again by each of them. That of the same macro is no error.

use crate::changes::Definition;
use crate::directive_text::written_line;
use crate::outline::Outline;
use crate::texts::Texts;
use pp_rs::rules::Rules;
use std::alloc::{AllocError, Global};
use std::collections::BTreeMap;
use std::mem;

/// A name that may be defined.
#[derive(Drop)]
struct Entry {
    // The line of the text that gives a token if it is defined.
    line: u32,
    // Its definitions, which are on the lines that follow.
    lines: Vec<String>,
}

/// The names that may be defined, and the text that asks which are.
#[derive(Drop)]
pub struct Listing {
    alloc: Global,
    /// The text.
    pub text: String,
    entries: Vec<Entry>,
    // Of each line of the text whether it gave a token, and whether it is refused.
    is_given: Vec<bool>,
    is_refused: Vec<bool>,
}

impl Listing {
    /// The names that these texts, read by these rules, and these definitions define, and the macros of these
    /// extensions.
    pub fn of(
        alloc: Global,
        rules: Rules,
        texts: &Texts<'_>,
        definitions: &[Definition<'_>],
        extensions: &[String],
    ) -> Result<Listing, AllocError> {
        let mut listing = Listing {
            alloc,
            text: String::new(alloc),
            entries: Vec::new(alloc),
            is_given: Vec::new(alloc),
            is_refused: Vec::new(alloc),
        };
        match listing.fill(rules, texts, definitions, extensions) {
            Ok(()) => Ok(listing),
            Err(error) => {
                drop(listing);
                Err(error)
            }
        }
    }

    // Asks for all names that are defined somewhere.
    fn fill(
        &mut self,
        rules: Rules,
        texts: &Texts<'_>,
        definitions: &[Definition<'_>],
        extensions: &[String],
    ) -> Result<(), AllocError> {
        let mut names = Names {
            alloc: self.alloc,
            lines: BTreeMap::new(self.alloc),
        };
        let end = match names.fill(rules, texts, definitions, extensions) {
            Ok(()) => self.push_entries(&mut names),
            Err(error) => Err(error),
        };
        drop(names);
        end
    }

    // Asks for these names, whose definitions are moved.
    fn push_entries(&mut self, names: &mut Names) -> Result<(), AllocError> {
        for (name, lines) in names.lines.iter_mut() {
            let lines = mem::replace(lines, Vec::new(self.alloc));
            self.push_entry(name.as_str(), lines)?;
        }
        Ok(())
    }

    // Asks for a name with these definitions.
    fn push_entry(&mut self, name: &str, lines: Vec<String>) -> Result<(), AllocError> {
        let line = u32::try_from(self.is_given.len()).unwrap_or(u32::MAX);
        match self.push_question(name, lines.as_slice()) {
            Ok(()) => {
                self.entries.push(Entry {
                    line: line.saturating_add(1),
                    lines,
                })?;
                Ok(())
            }
            Err(error) => {
                drop(lines);
                Err(error)
            }
        }
    }

    // Appends the lines that ask for it. The second is given if it is defined.
    fn push_question(&mut self, name: &str, lines: &[String]) -> Result<(), AllocError> {
        self.push_text_line("#ifdef ", name)?;
        self.push_text_line("1", "")?;
        for line in lines {
            self.push_text_line("", line.as_str())?;
        }
        self.push_text_line("#endif", "")
    }

    fn push_text_line(&mut self, word: &str, rest: &str) -> Result<(), AllocError> {
        writeln!(self.text, "{word}{rest}")?;
        self.is_given.push(false)?;
        self.is_refused.push(false)?;
        Ok(())
    }

    /// Notes that a 1-based line of the text gave a token.
    pub fn take_token(&mut self, line: u32) {
        set(self.is_given.as_mut_slice(), line);
    }

    /// Notes that a 1-based line of the text has an error.
    pub fn take_error(&mut self, line: u32) {
        set(self.is_refused.as_mut_slice(), line);
    }

    /// The definitions that hold, by their names.
    pub fn finish(&self) -> Result<String, AllocError> {
        let mut output = String::new(self.alloc);
        for entry in self.entries.as_slice() {
            if self.is_given.get(entry.line as usize) == Some(&true) {
                output.push_str(self.holding_line(entry))?;
                output.push('\n')?;
            }
        }
        Ok(output)
    }

    // The definition of a name that holds. A name of GLSL's own is defined before the source alone.
    fn holding_line<'e>(&self, entry: &'e Entry) -> &'e str {
        let first = (entry.line as usize).saturating_add(1);
        for (offset, line) in entry.lines.as_slice().iter().enumerate() {
            if self.is_refused.get(first.saturating_add(offset)) == Some(&false) {
                return line.as_str();
            }
        }
        match entry.lines.first() {
            Some(line) => line.as_str(),
            None => "",
        }
    }
}

fn set(flags: &mut [bool], line: u32) {
    if let Some(flag) = flags.get_mut((line as usize).saturating_sub(1)) {
        *flag = true;
    }
}

// The names that are defined somewhere, each with the lines that define it.
#[derive(Drop)]
struct Names {
    alloc: Global,
    lines: BTreeMap<String, Vec<String>>,
}

impl Names {
    // Adds the names that these texts and definitions define, and the macros of these extensions.
    fn fill(
        &mut self,
        rules: Rules,
        texts: &Texts<'_>,
        definitions: &[Definition<'_>],
        extensions: &[String],
    ) -> Result<(), AllocError> {
        for (name, content) in definitions {
            let line = format!(in self.alloc; "#define {name} {content}")?;
            self.push_line(name, line)?;
        }
        for name in extensions {
            let line = format!(in self.alloc; "#define {name} 1")?;
            self.push_line(name.as_str(), line)?;
        }
        for number in 0..texts.count() {
            if texts.is_file(number) {
                self.push_lines_of(rules, texts.text(number))?;
            }
        }
        Ok(())
    }

    // Appends the definitions of a text.
    fn push_lines_of(&mut self, rules: Rules, text: &str) -> Result<(), AllocError> {
        let outline = Outline::of(self.alloc, rules, text)?;
        let end = self.push_outlined(&outline, text);
        drop(outline);
        end
    }

    // Appends the definitions of a text with this outline.
    fn push_outlined(&mut self, outline: &Outline, text: &str) -> Result<(), AllocError> {
        for (name, start) in outline.names()?.as_slice() {
            let rest = text.get(*start as usize..).unwrap_or("");
            let line = define_line(self.alloc, rest)?;
            self.push_line(name, line)?;
        }
        Ok(())
    }

    // Appends a definition of a name, unless it is there.
    fn push_line(&mut self, name: &str, line: String) -> Result<(), AllocError> {
        match self.lines_without(name, line.as_str()) {
            Ok(Some(lines)) => Ok(lines.push(line)?),
            Ok(None) => {
                drop(line);
                Ok(())
            }
            Err(error) => {
                drop(line);
                Err(error)
            }
        }
    }

    // The definitions of a name, if this line is none of them.
    fn lines_without(
        &mut self,
        name: &str,
        line: &str,
    ) -> Result<Option<&mut Vec<String>>, AllocError> {
        let name = String::from_str(self.alloc, name)?;
        let lines = self.lines.entry(name)?.or_insert(Vec::new(self.alloc));
        if lines.iter().any(|other| other.as_str() == line) {
            return Ok(None);
        }
        Ok(Some(lines))
    }
}

// The `#define` line of a definition whose name begins a text.
fn define_line(alloc: Global, text: &str) -> Result<String, AllocError> {
    let written = written_line(alloc, text)?;
    let line = spaced_line(alloc, written.as_str().strip_prefix('#').unwrap_or(""));
    drop(written);
    line
}

// The same with single spaces.
fn spaced_line(alloc: Global, body: &str) -> Result<String, AllocError> {
    let mut line = String::from_str(alloc, "#define")?;
    push_words(&mut line, body)?;
    Ok(line)
}

// Appends the words of a text, each after a space.
fn push_words(line: &mut String, text: &str) -> Result<(), AllocError> {
    let mut is_blank = true;
    for c in text.chars() {
        if c.is_ascii_whitespace() || c == '\x0b' {
            is_blank = true;
        } else {
            if is_blank {
                line.push(' ')?;
            }
            line.push(c)?;
            is_blank = false;
        }
    }
    Ok(())
}
