//! The index of the pages in a folder.

use crate::page::command_line;
use crate::write_output;
use glslpp_html::overview::{Entry, overview};
use glslpp_parts::failure::Failure;
use std::alloc::{AllocError, Global};

/// The pages of a folder.
#[derive(Drop)]
pub(crate) struct Pages {
    alloc: Global,
    pages: Vec<Page>,
}

// A page.
#[derive(Drop)]
struct Page {
    // The name of its source.
    name: String,
    // Its file.
    file: String,
    // What is said of it.
    summary: String,
}

impl Pages {
    /// No pages.
    pub(crate) fn new(alloc: Global) -> Pages {
        Pages {
            alloc,
            pages: Vec::new(alloc),
        }
    }

    /// Takes the page of the source with this name, in a file.
    pub(crate) fn push(&mut self, name: &str, file: &str, summary: &str) -> Result<(), AllocError> {
        self.pages.push(Page {
            name: String::new(self.alloc),
            file: String::new(self.alloc),
            summary: String::new(self.alloc),
        })?;
        match self.pages.last_mut() {
            Some(page) => {
                page.name.push_str(name)?;
                page.file.push_str(file)?;
                page.summary.push_str(summary)
            }
            None => Ok(()),
        }
    }

    /// Writes the index.
    pub(crate) fn write(&self, rt: &HostRuntime, folder: &str) -> Result<(), Failure> {
        let text = self.text(rt, folder)?;
        let file = index_in(self.alloc, folder)?;
        write_output(rt, Some(file.as_str()), text.as_str())
    }

    // The text of the index.
    fn text(&self, rt: &HostRuntime, folder: &str) -> Result<String, AllocError> {
        let command = command_line(rt)?;
        let mut entries = Vec::new(self.alloc);
        self.push_entries(&mut entries)?;
        overview(self.alloc, folder, command.as_str(), entries.as_slice())
    }

    fn push_entries<'p>(&'p self, entries: &mut Vec<Entry<'p>>) -> Result<(), AllocError> {
        for page in self.pages.as_slice() {
            entries.push(Entry {
                name: page.name.as_str(),
                file: String::from_str(self.alloc, last_name(page.file.as_str()))?,
                note: page.summary.as_str(),
            })?;
        }
        Ok(())
    }
}

// A file's name without its folder.
fn last_name(file: &str) -> &str {
    match file.rsplit_once('/') {
        Some((_, name)) => name,
        None => file,
    }
}

/// Returns the name of the index in a folder, as those of the pages there begin.
pub(crate) fn index_in(alloc: Global, folder: &str) -> Result<String, AllocError> {
    let folder = folder.trim_end_matches('/');
    format!(in alloc; "{folder}/index.html")
}
