//! A worked case.

use std::alloc::{AllocError, Global};

/// What is done before the items that are left are asked for.
#[derive(Drop)]
pub(crate) enum Act {
    /// A name is defined with a content.
    Add {
        /// The name.
        name: String,
        /// The content.
        content: String,
    },
    /// One item is asked for.
    Next,
}

/// A source, what is done with it, and what it should give.
#[derive(Drop)]
pub(crate) struct Case {
    /// What it shows.
    pub(crate) name: String,
    /// The source, its lines joined by LF.
    pub(crate) source: String,
    /// What is done before the items that are left are asked for.
    pub(crate) acts: Vec<Act>,
    /// What it should give, up to the end or its first error.
    pub(crate) expected: Option<String>,
    /// What it should give after the error.
    pub(crate) after: Option<String>,
    has_line: bool,
}

impl Case {
    /// A case of this name, with nothing else.
    pub(crate) fn new(alloc: Global, name: &str) -> Result<Case, AllocError> {
        Ok(Case {
            name: String::from_str(alloc, name)?,
            source: String::new(alloc),
            acts: Vec::new(alloc),
            expected: None,
            after: None,
            has_line: false,
        })
    }

    /// One more line of the source.
    pub(crate) fn add_line(&mut self, line: &str) -> Result<(), AllocError> {
        if self.has_line {
            self.source.push('\n')?;
        }
        self.has_line = true;
        self.source.push_str(line)
    }

    /// A text appended to the last line, this many times.
    pub(crate) fn add_times(&mut self, times: u32, text: &str) -> Result<(), AllocError> {
        for _ in 0..times {
            self.source.push_str(text)?;
        }
        Ok(())
    }

    /// One more line of the content that was added last, or `false` if there is none.
    pub(crate) fn add_content_line(&mut self, line: &str) -> Result<bool, AllocError> {
        match self.acts.last_mut() {
            Some(Act::Add { content, .. }) => {
                content.push('\n')?;
                content.push_str(line)?;
                Ok(true)
            }
            _ => Ok(false),
        }
    }
}
