//! The texts that places are in: a source, the contents of the definitions that are added before it, and the files that
//! it includes.
//!
//! The library says of each token and error in which text its place is, by the text's number: 0 is the source, and each
//! content that is added and each text that is included has the next number.

ghost use Rattle.std.specs.Prelude.{◌≡◌, [], IsNone, IfSome, IsTrue, OnOk, ◌↔◌, is_some, option_map};
ghost use Rattle.pp_rs.specs.Location.{nowhere};
ghost use Rattle.glslpp_parts.specs.Spots.{IsSpotOf};
ghost use Rattle.glslpp_parts.specs.Texts.{source_text, text_of, has_marks, is_file, is_marked, with_content};
ghost use Rattle.glslpp_parts.specs.Texts.{with_file};
ghost use Rattle.glslpp_parts.specs.inner.Added.{added_at, added_of};

use crate::extensions::EXTENSION_CONTENT;
use crate::line_names::LineMark;
use crate::report::COMMAND_LINE;
use pp_rs::pp::SOURCE_TEXT;
use pp_rs::token::{Location, NOWHERE};
use std::alloc::{AllocError, Global};
use std::marker::Model;

/// A file that is read: the source, or one that is included.
#[derive(Clone, Copy)]
pub struct File<'a> {
    /// Its text.
    pub text: &'a str,
    /// The text as the preprocessor reads it, without the names in `#line` lines.
    pub read: &'a str,
    /// Its `#line` lines, if one of them has a name.
    pub marks: &'a [LineMark<'a>],
    /// Its name in messages.
    pub name: &'a str,
    /// The byte offsets of characters of the text that stand for bytes that aren't UTF-8, rising.
    pub replaced: &'a [usize],
    /// Its number in `#line` lines. The source has 0, and each file that is included the next number, always the same.
    pub number: u32,
}

/// The `#include` for which a text is read.
#[derive(Clone, Copy, PartialEq, Eq)]
pub struct Inclusion {
    /// The number of the text that it is in.
    pub text: u32,
    /// The place of its word.
    pub location: Location,
}

// A text after the source.
#[derive(Clone, Copy)]
struct Added<'a> {
    text: &'a str,
    // The file whose text it is, and why it is read. A content of a definition is of no file.
    file: Option<(File<'a>, Option<Inclusion>)>,
    // How many bytes the contents before it have, each with a line end.
    bytes_before: usize,
}

/// A source, the contents of definitions, and the texts of files that are included.
#[derive(Drop)]
pub struct Texts<'a> {
    /// The source.
    pub source: File<'a>,
    // The other texts, in the order of their numbers.
    added: Vec<Added<'a>>,
}

impl<'a> Model for Texts<'a> {
    ghost use Rattle.std.specs.Prelude.{map};
    ghost use Rattle.glslpp_parts.specs.Texts.{Texts, has_marks};
    ghost use Rattle.glslpp_parts.specs.inner.Added.{added_of};

    ghost Value = { Texts };

    ghost view = { λ t. record {
      source = t.source.text.now;
      is_marked = has_marks t.source;
      added = map added_of t.added.items;
    } };
}

/// A place in one of the texts.
#[derive(Clone, Copy)]
pub struct Spot<'a> {
    /// The text that it is in.
    pub text: &'a str,
    /// The number of that text.
    pub number: u32,
    /// The name of that text in messages.
    pub name: &'a str,
    /// The byte offset at which it begins in that text.
    pub start: usize,
    /// The byte offset at which it ends in that text.
    pub end: usize,
    /// Whether that text is of a file, and not a definition of the command line.
    pub is_in_file: bool,
}

impl<'a> Texts<'a> {
    /// Returns the texts of a source, without another.
    pub fn new(alloc: Global, source: File<'a>) -> Texts<'a>
        ensures source { result.source ≡ source.entry.text.now }
        ensures is_marked { result.is_marked ≡ has_marks source.entry }
        ensures added { result.added ≡ [] }
    {
        Texts {
            source,
            added: Vec::new(alloc),
        }
    }

    /// Adds the content of a definition, after those that were added before.
    pub fn add(&mut self, content: &'a str) -> Result<(), AllocError>
        ensures { OnOk result (self.new ≡ with_content self.old content.now) }
    {
        let bytes_before = self.bytes_of_contents();
        self.added.push(Added {
            text: content,
            file: None,
            bytes_before,
        })?;
        Ok(())
    }

    /// Adds the text of a file that is read for an `#include`, or for the command line.
    pub fn include(
        &mut self,
        file: File<'a>,
        inclusion: Option<Inclusion>,
    ) -> Result<(), AllocError>
        ensures { OnOk result (self.new ≡ with_file self.old file.entry.text.now (has_marks file.entry)) }
    {
        let bytes_before = self.bytes_of_contents();
        self.added.push(Added {
            text: file.text,
            file: Some((file, inclusion)),
            bytes_before,
        })?;
        Ok(())
    }

    // How many bytes the contents have so far, each with a line end.
    fn bytes_of_contents(&self) -> usize {
        match self.added.last() {
            Some(last) if last.file.is_none() => {
                last.bytes_before
                    .saturating_add(last.text.len())
                    .saturating_add(1)
            }
            Some(last) => last.bytes_before,
            None => 0,
        }
    }

    /// Returns how many texts there are, and so the number that the next one has.
    pub fn count(&self) -> u32 {
        u32::try_from(self.added.len())
            .unwrap_or(u32::MAX)
            .saturating_add(1)
    }

    // How many bytes the contents before that of a definition have, each with a line end. It is 0 for a file.
    pub(crate) fn bytes_before(&self, text: u32) -> usize {
        match self.added(text) {
            Some(added) if added.file.is_some() => 0,
            Some(added) => added.bytes_before,
            None if text == SOURCE_TEXT => 0,
            None => self.bytes_of_contents(),
        }
    }

    // The text with this number, if it isn't the source.
    #[inline(always)]
    fn added(&self, number: u32) -> Option<Added<'a>>
        ensures { option_map added_of result ≡ added_at self.now.added number }
    {
        let index = number.checked_sub(1)?;
        self.added.get(index as usize).copied()
    }

    // Whether a blank, a line end or a comment is before this byte offset of the text, or nothing.
    pub(crate) fn is_after_blank(&self, text: u32, start: u32) -> bool {
        match self.text(text).as_bytes().get(..start as usize) {
            Some([.., last]) => *last == b'/' || last.is_ascii_whitespace(),
            _ => true,
        }
    }

    /// Returns the text with this number.
    #[inline(always)]
    pub fn text(&self, number: u32) -> &'a str
        ensures { result.now ≡ text_of self.now number }
    {
        if number == SOURCE_TEXT {
            return self.source.text;
        }
        match self.added(number) {
            Some(added) => added.text,
            None => EXTENSION_CONTENT,
        }
    }

    /// Returns the file whose text has this number, or `None` if that is the content of a definition.
    #[inline(always)]
    pub fn file(&self, number: u32) -> Option<File<'a>>
        ensures is_file { is_some result ≡ is_file self.now number }
        ensures is_marked { IfSome result (λ file. has_marks file ≡ is_marked self.now number) }
    {
        if number == SOURCE_TEXT {
            return Some(self.source);
        }
        match self.added(number)?.file {
            Some((file, _)) => Some(file),
            None => None,
        }
    }

    /// Returns whether the text with this number is of a file.
    #[inline(always)]
    pub fn is_file(&self, number: u32) -> bool
        ensures { result ≡ is_file self.now number }
    {
        if number == SOURCE_TEXT {
            return true;
        }
        match self.added(number) {
            Some(added) => added.file.is_some(),
            None => false,
        }
    }

    /// Returns the `#include` for which the text with this number is read.
    pub fn inclusion(&self, number: u32) -> Option<Inclusion> {
        match self.added(number)?.file {
            Some((_, inclusion)) => inclusion,
            None => None,
        }
    }

    /// Returns the `#include` of the outer text by which one comes to the inner one, if it is inside of that.
    pub fn inclusion_in(&self, outer: u32, inner: u32) -> Option<Inclusion> {
        let mut text = inner;
        // A text has a greater number than that which includes it.
        for _ in 0..inner {
            let inclusion = self.inclusion(text)?;
            if inclusion.text == outer {
                return Some(inclusion);
            }
            text = inclusion.text;
        }
        None
    }

    /// Returns the spot of an item's place in the text with this number, or `None` if it is `NOWHERE` in the source.
    #[inline(always)]
    pub fn spot(&self, text: u32, location: Location) -> Option<Spot<'a>>
        ensures none { IsNone result ↔ ((text ≡ source_text) × (location ≡ nowhere)) }
        ensures told { IfSome result (λ spot. spot.is_in_file ≡ is_file self.now text) }
        ensures is { IfSome result (λ spot. IsSpotOf spot (text_of self.now text) location.start location.end) }
    {
        if text == SOURCE_TEXT && location == NOWHERE {
            return None;
        }
        Some(Spot {
            text: self.text(text),
            number: text,
            name: self.name(text),
            start: location.start as usize,
            end: location.end as usize,
            is_in_file: self.is_file(text),
        })
    }

    /// Returns the name of the text with this number in messages.
    pub fn name(&self, text: u32) -> &'a str {
        match self.file(text) {
            Some(file) => file.name,
            None => COMMAND_LINE,
        }
    }

    // Whether an item's place in the text with this number is in a file.
    #[inline(always)]
    pub(crate) fn is_in_file(&self, text: u32, location: Location) -> bool
        ensures { IsTrue result → IsTrue (is_file self.now text) }
    {
        self.is_file(text) && (text != SOURCE_TEXT || location != NOWHERE)
    }
}

impl<'a> Spot<'a> {
    /// The text of the spot.
    pub(crate) fn word(&self) -> Option<&'a str> {
        self.text.get(self.start..self.end)
    }
}
