//! Texts in which reading goes on once the texts that they include end.

use pp_lexer::lexer::Lexer;
use pp_macros::blocks::Blocks;
use std::marker::Model;

/// A text in which reading goes on once the text that it includes ends.
#[derive(Drop)]
pub struct Suspended<'a> {
    // the number of the text
    pub(crate) text: u32,
    pub(crate) lexer: Lexer<'a>,
    pub(crate) blocks: Blocks,
    pub(crate) line_offset: i64,
    pub(crate) has_text: bool,
    pub(crate) has_directive: bool,
    pub(crate) dead_for_good: bool,
}

impl<'a> Model for Suspended<'a> {
    ghost use Rattle.pp_directives.specs.inner.Suspending.{IsReadable};
    ghost use Rattle.pp_macros.specs.inner.Source.{SuspendedText};

    ghost Value = { SuspendedText };

    ghost view = { λ s. record {
      text = s.text;
      rest = s.lexer.rest;
      places = s.lexer.places;
      over = s.lexer.over;
      blocks = s.blocks;
      line_offset = s.line_offset;
      has_text = s.has_text;
      has_directive = s.has_directive;
      dead_for_good = s.dead_for_good;
    } };

    ghost invariant = { λ s. IsReadable s.lexer };
}
