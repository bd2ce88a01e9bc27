//! The source as a reader of tokens.

ghost use Rattle.pp_macros.specs.inner.Reader.{of_source};

use crate::directives::DirectiveProcessor;
use pp_lexer::token::Integer;
use pp_macros::define::Macro;
use pp_macros::names::NameId;
use pp_macros::reader::MeLexer;
use pp_macros::step::PlacedStep;
use pp_model::read::Read;
use std::alloc::AllocError;
use std::rc::Rc;

impl<'a> MeLexer for DirectiveProcessor<'a> {
    ghost reader = { λ source. of_source source };

    fn step(&mut self) -> PlacedStep<Read> {
        let text = self.text();
        match DirectiveProcessor::step(self) {
            Ok(token) => Ok(Read::of_text(token, text)),
            Err(exit) => Err(exit),
        }
    }

    fn push_flat(&mut self, tokens: &mut Vec<Read>) -> Result<bool, AllocError> {
        if !self.is_in_text() {
            return Ok(false);
        }
        'words: while let Some(is_parenthesis) = self.push_word(tokens)? {
            if is_parenthesis {
                return Ok(true);
            }
        }
        Ok(false)
    }

    fn find(&self, name: &str) -> Option<NameId> {
        self.definitions().find(name)
    }

    fn get_define(&self, id: NameId) -> Option<&Rc<Macro>> {
        self.definitions().get_define(id)
    }

    fn shown_line(&self, line: u32) -> Option<Integer> {
        DirectiveProcessor::shown_line(self, line)
    }
}
