//! Names and calls in a source, for messages.

ghost use Rattle.std.specs.Prelude.{◌-◌, ◌^◌, ◌<◌, length};

use crate::quoting::is_name_char;
use pp_rs::lexer::{Lexer, LexerItem, TokenValue};
use pp_rs::rules::Rules;
use pp_rs::token::Punct;
use std::alloc::Global;

/// The name at the end of a text, without blanks after it.
pub(crate) fn last_name(text: &str) -> &str {
    let text = text.trim_end();
    match text.rfind(|c| !is_name_char(c)) {
        Some(place) => last_char_cut(text, place),
        None => text,
    }
}

// The text after the character at the place.
fn last_char_cut(text: &str, place: usize) -> &str {
    let rest = text.get(place..).unwrap_or("");
    let mut chars = rest.chars();
    chars.next();
    chars.as_str()
}

/// The number of arguments in the parentheses with which the text begins, which is read by these rules.
pub(crate) fn count_arguments(alloc: Global, rules: Rules, text: &str) -> Option<usize>
    requires { length text.now < 2 ^ 32 - 1 }
{
    let mut lexer = Lexer::with_rules(alloc, text, rules);
    let mut counter = Counter { depth: 0, count: 0 };
    'tokens: while let Some(item) = lexer.next() {
        let end = counter.take_item(&item);
        drop(item);
        match end {
            End::Open => {}
            End::Closed => return Some(counter.count),
            End::Refused => return None,
        }
    }
    None
}

/// Whether the arguments of a call end with a token.
#[derive(Clone, Copy)]
enum End {
    /// They go on.
    Open,
    /// They end.
    Closed,
    /// There is an error in its place.
    Refused,
}

// The arguments of a call, up to a token.
#[derive(Clone, Copy)]
struct Counter {
    // How many parentheses are open.
    depth: usize,
    // How many arguments have begun.
    count: usize,
}

impl Counter {
    fn take_item(&mut self, item: &LexerItem) -> End {
        match item {
            Ok(token) => self.take(&token.value),
            Err(_) => End::Refused,
        }
    }

    fn take(&mut self, value: &TokenValue) -> End {
        match value {
            TokenValue::NewLine => {}
            TokenValue::Punct(Punct::LeftParen) => {
                self.depth = self.depth.saturating_add(1);
                self.count = self.count.max(self.depth.saturating_sub(1).min(1));
            }
            TokenValue::Punct(Punct::RightParen) => {
                self.depth = self.depth.saturating_sub(1);
                if self.depth == 0 {
                    return End::Closed;
                }
            }
            TokenValue::Punct(Punct::Comma) if self.depth == 1 => {
                self.count = self.count.max(1).saturating_add(1);
            }
            _ => self.count = self.count.max(1),
        }
        End::Open
    }
}
