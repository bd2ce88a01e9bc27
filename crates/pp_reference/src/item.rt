//! The items of a source, as the lexer gives them.

use pp_lexer::lexer::LexerItem;
use std::marker::Model;

/// An item of the lexer, and whether the lexer had passed a comment when it gave the item.
#[derive(Drop)]
pub struct SourceItem {
    /// A token, or an error with its place.
    pub item: LexerItem,
    /// Whether there is a comment anywhere before it.
    pub had_comments: bool,
}

impl Model for SourceItem {
    ghost use Rattle.pp_lexer.specs.Lexed.{Seen};

    ghost Value = { Seen };

    ghost view = { λ s. record { item = s.item; had_comments = s.had_comments } };
}
