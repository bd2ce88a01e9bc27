//! What a source of one token gives: proved callers of `replies`, whose clauses say the answer itself.

ghost use Rattle.std.specs.Prelude.{◌≡◌, ◌<◌, ◌^◌, ◌-◌, false, [], ◌∷◌, codes, length, map, IfOk, Ok};
ghost use Rattle.pp_lexer.specs.declared.lexer.item.Token.{Token as LexerToken};
ghost use Rattle.pp_lexer.specs.declared.lexer.item.TokenValue.TheVariants.{Ident as LexerIdent, NewLine};
ghost use Rattle.pp_lexer.specs.declared.token.TokenValue.TheVariants.{Ident};
ghost use Rattle.pp_model.specs.Names.{Name, is_same_name, line_name};
ghost use Rattle.pp_model.specs.Run.{items_of};
ghost use Rattle.pp_model.specs.declared.call.Reply.TheVariants.{Given};
ghost use Rattle.pp_model.specs.declared.outcome.Outcome.TheVariants.{Token, End};

use pp_rs::laws;
use pp_rs::pp::{Call, Reply, replies};
use std::alloc::{AllocError, Global};

/// What two calls of `next` give over a source. If the source is one identifier, but not `__LINE__`, they give that
/// token with its place, and then the end.
pub fn replies_to_identifier(alloc: Global, source: &str) -> Result<Vec<Reply>, AllocError>
    requires { length source.now < 2 ^ 32 - 1 }
    ensures { IfOk result (λ replies. (word newline : LexerToken) (name : Name)
        → map (λ seen. seen.item) (items_of source.now) ≡ Ok word ∷ Ok newline ∷ []
        → word.value ≡ LexerIdent name → newline.value ≡ NewLine → is_same_name name line_name ≡ false
        → replies.items ≡ Given (Token (record { value = Ident name; location = word.location }))
        ∷ Given End ∷ []) }
{
    laws::runs();
    laws::runs_to_end();
    replies(alloc, source, &[Call::Next, Call::Next])
}

/// What two calls of `next` give over the source `a`: the identifier `a` with its place, and then the end.
pub fn replies_to_a(alloc: Global) -> Result<Vec<Reply>, AllocError>
    ensures { IfOk result (λ replies. replies.items
        ≡ Given (Token (record {
          value = Ident (codes "a");
          location = record { start = 0; end = 1; line = 1 };
        }))
        ∷ Given End ∷ []) }
{
    replies_to_identifier(alloc, "a")
}
