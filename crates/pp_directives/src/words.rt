//! What a word of plain text means in live text.

ghost use Rattle.std.specs.Prelude.{◌≡◌, ◌≢◌, false, IsTrue, IsSome, IfSome};
ghost use Rattle.std.specs.Str.{IsAscii};
ghost use Rattle.pp_lexer.specs.declared.lexer.plain.Form.TheVariants.{Hash};
ghost use Rattle.pp_model.specs.Names.{is_identifier, is_same_name, line_name};
ghost use Rattle.pp_directives.specs.WordTokens.{word_value};
ghost use Rattle.pp_directives.specs.inner.PlainText.{Does};
ghost use Rattle.pp_macros.specs.inner.Reader.{nests};

use pp_lexer::lexer::{Form, PlainItem};
use pp_lexer::token::Punct;
use pp_macros::names::{Definitions, NameId};

/// Whether the name is `__LINE__`. Most have another length, and need no call.
#[inline(always)]
pub fn is_line_name(name: &str) -> bool
    requires { IsAscii name.now }
    ensures { result ≡ is_same_name name.now line_name }
{
    name.len() == 8 && name == "__LINE__"
}

/// Whether the word is no `#`, and not `__LINE__`.
#[inline(always)]
pub fn is_apart(word: &PlainItem<'_>) -> bool
    requires { IsAscii word.now.spelling.now }
    ensures no_hash { IsTrue result → word.now.form ≢ Hash }
    ensures apart { IsTrue result → is_identifier line_name
        (word_value word.now.form word.now.spelling.now) ≡ false }
{
    match word.form {
        Form::Hash => false,
        Form::Identifier => !is_line_name(word.spelling),
        _ => true,
    }
}

/// Whether the word is a parenthesis.
#[inline(always)]
pub fn is_parenthesis(word: &PlainItem<'_>) -> bool
    ensures { result ≡ nests (word_value word.now.form word.now.spelling.now) }
{
    matches!(word.form, Form::Punct(Punct::LeftParen | Punct::RightParen))
}

/// What the word does in live text while no macro is open, by one look-up of its name: it opens the macro without
/// parentheses whose name has this number or, without a number, is given as it is. Nothing if it is a `#`, `__LINE__`
/// or the name of a macro with parentheses.
#[inline(always)]
pub fn act_of(word: &PlainItem<'_>, definitions: &Definitions) -> Option<Option<NameId>>
    requires { IsAscii word.now.spelling.now }
    ensures no_hash { IsSome result → word.now.form ≢ Hash }
    ensures does { IfSome result (λ act. Does definitions.now act word.now) }
{
    match word.form {
        Form::Hash => return None,
        Form::Identifier => {}
        _ => return Some(None),
    }
    if is_line_name(word.spelling) {
        return None;
    }
    let Some(id) = definitions.find(word.spelling) else {
        return Some(None);
    };
    match definitions.get_define(id) {
        None => Some(None),
        Some(found) if found.is_function_like() => None,
        Some(_) => Some(Some(id)),
    }
}
