//! Tests of names.

ghost use Rattle.std.specs.Prelude.{◌≡◌, take, codes};
ghost use Rattle.std.specs.Str.{chars};
ghost use Rattle.pp_model.specs.Names.{is_in, is_same_name, is_identifier, line_name, defined_name};
ghost use Rattle.pp_model.specs.DefineLines.{own_names, is_own_name};

use pp_lexer::token::{Text, TokenValue};

/// Returns whether the text has these characters. Most texts have another length, and are not compared.
#[inline(always)]
pub fn is_spelled(text: &Text, spelling: &str) -> bool
    ensures { result ≡ is_same_name text.now (chars spelling.now) }
{
    let name = text.as_str();
    name.len() == spelling.len() && name == spelling
}

/// Returns whether the token is `__LINE__`.
#[inline(always)]
pub fn is_line_name(value: &TokenValue) -> bool
    ensures { result ≡ is_identifier line_name value.now }
{
    match value {
        TokenValue::Ident(text) => is_spelled(text, "__LINE__"),
        _ => false,
    }
}

/// Returns whether the name is `defined`.
pub fn is_defined_name(name: &Text) -> bool
    ensures { result ≡ is_same_name name.now defined_name }
{
    is_spelled(name, "defined")
}

// Whether the name begins as the language's own do.
fn begins_as_own(name: &Text) -> bool
    ensures { result ≡ is_same_name (take 3 name.now) (codes "GL_") }
{
    name.as_str().starts_with("GL_")
}

// Whether the language defines the name itself.
#[tactic(auto, using(crate::proofs::source::OwnNameLemmas::in_own_names))]
fn is_predefined(name: &Text) -> bool
    ensures { result ≡ is_in name.now own_names }
{
    is_spelled(name, "defined")
        || is_spelled(name, "__LINE__")
        || is_spelled(name, "__FILE__")
        || is_spelled(name, "__VERSION__")
}

/// Returns whether the language keeps the name for itself.
pub fn is_own_name(name: &Text) -> bool
    ensures { result ≡ is_own_name name.now }
{
    is_predefined(name) || begins_as_own(name)
}
