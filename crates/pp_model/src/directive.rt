//! The words of directives (GLSL ES 3.20 section 3.4).

ghost use Rattle.std.specs.Prelude.{◌≡◌};
ghost use Rattle.pp_model.specs.Sights.{directive_of};
ghost use Rattle.pp_model.specs.inner.Sights.{is_word};

use crate::names::is_spelled;
use pp_lexer::token::Text;

/// The directive that a word names.
#[derive(Clone, Copy, PartialEq, Eq, Debug)]
pub enum Directive {
    /// `define`
    Define,
    /// `undef`
    Undef,
    /// `if`
    If,
    /// `ifdef`
    Ifdef,
    /// `ifndef`
    Ifndef,
    /// `elif`
    Elif,
    /// `else`
    Else,
    /// `endif`
    Endif,
    /// `error`
    Error,
    /// `include`
    Include,
    /// `line`
    Line,
    /// `version`
    Version,
    /// `extension`
    Extension,
    /// `pragma`
    Pragma,
    /// Any other identifier.
    Unknown,
}

// Whether a directive's word has this spelling.
#[tactic(auto, unfolding(crate::specs::inner::Sights::is_word))]
fn is_word(name: &Text, word: &str) -> bool
    ensures { result ≡ is_word name.now word.now }
{
    is_spelled(name, word)
}

/// Returns the directive that a word names.
#[tactic(auto, using(crate::proofs::PartsLemmas::directive_of_is))]
pub fn directive_of(name: &Text) -> Directive
    ensures { result ≡ directive_of name.now }
{
    if is_word(name, "define") {
        Directive::Define
    } else if is_word(name, "undef") {
        Directive::Undef
    } else if is_word(name, "if") {
        Directive::If
    } else if is_word(name, "ifdef") {
        Directive::Ifdef
    } else if is_word(name, "ifndef") {
        Directive::Ifndef
    } else if is_word(name, "elif") {
        Directive::Elif
    } else if is_word(name, "else") {
        Directive::Else
    } else if is_word(name, "endif") {
        Directive::Endif
    } else if is_word(name, "error") {
        Directive::Error
    } else if is_word(name, "include") {
        Directive::Include
    } else if is_word(name, "line") {
        Directive::Line
    } else if is_word(name, "version") {
        Directive::Version
    } else if is_word(name, "extension") {
        Directive::Extension
    } else if is_word(name, "pragma") {
        Directive::Pragma
    } else {
        Directive::Unknown
    }
}
