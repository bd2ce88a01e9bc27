//! The arguments of the command line.

ghost use Rattle.std.specs.Prelude.{◌↔◌, IfSome, IsSome, Contains};
ghost use Rattle.pp_print.specs.Words.{IsCutAtFirst};

// The character between a name and its content.
const EQUALS: char = '=';

/// Splits an argument `NAME=CONTENT` of the command line at its first `=`, and returns the name and
/// the content. Returns `None` exactly if there is no `=`.
pub fn split_word(word: &str) -> Option<(&str, &str)>
    ensures found { IsSome result ↔ Contains word.now EQUALS }
    ensures cut { IfSome result (λ parts. IsCutAtFirst EQUALS word.now parts.0.now parts.1.now) }
{
    word.split_once(EQUALS)
}
