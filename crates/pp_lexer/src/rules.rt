//! Which rules a source is read by: pp-rs's or GLSL's.

ghost use Rattle.std.specs.Prelude.{◌≡◌};
ghost use Rattle.pp_lexer.specs.Rules.{numbered_from, glsl, with_includes};

/// The profile of a version (GLSL 4.60, section 3.3). [`Profile::Es`] is GLSL ES.
#[derive(Clone, Copy, Debug, PartialEq, Eq)]
pub enum Profile {
    /// `core`, also of versions before 1.50, which have no profiles.
    Core,
    /// `compatibility`.
    Compatibility,
    /// `es`.
    Es,
}

/// Which of a few rules hold.
///
/// [`Rules::PP_RS`] are those of the Rust crate pp-rs, and [`Rules::glsl`] those of the language.
#[derive(Clone, Copy)]
pub struct Rules {
    // Whether the suffixes of widths other than 32 bits are taken. Otherwise they are errors.
    pub(crate) takes_widths: bool,
    // Whether a bad character takes itself alone. Otherwise it takes up to two more.
    pub(crate) takes_one_bad_character: bool,
    /// Whether an error of the lexer in dead text, or on a line that is skipped, is passed, and what is left of a
    /// directive's line after a fault on it is skipped. Otherwise the error is given, and that line is read on.
    pub passes_dead_errors: bool,
    /// Whether `#define` and `#undef` refuse the names that the language keeps for itself.
    pub keeps_own_names: bool,
    /// Whether the line after a `#line n` has the number n. Otherwise it has n + 1.
    pub numbers_next_line: bool,
    /// Whether `__LINE__` is an `int` that follows `#line` wherever it stands. Otherwise it is a `uint`, and follows
    /// `#line` outside of arguments and of directives' lines.
    pub numbers_as_int: bool,
    /// Whether an `#include` line is asked for its text. Otherwise it is an unknown directive.
    pub asks_includes: bool,
}

// The first version by which the line after a `#line n` has the number n.
fn numbered_from(profile: Profile) -> u64
    ensures { result ≡ numbered_from profile }
{
    match profile {
        Profile::Es => 300,
        Profile::Core | Profile::Compatibility => 330,
    }
}

impl Rules {
    /// The rules of pp-rs.
    pub const PP_RS: Rules = Rules {
        takes_widths: false,
        takes_one_bad_character: false,
        passes_dead_errors: false,
        keeps_own_names: false,
        numbers_next_line: false,
        numbers_as_int: false,
        asks_includes: false,
    };

    /// Returns GLSL's rules for a version, by its number in `#version`: 450, or 310 with [`Profile::Es`].
    ///
    /// - A bad character is one outside of the character set (GLSL ES 3.20, section 3.1), or one that begins no token.
    ///   It takes itself alone.
    /// - Beside the suffixes of integers and floats (sections 4.1.3 and 4.1.4) those of other widths are taken: `lf`
    ///   and `LF` of GLSL 4.00, and `l`, `L`, `ul`, `UL`, `s`, `S`, `us`, `US`, `hf` and `HF` of
    ///   GL_EXT_shader_explicit_arithmetic_types.
    /// - An error of the lexer in dead text, or on a line that is skipped, gives nothing (section 3.4).
    /// - `#define` and `#undef` of `defined`, of `__LINE__`, `__FILE__` and `__VERSION__`, and of a name that begins
    ///   with `GL_` are an [`UnexpectedToken`](crate::token::PreprocessorError::UnexpectedToken) at the name.
    /// - The line after a `#line n` has the number n from 3.30 and from ES 3.00 on, and before n + 1.
    /// - `__LINE__` is an `int`, and follows `#line` in arguments and on directives' lines too (section 3.4).
    /// - After an `#error`, an unknown directive or a fault on a directive's line, what is left of the line is skipped.
    pub fn glsl(version: u64, profile: Profile) -> Rules
        ensures { result ≡ glsl version profile }
    {
        Rules {
            takes_widths: true,
            takes_one_bad_character: true,
            passes_dead_errors: true,
            keeps_own_names: true,
            numbers_next_line: numbered_from(profile) <= version,
            numbers_as_int: true,
            asks_includes: false,
        }
    }

    /// Returns the same rules, by which an `#include` line is asked for its text.
    ///
    /// A name between `"` is no token, so by these rules a bad character takes itself alone, and errors of the lexer in
    /// dead text and on lines that are skipped, this one too, are passed, as by GLSL's rules.
    pub fn with_includes(self) -> Rules
        ensures { result ≡ with_includes self }
    {
        Rules {
            takes_one_bad_character: true,
            passes_dead_errors: true,
            asks_includes: true,
            ..self
        }
    }
}
