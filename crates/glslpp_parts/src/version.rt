//! The names that GLSL predefines, by the `#version` of a source.

ghost use Rattle.std.specs.Prelude.{◌≡◌, ◌-◌, ◌^◌, ◌<◌, ◌++◌, [], ◌∷◌, false, None, OnOk, IfOk, MatchOption};
ghost use Rattle.std.specs.Prelude.{is_some, length};
ghost use Rattle.std.specs.Option.{option_and_then};
ghost use Rattle.std.specs.Str.{chars};
ghost use Rattle.pp_lexer.specs.Respelling.{read_values};
ghost use Rattle.glslpp_parts.specs.Reading.{values_ahead};
ghost use Rattle.glslpp_parts.specs.Version.{after_newlines, version_line, after_hash, numbered, profile_of, is_word};
ghost use Rattle.glslpp_parts.specs.Version.{is_hash, number_of};
ghost use Rattle.glslpp_parts.specs.Version.{version_of, is_es, has_high_precision, has_core, is_compatible, said};
ghost use Rattle.glslpp_parts.specs.Version.{as_one, predefined};

use crate::changes::Change;
use crate::reading::{Read, read_next};
use pp_rs::lexer::{Lexer, TokenValue as Word};
use pp_rs::rules::Profile;
use std::alloc::{AllocError, Global};

/// What the `#version` of a source says.
#[derive(Clone, Copy)]
pub struct Version {
    /// Its number.
    pub number: u64,
    /// Its profile, if it names one that GLSL has.
    pub profile: Option<Profile>,
}

/// The version of a source that names none (GLSL ES 3.20, 3.4).
pub(crate) const DEFAULT_VERSION: Version = Version {
    number: 100,
    profile: None,
};

/// Returns what the first tokens of the source say, if they are a `#version`, and otherwise the version `otherwise`.
pub fn declared_version(
    alloc: Global,
    source: &str,
    otherwise: Version,
) -> Result<Version, AllocError>
    requires { length source.now < 2 ^ 32 - 1 }
    ensures { IfOk result (λ version. version ≡ version_of otherwise (read_values source.now)) }
{
    let mut lexer = Lexer::new(alloc, source);
    let version = read_version(&mut lexer)?;
    Ok(version.unwrap_or(otherwise))
}

/// Returns whether the first tokens of the source are a `#version`.
pub fn has_version(alloc: Global, source: &str) -> Result<bool, AllocError>
    requires { length source.now < 2 ^ 32 - 1 }
    ensures { IfOk result (λ has. has ≡ is_some (version_line (after_newlines (read_values source.now)))) }
{
    let mut lexer = Lexer::new(alloc, source);
    Ok(read_version(&mut lexer)?.is_some())
}

fn read_version(lexer: &mut Lexer<'_>) -> Result<Option<Version>, AllocError>
    requires { lexer.old.spent ≡ false }
    ensures { IfOk result (λ version. version
        ≡ version_line (after_newlines (values_ahead lexer.old))) }
{
    let read = read_past_newlines(lexer)?;
    let is_begun = is_hash(&read);
    drop(read);
    if !is_begun {
        return Ok(None);
    }
    read_after_hash(lexer)
}

// Whether a `#` was read.
fn is_hash(read: &Option<Read>) -> bool
    ensures { MatchOption read.now (result ≡ false) (λ read. result ≡ is_hash read) }
{
    matches!(read, Some(Ok(Word::Hash)))
}

// The first value or error that isn't a newline.
fn read_past_newlines(lexer: &mut Lexer<'_>) -> Result<Option<Read>, AllocError>
    requires { lexer.old.spent ≡ false }
    ensures spent { OnOk result (lexer.new.spent ≡ false) }
    ensures read { IfOk result (λ read. MatchOption read
        (after_newlines (values_ahead lexer.old) ≡ [])
        (λ value. after_newlines (values_ahead lexer.old) ≡ value ∷ values_ahead lexer.new)) }
{
    'lines: while let Some(read) = read_next(lexer)? {
        match read {
            Ok(Word::NewLine) => {}
            _ => return Ok(Some(read)),
        }
    }
    Ok(None)
}

// The word `version`, and what comes after it.
fn read_after_hash(lexer: &mut Lexer<'_>) -> Result<Option<Version>, AllocError>
    requires { lexer.old.spent ≡ false }
    ensures { IfOk result (λ version. version ≡ after_hash (values_ahead lexer.old)) }
{
    let read = read_next(lexer)?;
    let is_version = is_next_word(&read, "version");
    drop(read);
    if !is_version {
        return Ok(None);
    }
    read_number(lexer)
}

fn read_number(lexer: &mut Lexer<'_>) -> Result<Option<Version>, AllocError>
    requires { lexer.old.spent ≡ false }
    ensures { IfOk result (λ version. version ≡ numbered (values_ahead lexer.old)) }
{
    let read = read_next(lexer)?;
    let number = number_of(&read);
    drop(read);
    let Some(number) = number else {
        return Ok(None);
    };
    Ok(Some(Version {
        number,
        profile: read_profile(lexer)?,
    }))
}

// The integer that was read.
fn number_of(read: &Option<Read>) -> Option<u64>
    ensures { result ≡ option_and_then number_of read.now }
{
    match read {
        Some(Ok(Word::Integer(integer))) => Some(integer.value),
        _ => None,
    }
}

fn read_profile(lexer: &mut Lexer<'_>) -> Result<Option<Profile>, AllocError>
    requires { lexer.old.spent ≡ false }
    ensures { IfOk result (λ profile. profile ≡ profile_of (values_ahead lexer.old)) }
{
    let read = read_next(lexer)?;
    let profile = named_profile(&read);
    drop(read);
    Ok(profile)
}

// The profile that the word names that was read.
fn named_profile(read: &Option<Read>) -> Option<Profile>
    ensures { MatchOption read.now (result ≡ None) (λ read. (reads : _) → result ≡ profile_of (read ∷ reads)) }
{
    let Some(read) = read else {
        return None;
    };
    if is_word(read, "es") {
        Some(Profile::Es)
    } else if is_word(read, "core") {
        Some(Profile::Core)
    } else if is_word(read, "compatibility") {
        Some(Profile::Compatibility)
    } else {
        None
    }
}

// Whether this word was read. It is ASCII.
fn is_next_word(read: &Option<Read>, word: &str) -> bool
    requires { chars word.now ≡ word.now }
    ensures { MatchOption read.now (result ≡ false) (λ read. result ≡ is_word word.now read) }
{
    match read {
        Some(read) => is_word(read, word),
        None => false,
    }
}

// Whether this word was read. It is ASCII.
fn is_word(read: &Read, word: &str) -> bool
    requires { chars word.now ≡ word.now }
    ensures { result ≡ is_word word.now read.now }
{
    match read {
        Ok(value) => is_named(value, word),
        Err(_) => false,
    }
}

// Whether the value is the name. It is ASCII.
fn is_named(value: &Word, name: &str) -> bool
    requires { chars name.now ≡ name.now }
    ensures { result ≡ is_word name.now (Ok value.now) }
{
    match value {
        Word::Ident(text) => text.as_str() == name,
        _ => false,
    }
}

impl Version {
    // Whether it is a version of GLSL ES.
    fn is_es(self) -> bool
        ensures { result ≡ is_es self }
    {
        matches!(self.profile, Some(Profile::Es)) || self.number == 100
    }

    // Whether fragment shaders have high precision in it.
    fn has_high_precision(self) -> bool
        ensures { result ≡ has_high_precision self }
    {
        self.is_es() || self.number >= 130
    }

    // Whether it has a core profile.
    fn has_core(self) -> bool
        ensures { result ≡ has_core self }
    {
        !self.is_es() && self.number >= 150
    }

    // Whether it has the compatibility profile.
    fn is_compatible(self) -> bool
        ensures { result ≡ is_compatible self }
    {
        matches!(self.profile, Some(Profile::Compatibility)) && self.number >= 150
    }

    /// Appends the names that GLSL predefines in this version, each as 1, but `__VERSION__` as
    /// `number`.
    pub fn push_predefined<'a>(
        self,
        number: &'a str,
        names: &mut Vec<Change<'a>>,
    ) -> Result<(), AllocError>
        ensures { OnOk result (said names.new.items
            ≡ said names.old.items ++ predefined self number.now) }
    {
        names.push(Change::Define("__VERSION__", number))?;
        push_if(self.is_es(), "GL_ES", names)?;
        push_if(
            self.has_high_precision(),
            "GL_FRAGMENT_PRECISION_HIGH",
            names,
        )?;
        push_if(self.has_core(), "GL_core_profile", names)?;
        push_if(self.is_compatible(), "GL_compatibility_profile", names)?;
        Ok(())
    }
}

// Appends a name as 1, if it is to be defined.
fn push_if(
    is_defined: bool,
    name: &'static str,
    names: &mut Vec<Change<'_>>,
) -> Result<(), AllocError>
    ensures { OnOk result (said names.new.items
        ≡ said names.old.items ++ as_one is_defined name.now) }
{
    if is_defined {
        names.push(Change::Define(name, "1"))?;
    }
    Ok(())
}
