//! The warnings that a command line asks for.

ghost use Rattle.std.specs.Prelude.{◌≡◌, All, IsTrue, OnOk, false, is_some, map};
ghost use Rattle.std.specs.List.{list_any};
ghost use Rattle.glslpp_parts.specs.Warnings.{name_of, is_asked, is_known, are_errors, warnings_of, is_on, no_warnings};
ghost use Rattle.glslpp_parts.specs.Warnings.{mention, said, severity_of};

use crate::diagnostic::Severity;
use crate::failure::{Failure, failure_of};
use std::alloc::Global;

/// A kind of warning.
#[derive(Clone, Copy, PartialEq, Eq)]
pub enum Warning {
    /// A macro whose name occurs nowhere but where it is defined or undefined.
    UnusedMacros,
    /// A `#define` after the first `#ifndef`, of a name that is nearly the same.
    Guard,
    /// A comment inside a comment, or one that a `\` continues.
    Comment,
    /// Words after what a directive takes.
    ExtraTokens,
    /// No space between a macro's name and its body.
    Space,
    /// A mark of a merge conflict.
    Conflict,
    /// A definition of a name of GLSL's own.
    Reserved,
    /// A name in a condition that is not defined.
    Undef,
}

// What makes warnings errors, and what asks for all kinds.
const ERROR: &str = "error";

const ALL: &str = "all";

// What `-W` takes, each also with `no-` before it.
const NAMES: [&str; 10] = [
    "unused-macros",
    "guard",
    "comment",
    "extra-tokens",
    "space",
    "conflict",
    "reserved",
    "undef",
    ERROR,
    ALL,
];

impl Warning {
    /// Its name after `-W`.
    pub(crate) fn name(self) -> &'static str
        ensures { result.now ≡ name_of self }
    {
        match self {
            Warning::UnusedMacros => "unused-macros",
            Warning::Guard => "guard",
            Warning::Comment => "comment",
            Warning::ExtraTokens => "extra-tokens",
            Warning::Space => "space",
            Warning::Conflict => "conflict",
            Warning::Reserved => "reserved",
            Warning::Undef => "undef",
        }
    }
}

/// Which warnings are on, and whether they are errors.
#[derive(Clone, Copy)]
pub struct Warnings {
    /// Those on macros that aren't used.
    pub unused_macros: bool,
    /// Those on include guards.
    pub guard: bool,
    /// Those on comments.
    pub comment: bool,
    /// Those on words after a directive.
    pub extra_tokens: bool,
    /// Those on a missing space after a macro's name.
    pub space: bool,
    /// Those on marks of a merge conflict.
    pub conflict: bool,
    /// Those on names of GLSL's own.
    pub reserved: bool,
    /// Those on names in conditions that are not defined.
    pub undef: bool,
    /// Whether they are errors.
    pub are_errors: bool,
}

impl Warnings {
    /// The warnings that these words after `-W` ask for, or none if all are to be silent. A kind is on if the last word
    /// that names it doesn't begin with `no-`, or if no word names it and `all` is on.
    pub(crate) fn asked(words: &[&str], is_silent: bool) -> Warnings
        ensures silent { IsTrue is_silent → result ≡ no_warnings }
        ensures asked { result ≡ warnings_of (map (λ word. word.now) words.now) is_silent }
    {
        Warnings {
            unused_macros: is_asked(words, is_silent, Warning::UnusedMacros),
            guard: is_asked(words, is_silent, Warning::Guard),
            comment: is_asked(words, is_silent, Warning::Comment),
            extra_tokens: is_asked(words, is_silent, Warning::ExtraTokens),
            space: is_asked(words, is_silent, Warning::Space),
            conflict: is_asked(words, is_silent, Warning::Conflict),
            reserved: is_asked(words, is_silent, Warning::Reserved),
            undef: is_asked(words, is_silent, Warning::Undef),
            are_errors: are_errors(words, is_silent),
        }
    }

    /// Those that are given in a file that is included: a macro there may be used elsewhere.
    pub fn in_included(self) -> Warnings
        ensures { result ≡ record self { unused_macros = false } }
    {
        Warnings {
            unused_macros: false,
            ..self
        }
    }

    /// Whether a kind is on.
    pub(crate) fn has(self, warning: Warning) -> bool
        ensures { result ≡ is_on self warning }
    {
        match warning {
            Warning::UnusedMacros => self.unused_macros,
            Warning::Guard => self.guard,
            Warning::Comment => self.comment,
            Warning::ExtraTokens => self.extra_tokens,
            Warning::Space => self.space,
            Warning::Conflict => self.conflict,
            Warning::Reserved => self.reserved,
            Warning::Undef => self.undef,
        }
    }

    /// Whether any is on.
    pub(crate) fn has_any(self) -> bool
        ensures { self ≡ no_warnings → result ≡ false }
    {
        self.unused_macros
            || self.guard
            || self.comment
            || self.extra_tokens
            || self.space
            || self.conflict
            || self.reserved
            || self.undef
    }

    /// How grave they are.
    pub(crate) fn severity(self) -> Severity
        ensures { result ≡ severity_of self }
    {
        if self.are_errors {
            Severity::Error
        } else {
            Severity::Warning
        }
    }
}

// Whether the words after `-W` ask for a kind, and not all are to be silent.
fn is_asked(words: &[&str], is_silent: bool, kind: Warning) -> bool
    ensures { result ≡ is_asked (map (λ word. word.now) words.now) is_silent kind }
{
    let is_all = said(words, ALL).unwrap_or(false);
    !is_silent && said(words, kind.name()).unwrap_or(is_all)
}

// Whether the words after `-W` make warnings errors, and not all are to be silent.
fn are_errors(words: &[&str], is_silent: bool) -> bool
    ensures { result ≡ are_errors (map (λ word. word.now) words.now) is_silent }
{
    !is_silent && said(words, ERROR).unwrap_or(false)
}

// Whether a name is on by the last of the words that names it, or `None` if none does.
fn said(words: &[&str], name: &str) -> Option<bool>
    ensures { result ≡ said name.now (map (λ word. word.now) words.now) }
{
    let mut last = None;
    for word in words {
        last = mention(word, name).or(last);
    }
    last
}

// What a word says of a name: that it is on or, with `no-`, that it is off.
fn mention(word: &str, name: &str) -> Option<bool>
    ensures { result ≡ mention name.now word.now }
{
    if word == name {
        return Some(true);
    }
    match word.strip_prefix("no-") {
        Some(rest) if rest == name => Some(false),
        _ => None,
    }
}

/// Fails at the first word after `-W` that asks for nothing that `glslpp` has.
pub fn check_warnings(alloc: Global, words: &[&str]) -> Result<(), Failure>
    ensures { OnOk result (All (λ word. IsTrue (is_known word.now)) words.now) }
{
    for word in words {
        if !is_known(word) {
            return Err(refusal(alloc, word));
        }
    }
    Ok(())
}

// Whether a word is a name that `-W` takes, or one with `no-` before it.
fn is_known(word: &str) -> bool
    ensures { result ≡ is_known word.now }
{
    says_any(word, &NAMES)
}

// Whether a word says something of one of these names.
fn says_any(word: &str, names: &[&str]) -> bool
    ensures { result ≡ list_any (λ name. is_some (mention name.now word.now)) names.now }
{
    names.iter().any(|name| mention(word, name).is_some())
}

fn refusal(alloc: Global, word: &str) -> Failure {
    let cause = format!(in alloc; "glslpp has no warning `-W{word}`");
    match (format!(in alloc; "-W{word}"), cause) {
        (Ok(subject), Ok(cause)) => failure_of(alloc, subject.as_str(), cause),
        _ => Failure::OutOfMemory,
    }
}
