//! What is wrong with a `#version` or an `#extension` line.

ghost use Rattle.std.specs.Prelude.{◌≡◌};
ghost use Rattle.glslpp_parts.specs.Editions.{edition_of};

use crate::explainer::is_near;
use pp_rs::token::{Extension, Location, Punct, Token, TokenValue, Version};
use std::alloc::{AllocError, Global};

/// What is wrong, and where.
#[derive(Drop)]
pub(crate) struct Complaint {
    /// Its place.
    pub location: Location,
    /// What is said.
    pub message: String,
}

/// Which profiles a version of GLSL has.
#[derive(Clone, Copy, PartialEq, Eq)]
pub(crate) enum Edition {
    /// None: GLSL ES 1.00, and GLSL before 1.50.
    WithoutProfiles,
    /// `es` alone, which has to be written.
    Es,
    /// `core` and `compatibility`.
    Desktop,
    /// It is no version of GLSL.
    Unknown,
}

/// What is wrong with a `#version` whose word is at this place (GLSL ES 3.20, 3.4; GLSL 4.60, 3.3).
pub(crate) fn complaint_of_version(
    alloc: Global,
    version: &Version,
    word: Location,
) -> Result<Option<Complaint>, AllocError> {
    let mut tokens = version.tokens.iter();
    let Some(first) = tokens.next() else {
        return complain(alloc, word, "`#version` without a number");
    };
    let TokenValue::Integer(integer) = first.value else {
        return complain(alloc, first.location, "`#version` without a number");
    };
    let number = integer.value;
    let edition = if integer.signed && integer.width == 32 {
        edition_of(number)
    } else {
        Edition::Unknown
    };
    if edition == Edition::Unknown {
        let value = &first.value;
        let message = format!(in alloc; "`#version {value}`: GLSL has no such version")?;
        return Ok(Some(Complaint {
            location: first.location,
            message,
        }));
    }
    let profile = tokens.next();
    if let Some(complaint) = complaint_of_profile(alloc, edition, number, first, profile)? {
        return Ok(Some(complaint));
    }
    match tokens.next() {
        Some(token) => complain(
            alloc,
            token.location,
            "`#version` takes a number and a profile, and no more",
        ),
        None => Ok(None),
    }
}

/// The profiles of a version of GLSL.
pub(crate) fn edition_of(number: u64) -> Edition
    ensures { result ≡ edition_of number }
{
    match number {
        100 | 110 | 120 | 130 | 140 => Edition::WithoutProfiles,
        300 | 310 | 320 => Edition::Es,
        150 | 330 | 400 | 410 | 420 | 430 | 440 | 450 | 460 => Edition::Desktop,
        _ => Edition::Unknown,
    }
}

// What is wrong with the profile, or without one.
fn complaint_of_profile(
    alloc: Global,
    edition: Edition,
    number: u64,
    first: &Token,
    profile: Option<&Token>,
) -> Result<Option<Complaint>, AllocError> {
    let Some(token) = profile else {
        if edition == Edition::Es {
            return complain_of(alloc, first.location, number, "needs the profile `es`");
        }
        return Ok(None);
    };
    let TokenValue::Ident(name) = &token.value else {
        return complain(
            alloc,
            token.location,
            "`#version` takes a number and a profile, and no more",
        );
    };
    match (name.as_str(), edition) {
        ("es" | "core" | "compatibility", Edition::WithoutProfiles) => {
            complain_of(alloc, token.location, number, "has no profiles")
        }
        ("core" | "compatibility", Edition::Es) => {
            complain_of(alloc, token.location, number, "has only the profile `es`")
        }
        ("es", Edition::Desktop) => {
            complain_of(alloc, token.location, number, "has no profile `es`")
        }
        ("es" | "core" | "compatibility", _) => Ok(None),
        (name, _) => Ok(Some(Complaint {
            location: token.location,
            message: unknown_word(alloc, "GLSL has no profile", name, &PROFILES)?,
        })),
    }
}

const PROFILES: [&str; 3] = ["es", "core", "compatibility"];

const BEHAVIOURS: [&str; 4] = ["require", "enable", "warn", "disable"];

const EXTENSION_FORM: &str = "`#extension` isn't of the form `#extension NAME : BEHAVIOUR`";

/// What is wrong with an `#extension` whose word is at this place (GLSL ES 3.20, 3.4).
pub(crate) fn complaint_of_extension(
    alloc: Global,
    extension: &Extension,
    word: Location,
) -> Result<Option<Complaint>, AllocError> {
    let mut tokens = extension.tokens.iter();
    let Some(name) = tokens.next() else {
        return complain(alloc, word, EXTENSION_FORM);
    };
    let TokenValue::Ident(extension_name) = &name.value else {
        return complain(alloc, name.location, EXTENSION_FORM);
    };
    match tokens.next() {
        Some(colon) if matches!(colon.value, TokenValue::Punct(Punct::Colon)) => {}
        Some(other) => return complain(alloc, other.location, EXTENSION_FORM),
        None => return complain(alloc, name.location, EXTENSION_FORM),
    }
    let Some(behaviour) = tokens.next() else {
        return complain(alloc, name.location, EXTENSION_FORM);
    };
    if let Some(complaint) = complaint_of_behaviour(alloc, extension_name.as_str(), behaviour)? {
        return Ok(Some(complaint));
    }
    match tokens.next() {
        Some(more) => complain(alloc, more.location, EXTENSION_FORM),
        None => Ok(None),
    }
}

// What is wrong with the behaviour of an extension.
fn complaint_of_behaviour(
    alloc: Global,
    extension: &str,
    token: &Token,
) -> Result<Option<Complaint>, AllocError> {
    let TokenValue::Ident(behaviour) = &token.value else {
        return complain(alloc, token.location, EXTENSION_FORM);
    };
    match (extension, behaviour.as_str()) {
        ("all", "require" | "enable") => complain(
            alloc,
            token.location,
            "`#extension all` takes only `warn` and `disable`",
        ),
        (_, "require" | "enable" | "warn" | "disable") => Ok(None),
        (_, other) => Ok(Some(Complaint {
            location: token.location,
            message: unknown_word(alloc, "`#extension` has no behaviour", other, &BEHAVIOURS)?,
        })),
    }
}

// A complaint in these words.
fn complain(
    alloc: Global,
    location: Location,
    words: &str,
) -> Result<Option<Complaint>, AllocError> {
    let message = String::from_str(alloc, words)?;
    Ok(Some(Complaint { location, message }))
}

// A complaint of a version.
fn complain_of(
    alloc: Global,
    location: Location,
    number: u64,
    words: &str,
) -> Result<Option<Complaint>, AllocError> {
    let message = format!(in alloc; "`#version {number}` {words}")?;
    Ok(Some(Complaint { location, message }))
}

// A sentence on a word that isn't known, with the one that its author may have meant.
fn unknown_word(
    alloc: Global,
    sentence: &str,
    word: &str,
    known: &[&str],
) -> Result<String, AllocError> {
    let mut message = format!(in alloc; "{sentence} `{word}`")?;
    for other in known {
        if is_meant(word, other) {
            write!(message, ", did you mean `{other}`?")?;
            return Ok(message);
        }
    }
    Ok(message)
}

// Whether a word differs from a known one in the case of its letters or by a typing error.
fn is_meant(word: &str, known: &str) -> bool {
    word.eq_ignore_ascii_case(known) || is_near(word.as_bytes(), known.as_bytes())
}
