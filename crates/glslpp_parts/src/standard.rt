//! The version of a source without a `#version`, as `-std=` names it: `450`, `330core`, `310es`.

ghost use Rattle.std.specs.Prelude.{◌≡◌, IfOk, IsTrue, MatchOption, OnOk, map, string_bytes};
ghost use Rattle.glslpp_parts.specs.LongOptions.{each_option};
ghost use Rattle.glslpp_parts.specs.Standards.{IsStandard, has_profile, profile_word, standard_word};
ghost use Rattle.glslpp_parts.specs.Standards.{lengthened};
ghost use Rattle.glslpp_parts.specs.Version.{default_version};

use crate::directive_check::{Edition, edition_of};
use crate::failure::{Failure, failure_of};
use crate::version::{DEFAULT_VERSION, Version};
use pp_rs::rules::Profile;
use std::alloc::{AllocError, Global};

// The numbers of GLSL's versions.
const NUMBERS: [u64; 17] = [
    100, 110, 120, 130, 140, 150, 300, 310, 320, 330, 400, 410, 420, 430, 440, 450, 460,
];

const PROFILES: [Option<Profile>; 4] = [
    None,
    Some(Profile::Core),
    Some(Profile::Compatibility),
    Some(Profile::Es),
];

/// Gives each word `-std=VERSION` that is an option the second dash of a long one, as `clap` asks for it. From a word
/// `--` on there are no options. It takes memory for each such word, and fails only for want of it.
pub fn lengthen_standards(alloc: Global, words: &mut [String]) -> Result<(), AllocError>
    ensures { OnOk result (map string_bytes words.new ≡ each_option lengthened (map string_bytes words.old)) }
{
    for word in words.iter_mut() {
        if word.as_str() == "--" {
            return Ok(());
        }
        lengthen(alloc, word)?;
    }
    Ok(())
}

fn lengthen(alloc: Global, word: &mut String) -> Result<(), AllocError>
    ensures { OnOk result (string_bytes word.new ≡ lengthened (string_bytes word.old)) }
{
    if word.starts_with("-std=") {
        *word = format!(in alloc; "-{word}")?;
    }
    Ok(())
}

/// Returns the version of a source without a `#version`: the one that the word after `-std=` names, or 100 without such
/// a word. It fails at a word that names no version of GLSL.
pub fn version_without_line(alloc: Global, word: Option<&str>) -> Result<Version, Failure>
    ensures { IfOk result (λ version. MatchOption word.entry (version ≡ default_version)
        (λ word. IsStandard word.now version)) }
{
    match word {
        Some(word) => standard_version(alloc, word),
        None => Ok(DEFAULT_VERSION),
    }
}

fn standard_version(alloc: Global, word: &str) -> Result<Version, Failure>
    ensures { IfOk result (IsStandard word.now) }
{
    for number in NUMBERS {
        for profile in PROFILES {
            let version = Version { number, profile };
            if is_named_by(alloc, word, version)? {
                return Ok(version);
            }
        }
    }
    Err(refusal(alloc, word))
}

// Whether GLSL has the version, and the word names it.
fn is_named_by(alloc: Global, word: &str, version: Version) -> Result<bool, AllocError>
    ensures { IfOk result (λ is. IsTrue is → IsStandard word.now version) }
{
    if !has_profile(edition_of(version.number), version.profile) {
        return Ok(false);
    }
    let name = standard_word(alloc, version)?;
    Ok(name.as_str() == word)
}

// Whether a version of such an edition may have this profile in its `#version`.
fn has_profile(edition: Edition, profile: Option<Profile>) -> bool
    ensures { result ≡ has_profile edition profile }
{
    match edition {
        Edition::WithoutProfiles => profile.is_none(),
        Edition::Es => matches!(profile, Some(Profile::Es)),
        Edition::Desktop => !matches!(profile, Some(Profile::Es)),
        Edition::Unknown => false,
    }
}

// The word for a version: its number and its profile.
fn standard_word(alloc: Global, version: Version) -> Result<String, AllocError>
    ensures { IfOk result (λ word. string_bytes word ≡ standard_word version) }
{
    let profile = profile_word(version.profile);
    format!(in alloc; "{}{profile}", version.number)
}

fn profile_word(profile: Option<Profile>) -> &'static str
    ensures { result.now ≡ profile_word profile }
{
    match profile {
        None => "",
        Some(Profile::Es) => "es",
        Some(Profile::Core) => "core",
        Some(Profile::Compatibility) => "compatibility",
    }
}

fn refusal(alloc: Global, word: &str) -> Failure {
    match format!(in alloc; "-std={word}") {
        Ok(subject) => failure_of(
            alloc,
            subject.as_str(),
            "GLSL has no such version: one is written as 450, 330core or 310es",
        ),
        Err(_) => Failure::OutOfMemory,
    }
}
