//! On which files an output depends, as Make and Ninja read it.

ghost use Rattle.std.specs.Prelude.{◌≡◌, ◌++◌, ◌∷◌, [], IfOk, OnOk, map, string_bytes};
ghost use Rattle.std.specs.Str.{chars};
ghost use Rattle.glslpp_parts.specs.FileNames.{backslashes_after, escape_of, escaped, is_blank, with_suffix};
ghost use Rattle.glslpp_parts.specs.MakeRules.{spaced_words, prerequisites, empty_rules, rule};

use std::alloc::{AllocError, Global};
use std::path::Path;

/// Returns the rule by which these targets depend on the files: `TARGET: FILE`, and each other file on a line of its
/// own. The targets are written as they are. If it is asked for, each file but the first also has an empty rule, so
/// that Make doesn't fail where it is gone.
pub fn rule(
    alloc: Global,
    targets: &[&str],
    files: &[String],
    has_phony_targets: bool,
) -> Result<String, AllocError>
    ensures { IfOk result (λ text. chars (string_bytes text) ≡ rule (map (λ target. chars target.now) targets.now)
        (map (λ file. chars (string_bytes file)) files.now) has_phony_targets) }
{
    let mut text = String::new(alloc);
    push_targets(&mut text, targets)?;
    text.push(':')?;
    push_prerequisites(alloc, &mut text, files)?;
    text.push('\n')?;
    if has_phony_targets {
        push_empty_rules(alloc, &mut text, files)?;
    }
    Ok(text)
}

// Appends targets.
fn push_targets(text: &mut String, targets: &[&str]) -> Result<(), AllocError>
    ensures { OnOk result (chars (string_bytes text.new)
        ≡ chars (string_bytes text.old) ++ spaced_words (map (λ target. chars target.now) targets.now)) }
{
    let Some((first, others)) = targets.split_first() else {
        return Ok(());
    };
    text.push_str(first)?;
    for other in others {
        text.push(' ')?;
        text.push_str(other)?;
    }
    Ok(())
}

// Appends the files on which targets depend.
fn push_prerequisites(alloc: Global, text: &mut String, files: &[String]) -> Result<(), AllocError>
    ensures { OnOk result (chars (string_bytes text.new)
        ≡ chars (string_bytes text.old) ++ prerequisites (map (λ file. chars (string_bytes file)) files.now)) }
{
    let Some((first, others)) = files.split_first() else {
        return Ok(());
    };
    text.push(' ')?;
    push_name(alloc, text, first.as_str())?;
    for other in others {
        text.push_str(" \\\n  ")?;
        push_name(alloc, text, other.as_str())?;
    }
    Ok(())
}

// Appends an empty rule for each file but the first.
fn push_empty_rules(alloc: Global, text: &mut String, files: &[String]) -> Result<(), AllocError>
    ensures { OnOk result (chars (string_bytes text.new)
        ≡ chars (string_bytes text.old) ++ empty_rules (map (λ file. chars (string_bytes file)) files.now)) }
{
    let Some((first, others)) = files.split_first() else {
        return Ok(());
    };
    for other in others {
        push_name(alloc, text, other.as_str())?;
        text.push_str(":\n")?;
    }
    Ok(())
}

/// Returns a name as it stands in a rule.
pub fn escaped(alloc: Global, name: &str) -> Result<String, AllocError>
    ensures { IfOk result (λ text. chars (string_bytes text) ≡ escaped (chars name.now)) }
{
    let mut text = String::new(alloc);
    push_name(alloc, &mut text, name)?;
    Ok(text)
}

// Appends a name as it stands in a rule.
fn push_name(alloc: Global, text: &mut String, name: &str) -> Result<(), AllocError>
    ensures { OnOk result (chars (string_bytes text.new)
        ≡ chars (string_bytes text.old) ++ escaped (chars name.now)) }
{
    let mut backslashes = String::new(alloc);
    'characters: for c in name.chars() {
        push_escaped(text, backslashes.as_str(), c)?;
        count(&mut backslashes, c)?;
    }
    Ok(())
}

// Appends a character that follows these backslashes.
fn push_escaped(text: &mut String, backslashes: &str, c: char) -> Result<(), AllocError>
    ensures { OnOk result (chars (string_bytes text.new)
        ≡ chars (string_bytes text.old) ++ escape_of (chars backslashes.now) c ++ c ∷ []) }
{
    push_escape(text, backslashes, c)?;
    text.push(c)
}

// Appends what is before a character that follows these backslashes.
fn push_escape(text: &mut String, backslashes: &str, c: char) -> Result<(), AllocError>
    ensures { OnOk result (chars (string_bytes text.new)
        ≡ chars (string_bytes text.old) ++ escape_of (chars backslashes.now) c) }
{
    if is_blank(c) {
        text.push_str(backslashes)?;
        return text.push_str("\\");
    }
    match c {
        '#' => text.push_str("\\"),
        '$' => text.push_str("$"),
        _ => Ok(()),
    }
}

fn is_blank(c: char) -> bool
    ensures { result ≡ is_blank c }
{
    c == ' ' || c == '\t'
}

// Adds a backslash to those before it, which count no more after another character.
fn count(backslashes: &mut String, c: char) -> Result<(), AllocError>
    ensures { OnOk result (chars (string_bytes backslashes.new)
        ≡ backslashes_after (chars (string_bytes backslashes.old)) c) }
{
    if c == '\\' {
        return backslashes.push_str("\\");
    }
    backslashes.clear();
    Ok(())
}

/// Returns the name of a source without its folder, and with this in place of its suffix.
pub fn with_suffix(alloc: Global, source: &str, suffix: &str) -> Result<String, AllocError>
    ensures { IfOk result (λ name. string_bytes name ≡ with_suffix source.now suffix.now) }
{
    let stem = Path::new(source).file_stem().unwrap_or(source);
    format!(in alloc; "{stem}{suffix}")
}
