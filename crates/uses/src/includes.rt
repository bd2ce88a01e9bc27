//! A shader with the files that its `#include` lines name.

ghost use Rattle.std.specs.Prelude.{◌≡◌, false, List, map, IfOk, IfSome, OnOk, string_bytes};
ghost use Rattle.pp_lexer.specs.Location.{nowhere};
ghost use Rattle.pp_lexer.specs.Rules.{glsl, with_includes};
ghost use Rattle.pp_lexer.specs.declared.rules.Profile.TheVariants.{Core};
ghost use Rattle.pp_lexer.specs.declared.token.Token.{Token as TheToken};
ghost use Rattle.pp_model.specs.Run.{items_by};
ghost use Rattle.pp_rs.specs.Comes.{start_by};
ghost use Rattle.pp_rs.specs.Kept.{Stands, asked_line, is_spent, item_text, rules_of};
ghost use Rattle.pp_rs.specs.Output.{output};
ghost use Rattle.pp_rs.specs.Preprocessing.{is_refusal};
ghost use Rattle.uses.specs.Includes.{Includes, IsAsked, IsWhole, file_of};

use anyhow::{Context, Result, bail};
use pp_rs::pp::{Preprocessor, spell_items};
use pp_rs::rules::{Profile, Rules};
use pp_rs::token::{PlacedError, PreprocessorError, Token};
use std::alloc::Global;
use std::collections::BTreeMap;

// How many items a source may give. A file that includes itself twice would give 2^200 of them.
const MOST_ITEMS: u64 = 10_000_000;

// The source or a file that was read, with its name.
#[derive(Clone, Copy)]
struct SourceFile<'a> {
    name: &'a str,
    text: &'a str,
}

/// The preprocessed source as lines, by the rules of GLSL 4.50. A line `#include "NAME"`, of files too, gives what the
/// file of that name gives. An error has the name of its file and its line.
pub fn with_files<'a>(
    alloc: Global,
    name: &'a str,
    source: &'a str,
    files: &'a BTreeMap<String, String>,
) -> Result<String>
    ensures { IfOk result (λ text. (tokens : List TheToken)
        × IsWhole (file_of files.now) (with_includes (glsl 450 Core)) source.now tokens
        × (string_bytes text ≡ output tokens)) }
{
    let rules = Rules::glsl(450, Profile::Core).with_includes();
    let Some(mut pp) = Preprocessor::try_with_rules(alloc, source, rules) else {
        bail!("the source is too long");
    };
    let tokens = read_all(alloc, &mut pp, SourceFile { name, text: source }, files);
    drop(pp);
    Ok(text_of(alloc, &tokens?)?)
}

fn text_of(alloc: Global, tokens: &[Token]) -> Result<String, PlacedError>
    ensures { IfOk result (λ text. string_bytes text ≡ output tokens.now) }
{
    Ok(spell_items(alloc, tokens)?)
}

// The tokens of the source and of the files that it includes.
fn read_all<'a>(
    alloc: Global,
    pp: &mut Preprocessor<'a>,
    source: SourceFile<'a>,
    files: &'a BTreeMap<String, String>,
) -> Result<Vec<Token>>
    requires unspent { is_spent pp.old ≡ false }
    requires start { Stands pp.old (start_by (rules_of pp.old) (items_by (rules_of pp.old) source.text.now)) }
    ensures { IfOk result (λ tokens. IsWhole (file_of files.now) (rules_of pp.old) source.entry.text.now tokens.items) }
{
    let mut tokens = Vec::new(alloc);
    let mut read = Vec::new(alloc);
    read.push(source)?;
    for _ in 0..MOST_ITEMS {
        let Some(item) = pp.next() else {
            return Ok(tokens);
        };
        let error = match item {
            Ok(token) => {
                tokens.push(token)?;
                continue;
            }
            Err((error, _)) => error,
        };
        let included = include_asked(pp, &mut read, files, &error);
        drop(error);
        included?;
    }
    bail!("the source gives too many items")
}

// Includes the file for which the last item asks, or says where the error is.
fn include_asked<'a>(
    pp: &mut Preprocessor<'a>,
    read: &mut Vec<SourceFile<'a>>,
    files: &'a BTreeMap<String, String>,
    error: &PreprocessorError,
) -> Result<()>
    ensures memory { OnOk result (is_refusal (Some (Err (error.now, nowhere))) ≡ false) }
    ensures included { OnOk result (Includes (file_of files.now) pp.old (map (λ t. t.text.now) read.old.items) pp.new
        (map (λ t. t.text.now) read.new.items)) }
{
    if ran_out(error) {
        bail!("{error}");
    }
    let line = pp.place().line;
    let from = match read.get(pp.origin().text as usize) {
        Some(text) => text.name,
        None => "",
    };
    let Some(name) = asked_name(pp, read) else {
        bail!("{from}:{line}: {error}");
    };
    let Some(file) = files.get(name) else {
        bail!("{from}:{line}: there is no file {name}");
    };
    let text = file.as_str();
    pp.try_include(text).context(name)?;
    read.push(SourceFile { name, text })?;
    Ok(())
}

// Whether the error is that memory ran out, which is in no line.
fn ran_out(error: &PreprocessorError) -> bool
    ensures { result ≡ is_refusal (Some (Err (error.now, nowhere))) }
{
    matches!(error, PreprocessorError::OutOfMemory)
}

// What is between the first two `"` of the line for which the last item asks.
fn asked_name<'a>(pp: &Preprocessor<'_>, read: &[SourceFile<'a>]) -> Option<&'a str>
    ensures { IfSome result (λ name. IsAsked pp.now (map (λ t. t.text.now) read.now) name.now) }
{
    let rest = pp.include_line()?;
    let asking = read.get(pp.origin().text as usize)?;
    let line = asking.text.get(rest.start as usize..rest.end as usize)?;
    let (_, quoted) = line.split_once('"')?;
    let (name, _) = quoted.split_once('"')?;
    Some(name)
}
