//! Uses of `pp_rs`, as a user writes them, each in a module of its own. The program runs six of them over the source on
//! its standard input: two promise nothing and have no proof file (`errors`, `requirements`), and four have contracts
//! that say what they give (`highlighter`, `minifier`, `variants`, `version`). Four more have such contracts
//! (`code_text`, `defined_first`, `includes`, `one_token`), and `from_macros` promises nothing; these run over
//! examples. With the argument `requirements` it does that one alone, and ends with 1 if the source has an error.
#![tactic(auto)]

mod code_text;
mod defined_first;
mod errors;
mod from_macros;
mod highlighter;
mod includes;
mod minifier;
mod one_token;
mod requirements;
mod variants;
mod version;

use anyhow::Result;
use code_text::code_text;
use defined_first::first_item_with;
use errors::print_errors;
use from_macros::show_from_macros;
use highlighter::highlight;
use includes::with_files;
use minifier::minify;
use one_token::replies_to_a;
use pp_rs::pp::{Outcome, PreprocessorItem, Reply};
use pp_rs::token::{Location, PreprocessorError};
use requirements::show_requirements;
use std::alloc::Global;
use std::collections::BTreeMap;
use std::{env, io};
use variants::build_variants;
use version::check_version;

// A source with errors, each of which is printed.
const FAULTY: &str = "int a = 0x;\n#define F(x) x\n  F(1, 2) #\n#if )\n#endif\n";

// The third example of the C standard, section 6.10.3.5. It says that its line is
// `f(2 * (y+1)) + f(2 * (f(2 * (z[0])))) % f(2 * (0)) + t(1);`.
const REDEFINED: &str =
    "#define x 3\n#define f(a) f(x * (a))\n#undef x\n#define x 2\n#define g f\n#define z z[0]\n\
#define t(a) a\nf(y+1) + f(f(z)) % t(t(g)(0) + t)(1);\n";

// Files that sources include: one that includes another, one with an error on its second line, and one that includes
// itself.
const FILES: &[(&str, &str)] = &[
    (
        "light.glsl",
        "#include \"pi.glsl\" // once\n#define LIGHT(n) max(n.z, 0.0) / PI\n",
    ),
    (
        "pi.glsl",
        "#ifndef PI\n#define PI 3.14159\n#endif\nconst float tau = 2.0 * PI;\n",
    ),
    ("broken.glsl", "float a;\n#if )\n#endif\n"),
    ("deep.glsl", "#include \"deep.glsl\"\n"),
];

// Sources that include them, and one file that isn't there.
const INCLUDING: &[&str] = &[
    "#version 450 core\n#include \"light.glsl\"\nfloat c = LIGHT(normal);\n",
    "#include \"broken.glsl\"\n",
    "\n#include \"fog.glsl\"\n",
    "#include \"deep.glsl\"\n",
];

fn main(rt: HostRuntime) -> Result<()> {
    let text = io::read_to_string(rt.alloc(), rt.stdin())?;
    let shown = if is_asked_for_requirements(&rt) {
        show_requirements(&rt, rt.alloc(), text.as_str())
    } else {
        show_uses(&rt, rt.alloc(), text.as_str())
    };
    drop(text);
    shown
}

// Whether the first argument is `requirements`.
fn is_asked_for_requirements(rt: &HostRuntime) -> bool {
    let Ok(mut arguments) = env::args(rt) else {
        return false;
    };
    // The first is the program's name.
    match arguments.nth(1) {
        Some(argument) => argument.as_str() == "requirements",
        None => false,
    }
}

fn show_uses(rt: &impl Print, alloc: Global, source: &str) -> Result<()> {
    show(rt, "highlighted", highlight(alloc, source)?)?;
    println!(rt; "requirements:")?;
    show_requirements(rt, alloc, source)?;
    let verdict = check_version(alloc, source)?;
    println!(rt; "version: {verdict}")?;
    show(rt, "variants", build_variants(alloc, source, &["0", "1"])?)?;
    show(rt, "minified", minify(alloc, source)?)?;
    if let Err(refusal) = build_variants(alloc, source, &["#"]) {
        println!(rt; "no variant: {refusal:#}")?;
    }
    print_errors(rt, alloc, "faulty", FAULTY)?;
    show_examples(rt, alloc)
}

// Shows what the callers give that run over examples.
fn show_examples(rt: &impl Print, alloc: Global) -> Result<()> {
    'replies: for reply in replies_to_a(alloc)? {
        show_reply(rt, &reply)?;
    }
    show_code(rt, code_text(alloc, REDEFINED))?;
    show_code(rt, code_text(alloc, "#version 300 es\na b\n  #error c\n"))?;
    show_first(rt, first_item_with(alloc, "STEPS + 1", "STEPS", "0x10"))?;
    show_first(rt, first_item_with(alloc, "STEPS + 1", "STEPS", "4 #"))?;
    show_from_macros(rt, alloc, REDEFINED)?;
    show_including(rt, alloc)
}

// Shows what the sources give that include files.
fn show_including(rt: &impl Print, alloc: Global) -> Result<()> {
    let mut files = BTreeMap::new(alloc);
    for (name, text) in FILES {
        files.insert(
            String::from_str(alloc, name)?,
            String::from_str(alloc, text)?,
        )?;
    }
    for source in INCLUDING {
        match with_files(alloc, "shader", source, &files) {
            Ok(text) => show(rt, "with files", text)?,
            Err(error) => println!(rt; "no text: {error:#}")?,
        }
    }
    Ok(())
}

fn show_reply(rt: &impl Print, reply: &Reply) -> io::Result<()> {
    match reply {
        Reply::Given(Outcome::Token(token)) => println!(rt;
            "a: {token}, line {}",
            token.location.line
        ),
        Reply::Given(Outcome::End) => println!(rt; "a: the end"),
        _ => println!(rt; "a: another reply"),
    }
}

fn show_code(
    rt: &impl Print,
    code: Result<String, (PreprocessorError, Location)>,
) -> io::Result<()> {
    match code {
        Ok(text) => println!(rt; "code: {text}"),
        Err((error, place)) => println!(rt; "no code: {error}, line {}", place.line),
    }
}

fn show_first(
    rt: &impl Print,
    item: Result<Option<PreprocessorItem>, (PreprocessorError, Location)>,
) -> io::Result<()> {
    match item {
        Ok(Some(Ok(token))) => println!(rt; "first: {token}"),
        Ok(Some(Err((error, _)))) => println!(rt; "first: {error}"),
        Ok(None) => println!(rt; "first: the end"),
        Err((error, place)) => println!(rt; "not defined: {error}, line {}", place.line),
    }
}

fn show(rt: &impl Print, title: &str, text: String) -> io::Result<()> {
    let shown = println!(rt; "{title}:\n{text}");
    drop(text);
    shown
}
