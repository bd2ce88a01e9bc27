//! Preprocesses the GLSL source on its standard input and prints the result on its standard output. Each argument of
//! its command line is a definition `NAME=CONTENT`; of two definitions of one name the later one counts.
#![tactic(auto)]

use pp_print::{OverRead, OverWrite, RunEnd, RunFault, message, run, split_word, status};
use std::alloc::Global;
use std::env;
use std::process::ExitCode;

fn main(rt: HostRuntime) -> ExitCode {
    let end = preprocess(&rt);
    report(&rt, &end);
    ExitCode::from(status(&end))
}

// Takes the definitions from the command line, and runs.
fn preprocess(rt: &HostRuntime) -> Result<RunEnd, RunFault> {
    let Ok(arguments) = env::args(rt) else {
        return Err(RunFault::BadWord);
    };
    // The first is the program's name.
    let words: Vec<String> = arguments.skip(1).collect(rt.alloc())?;
    let definitions = split_words(rt.alloc(), words.as_slice())?;
    let mut reader = OverRead::new(rt.stdin());
    let mut writer = OverWrite::new(rt.stdout());
    run(rt.alloc(), definitions.as_slice(), &mut reader, &mut writer)
}

// The names and contents of arguments `NAME=CONTENT`.
fn split_words<'a>(
    alloc: Global,
    words: &'a [String],
) -> Result<Vec<(&'a str, &'a str)>, RunFault> {
    let mut definitions = Vec::new(alloc);
    for word in words {
        let Some(definition) = split_word(word.as_str()) else {
            return Err(RunFault::BadWord);
        };
        definitions.push(definition)?;
    }
    Ok(definitions)
}

// Prints on the standard error how the run ended, unless all was printed.
fn report(rt: &HostRuntime, end: &Result<RunEnd, RunFault>) {
    match message(rt.alloc(), end) {
        Ok(line) if line.is_empty() => {}
        Ok(line) => {
            let _ = eprintln!(rt; "{line}");
        }
        Err(_) => {
            let _ = eprintln!(rt; "pp_print: out of memory");
        }
    }
}
