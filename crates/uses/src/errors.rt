//! All errors of a source, as compilers print them.

use pp_rs::lexer::line_column;
use pp_rs::pp::Preprocessor;
use pp_rs::token::{Location, PlacedError, PreprocessorError};
use std::alloc::{AllocError, Global};
use std::io;

/// Prints a line `FILE:LINE:COLUMN: error: SENTENCE` for each error of a source. The preprocessor goes on after each,
/// except after `OutOfMemory`.
pub fn print_errors(rt: &impl Print, alloc: Global, file: &str, source: &str) -> io::Result<()> {
    let Some(mut pp) = Preprocessor::try_new(alloc, source) else {
        return println!(rt; "{file}: error: the source is too long");
    };
    let printed = print_items(rt, &mut pp, file, source);
    drop(pp);
    printed
}

fn print_items(
    rt: &impl Print,
    pp: &mut Preprocessor<'_>,
    file: &str,
    source: &str,
) -> io::Result<()> {
    'items: while let Some(item) = pp.next() {
        match item {
            Ok(token) => drop(token),
            Err((PreprocessorError::OutOfMemory, _)) => Err(PlacedError::from(AllocError))?,
            Err((error, _)) => print_error(rt, file, source, &error, pp.place())?,
        }
    }
    Ok(())
}

fn print_error(
    rt: &impl Print,
    file: &str,
    source: &str,
    error: &PreprocessorError,
    place: Location,
) -> io::Result<()> {
    match line_column(source, place.start as usize) {
        Some((line, column)) => println!(rt; "{file}:{line}:{column}: error: {error}"),
        None => println!(rt; "{file}: error: {error}"),
    }
}
