//! Worked cases: reads a book of sources, each with what it should give, from standard input, runs the plain program of
//! the definitions and the preprocessor over each, and prints which give something else, and how many are under each
//! heading. The book says at its head how it is written.
#![tactic(auto)]

mod book;
mod case;
mod found;

use book::Book;
use std::io;

fn main(rt: HostRuntime) -> io::Result<()> {
    let mut book = Book::new(rt.alloc());
    for line in rt.lines(rt.alloc()) {
        let line = line?;
        book.read(&rt, line.as_str())?;
    }
    book.end(&rt)
}
