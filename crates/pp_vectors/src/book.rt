//! The book of cases, line by line.

use crate::case::{Act, Case};
use crate::found::{Items, by_items, by_replies, by_the_plain_program, calls_of};
use pp_rs::pp::Call;
use std::alloc::{AllocError, Global};
use std::io;
use test_shown::joined;

/// A book that is being read: what was read so far, and the case that is open.
#[derive(Drop)]
pub(crate) struct Book {
    alloc: Global,
    heading: String,
    under_heading: u32,
    cases: u32,
    case: Option<Case>,
}

impl Book {
    /// A book from which nothing was read.
    pub(crate) fn new(alloc: Global) -> Book {
        Book {
            alloc,
            heading: String::new(alloc),
            under_heading: 0,
            cases: 0,
            case: None,
        }
    }

    /// Reads one line.
    pub(crate) fn read(&mut self, rt: &impl Print, line: &str) -> io::Result<()> {
        if let Some(name) = line.strip_prefix("## ") {
            self.end_case(rt)?;
            self.case = Some(Case::new(self.alloc, name)?);
            return Ok(());
        }
        if let Some(heading) = line.strip_prefix("# ") {
            self.end_heading(rt)?;
            self.heading = String::from_str(self.alloc, heading)?;
            return Ok(());
        }
        if !self.takes(line)? {
            println!(rt; "not understood: {line}")?;
        }
        Ok(())
    }

    /// Ends the book, and prints how many cases it has.
    pub(crate) fn end(&mut self, rt: &impl Print) -> io::Result<()> {
        self.end_heading(rt)?;
        println!(rt; "{} cases", self.cases)
    }

    // Reads a line that is no heading and no name, or returns `false`.
    fn takes(&mut self, line: &str) -> Result<bool, AllocError> {
        if line.is_empty() || line.starts_with("//") {
            return Ok(true);
        }
        let alloc = self.alloc;
        let Some(case) = &mut self.case else {
            return Ok(false);
        };
        takes_part(alloc, case, line)
    }

    // Ends the case that is open, if one is, and says if it gives something else than expected.
    fn end_case(&mut self, rt: &impl Print) -> io::Result<()> {
        if let Some(case) = self.case.take() {
            self.under_heading = self.under_heading.saturating_add(1);
            self.cases = self.cases.saturating_add(1);
            check(rt, self.alloc, &case)?;
        }
        Ok(())
    }

    // Ends the heading that is open, if one is, and prints how many cases are under it.
    fn end_heading(&mut self, rt: &impl Print) -> io::Result<()> {
        self.end_case(rt)?;
        if self.under_heading > 0 {
            println!(rt; "{}: {}", self.heading.as_str(), self.under_heading)?;
        }
        self.under_heading = 0;
        Ok(())
    }
}

// Reads a line of a case, or returns `false`.
fn takes_part(alloc: Global, case: &mut Case, line: &str) -> Result<bool, AllocError> {
    if line == "|" {
        case.add_line("")?;
    } else if let Some(text) = line.strip_prefix("| ") {
        case.add_line(text)?;
    } else if let Some(text) = line.strip_prefix("& ") {
        case.add_times(1, text)?;
    } else if let Some(text) = line.strip_prefix("* ") {
        return takes_times(case, text);
    } else if let Some(line) = line.strip_prefix(">| ") {
        return case.add_content_line(line);
    } else if let Some(act) = line.strip_prefix("> ") {
        return takes_act(alloc, case, act);
    } else {
        return takes_answer(alloc, case, line);
    }
    Ok(true)
}

// Reads `N TEXT`, the text N times, or returns `false`.
fn takes_times(case: &mut Case, text: &str) -> Result<bool, AllocError> {
    if let Some((count, text)) = text.split_once(' ') {
        if let Ok(times) = count.parse::<u32>() {
            case.add_times(times, text)?;
            return Ok(true);
        }
    }
    Ok(false)
}

// Reads `next` or `NAME=CONTENT`, or returns `false`.
fn takes_act(alloc: Global, case: &mut Case, act: &str) -> Result<bool, AllocError> {
    if let Some((name, content)) = act.split_once('=') {
        case.acts.push(Act::Add {
            name: String::from_str(alloc, name)?,
            content: String::from_str(alloc, content)?,
        })?;
        return Ok(true);
    }
    if act == "next" {
        case.acts.push(Act::Next)?;
        return Ok(true);
    }
    Ok(false)
}

// Appends these to the expected answers.
fn more(alloc: Global, answers: &mut Option<String>, part: &str) -> Result<(), AllocError> {
    if let Some(text) = answers {
        text.push_str(", ")?;
        return text.push_str(part);
    }
    *answers = Some(String::from_str(alloc, part)?);
    Ok(())
}

// Reads what the case should give, or returns `false`.
fn takes_answer(alloc: Global, case: &mut Case, line: &str) -> Result<bool, AllocError> {
    if let Some(part) = line.strip_prefix("= ") {
        more(alloc, &mut case.expected, part)?;
    } else if let Some(part) = line.strip_prefix("~ ") {
        more(alloc, &mut case.after, part)?;
    } else {
        return Ok(false);
    }
    Ok(true)
}

// Says what was found, if it isn't what was expected.
fn compare(
    rt: &impl Print,
    case: &Case,
    by: &str,
    found: &str,
    wanted: Option<&String>,
) -> io::Result<()> {
    match wanted {
        None => Ok(()),
        Some(wanted) if wanted.as_str() == found => Ok(()),
        Some(_) => println!(rt; "{}: {by} gives {found}", case.name.as_str()),
    }
}

// Says if these items aren't what was expected: those up to the first error, and those after it.
fn compare_items(
    rt: &impl Print,
    alloc: Global,
    case: &Case,
    by: &str,
    items: &Items,
) -> io::Result<()> {
    let first = joined(alloc, &items.first)?;
    compare(rt, case, by, first.as_str(), case.expected.as_ref())?;
    let after = joined(alloc, &items.after)?;
    let by = format!(in alloc; "after the error {by}")?;
    compare(rt, case, by.as_str(), after.as_str(), case.after.as_ref())
}

// Says if the case gives something else than it should.
fn check(rt: &impl Print, alloc: Global, case: &Case) -> io::Result<()> {
    if case.expected.is_none() {
        println!(rt; "{}: without what it comes to", case.name.as_str())?;
    }
    let calls = calls_of(alloc, case)?;
    let plain = by_the_plain_program(alloc, case.source.as_str(), &calls)?;
    compare_items(rt, alloc, case, "the plain program", &plain)?;
    let replies = by_replies(alloc, case.source.as_str(), &calls)?;
    compare_items(rt, alloc, case, "the list of replies", &replies)?;
    let items = by_items(alloc, case)?;
    compare_items(rt, alloc, case, "the preprocessor", &items)
}
