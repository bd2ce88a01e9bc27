//! What became of conditions, and why lines aren't compiled.

use crate::page::Sight;
use crate::page::marks::plain_mark;
use glslpp_html::source::{Class, Mark, Note};
use glslpp_parts::condition::{Branch, BranchWord, Tested};
use std::alloc::AllocError;

impl<'p, 'a> Sight<'p, 'a> {
    /// Appends marks for the names that conditions of a text test, and for what became of its directives.
    pub(crate) fn push_branches(
        &self,
        marks: &mut Vec<Mark>,
        number: u32,
    ) -> Result<(), AllocError> {
        if !self.conditions.are_known {
            return Ok(());
        }
        let branches = self.conditions.branches(number);
        for branch in branches {
            if branch.is_known {
                self.push_branch(marks, number, branches, branch)?;
            }
        }
        Ok(())
    }

    fn push_branch(
        &self,
        marks: &mut Vec<Mark>,
        number: u32,
        branches: &[Branch],
        branch: &Branch,
    ) -> Result<(), AllocError> {
        if branch.is_reached {
            for tested in branch.tested.as_slice() {
                self.push_tested(marks, number, branch, tested)?;
            }
        }
        if branch.word != BranchWord::Endif && is_live(branches, branch) {
            self.push_verdict(marks, number, branches, branch)?;
        }
        Ok(())
    }

    // Appends a mark for a name that a condition tests.
    fn push_tested(
        &self,
        marks: &mut Vec<Mark>,
        number: u32,
        branch: &Branch,
        tested: &Tested,
    ) -> Result<(), AllocError> {
        if !tested.is_defined {
            return self.push_undefined(marks, branch, tested);
        }
        let (name, place) = (tested.name.as_str(), tested.location);
        match self.definition_at(name, number, place.start) {
            Some(defined) => self.push_macro(marks, number, name, place, defined),
            None => Ok(()),
        }
    }

    fn push_undefined(
        &self,
        marks: &mut Vec<Mark>,
        branch: &Branch,
        tested: &Tested,
    ) -> Result<(), AllocError> {
        let (start, end) = (tested.location.start as usize, tested.location.end as usize);
        marks.push(plain_mark(self.alloc, start, end, Class::Undefined))?;
        let counts = if branch.counts(tested) {
            ", and counts as 0"
        } else {
            ""
        };
        match marks.last_mut() {
            Some(mark) => write!(mark.title.text, "{} isn't defined{counts}", tested.name),
            None => Ok(()),
        }
    }

    // Appends a mark for what became of a directive behind its line.
    fn push_verdict(
        &self,
        marks: &mut Vec<Mark>,
        number: u32,
        branches: &[Branch],
        branch: &Branch,
    ) -> Result<(), AllocError> {
        let end = branch.end as usize;
        let (class, verdict) = if branch.is_read {
            (Class::Taken, "taken: ")
        } else {
            (Class::Passed, "not taken: ")
        };
        marks.push(plain_mark(self.alloc, end, end, class))?;
        match marks.last_mut() {
            Some(mark) => {
                mark.note.push_str(verdict)?;
                self.push_cause(mark, number, branches, branch)
            }
            None => Ok(()),
        }
    }

    // Puts on a mark why a branch is taken or not.
    fn push_cause(
        &self,
        mark: &mut Mark,
        number: u32,
        branches: &[Branch],
        branch: &Branch,
    ) -> Result<(), AllocError> {
        match taken_before(branches, branch) {
            Some(other) => {
                let line = self.sheets.line(number, other.start);
                write!(mark.note, "line {line} is taken")?;
                self.sheets
                    .push_line_id(&mut mark.title.target, number, other.start)
            }
            None => push_condition(&mut mark.note, branch),
        }
    }

    /// Appends why what follows a branch of a text isn't compiled, with the line that decides it.
    pub(crate) fn push_reason(
        &self,
        reason: &mut Note,
        number: u32,
        branches: &[Branch],
        branch: &Branch,
    ) -> Result<(), AllocError> {
        let instead = taken_before(branches, branch);
        let decisive = instead.unwrap_or(branch);
        let beginning = if instead.is_some() {
            "not compiled: instead "
        } else {
            "not compiled: "
        };
        reason.text.push_str(beginning)?;
        self.sheets
            .push_directive(reason, number, decisive.start, decisive.end, number)?;
        reason.text.push_str(": ")?;
        push_condition(&mut reason.text, decisive)
    }
}

// Appends what a condition became that was computed.
fn push_condition(text: &mut String, branch: &Branch) -> Result<(), AllocError> {
    match (branch.word, branch.tested.first()) {
        (BranchWord::Ifdef | BranchWord::Ifndef, Some(tested)) => {
            let is = if tested.is_defined { "is" } else { "isn't" };
            write!(text, "{} {is} defined", tested.name)
        }
        (BranchWord::Else, _) => text.push_str("nothing before it is"),
        _ => text.push_str(branch.value.as_str()),
    }
}

// Whether the block of a branch is read.
fn is_live(branches: &[Branch], branch: &Branch) -> bool {
    match branches.get(branch.first) {
        Some(first) => first.is_reached,
        None => false,
    }
}

// The branch of the same block that is taken in place of this one.
fn taken_before<'b>(branches: &'b [Branch], branch: &Branch) -> Option<&'b Branch> {
    if branch.is_reached || branch.is_read {
        return None;
    }
    branches.get(branch.taken?)
}

/// Appends of each branch the outermost around it, or itself, after which nothing is read.
pub(crate) fn push_dead_branches(
    dead: &mut Vec<Option<usize>>,
    branches: &[Branch],
) -> Result<(), AllocError> {
    for (index, branch) in branches.iter().enumerate() {
        let around = dead_around(dead.as_slice(), branch.around);
        let found = match around {
            None if branch.is_known && !branch.is_read => Some(index),
            _ => around,
        };
        dead.push(found)?;
    }
    Ok(())
}

fn dead_around(dead: &[Option<usize>], around: Option<usize>) -> Option<usize> {
    match dead.get(around?) {
        Some(found) => *found,
        None => None,
    }
}

/// Returns the outermost branch for which a line isn't read that begins and ends at these byte offsets. The line of a
/// directive that begins or ends a branch is read if what is around its block is.
pub(crate) fn dead_branch(
    branches: &[Branch],
    dead: &[Option<usize>],
    start: usize,
    end: usize,
) -> Option<usize> {
    let behind = branches.partition_point(|branch| (branch.end as usize) <= start);
    match branches.get(behind) {
        Some(branch) if (branch.start as usize) < end => dead_around(dead, branch.around),
        _ => dead_around(dead, behind.checked_sub(1)),
    }
}
