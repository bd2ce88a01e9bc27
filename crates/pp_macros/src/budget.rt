//! A budget of steps.

use std::alloc::{AllocError, Global};
use std::cell::Cell;
use std::marker::Model;
use std::rc::Rc;

/// The steps that are left for a source, if they are bounded. All readers and expanders of the source share them.
///
/// A step is a token that is read, put on a list, or passed in the body or an argument of a macro. Some thousand bytes
/// of dead text may be one step. To run out of steps is answered as a failed allocation is.
#[derive(Drop)]
pub struct Budget {
    // One more than are left, or 0 once more were needed.
    left: Option<Rc<Cell<u64>>>,
}

impl Model for Budget {
    ghost Value = { Unit {0} };

    ghost view = { λ b. tt };
}

impl Budget {
    /// Any number of steps. It allocates nothing.
    pub fn unbounded() -> Budget {
        Budget { left: None }
    }

    /// This many steps.
    pub fn of_steps(alloc: Global, steps: u64) -> Result<Budget, AllocError> {
        let left = Rc::new(alloc, Cell::new(steps.saturating_add(1)))?;
        Ok(Budget { left: Some(left) })
    }

    /// The same steps: what is paid from one is gone from both.
    pub fn share(&self) -> Result<Budget, AllocError> {
        match &self.left {
            Some(left) => Ok(Budget {
                left: Some(left.clone()?),
            }),
            None => Ok(Budget::unbounded()),
        }
    }

    /// Pays for this many steps. It fails if fewer are left; then none is left.
    #[inline(always)]
    pub fn pay(&self, steps: usize) -> Result<(), AllocError> {
        match &self.left {
            Some(left) => pay_from(left, steps as u64),
            None => Ok(()),
        }
    }

    /// Whether more steps were needed than there were.
    pub fn is_over(&self) -> bool {
        match &self.left {
            Some(left) => left.get() == 0,
            None => false,
        }
    }
}

// Pays for this many steps from those that are left.
fn pay_from(left: &Cell<u64>, steps: u64) -> Result<(), AllocError> {
    let before = left.get();
    if before <= steps {
        left.set(0);
        return Err(AllocError);
    }
    left.set(before - steps);
    Ok(())
}
