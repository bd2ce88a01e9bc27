//! Laws of expressions, over their definitions alone: each function's contract states one, for every
//! line. The bodies do nothing.

ghost use Rattle.pp_expression.specs.ExpressionLaws.{OneValue, OneFault, NotBoth, AnEvaluation};

/// An expression at the front of a line has at most one value and one end.
pub fn one_value()
    ensures { OneValue }
{}

/// A line has at most one first fault, found at one place.
pub fn one_fault()
    ensures { OneFault }
{}

/// No line has both a value and a first fault.
pub fn not_both()
    ensures { NotBoth }
{}

/// A line has a value, or a first fault.
pub fn an_evaluation()
    ensures { AnEvaluation }
{}
