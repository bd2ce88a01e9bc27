//! Laws of what is printed, over the definitions alone: each function's contract states one, for every
//! list of tokens, and for every source and its definitions. The bodies do nothing.

ghost use Rattle.pp_print.specs.OutputLaws.{LinesAreTheCut, HeldTokensAreSpelledAlike};
ghost use Rattle.pp_print.specs.RunLaws.{ARun, OneRun, FirstTokens};

/// The printed lines are the tokens in a row, cut into lines of ordinary tokens, each as long as possible, and lines of
/// one directive item. There is no other such cut.
pub fn lines()
    ensures { LinesAreTheCut }
{}

/// The tokens that a directive item holds are spelled as they would be on a line of their own.
pub fn held_tokens()
    ensures { HeldTokensAreSpelledAlike }
{}

/// A source to which definitions were added has a run, up to the end or to the first error item. It has no other run,
/// and so no other output. The tokens that it gives first are the first tokens of its run.
pub fn runs()
    ensures some { ARun }
    ensures one { OneRun }
    ensures first { FirstTokens }
{}
