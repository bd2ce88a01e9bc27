//! Laws of preprocessing, over the definitions alone: each function's contract states one, for every source. The bodies
//! do nothing.

ghost use Rattle.std.specs.Prelude.{ℕ};
ghost use Rattle.pp_lexer.specs.ItemLaws.{TokensLieWithin, TokensHaveLines, ItemsAreFinite};
ghost use Rattle.pp_lexer.specs.PhaseLaws.{PairsCountOnce, LinesCountNewlines, SourcesNeverFall};
ghost use Rattle.pp_model.specs.BlockLaws.{OneBranch, NoneAfterTaken, DeadTextGivesNothing};
ghost use Rattle.pp_model.specs.Emitting.{answers_at};
ghost use Rattle.pp_model.specs.ExistenceLaws.{ARun};
ghost use Rattle.pp_model.specs.ExpansionLaws.{OneReads};
ghost use Rattle.pp_model.specs.IncludeLaws.{AskedIsAtLine, IncludedIsInserted};
ghost use Rattle.pp_model.specs.LiveRuns.{RunsAreLive};
ghost use Rattle.pp_model.specs.OpenOnce.{RunOpensOnce, ListOpensOnce};
ghost use Rattle.pp_model.specs.Reading.{argument_reading, line_reading};
ghost use Rattle.pp_model.specs.Reads.{source_reading};
ghost use Rattle.pp_model.specs.RespellLaws.{RunsAreReadAfresh};
ghost use Rattle.pp_model.specs.RunChains.{ChainsAreRuns};
ghost use Rattle.pp_model.specs.RunLaws.{OneStep, OneReplies, OneRun, RedefinitionIsChecked};
ghost use Rattle.pp_model.specs.RunStates.{RunKeepsMarksApart, RunShowsNoLineName, EndStays, RunEndsForGood};
ghost use Rattle.pp_model.specs.ToEndLaws.{OneRunToEnd, ARunToEnd, RunToEndBegins};
ghost use Rattle.pp_rs.specs.LiveBranch.{RunHasLiveBranches};

use crate::lexer;

/// Each token of a source starts at or before its end, and ends within the source. Its line is at least 1 and
/// at most one more than the source has bytes. A source has at most one item for each byte, and one more.
pub fn places()
    ensures within { TokensLieWithin }
    ensures lines { TokensHaveLines }
    ensures finite { ItemsAreFinite }
{
    lexer::laws::places()
}

/// Each newline pair counts once, a line is one more than the newlines before it, and line numbers never decrease along
/// the characters of any phase.
pub fn line_ends()
    ensures pairs { PairsCountOnce }
    ensures counted { LinesCountNewlines }
    ensures in_order { SourcesNeverFall }
{
    lexer::laws::line_ends()
}

/// No macro is open twice: in no state of a run does the list to read hold two end marks of one name. Nor is a macro
/// open twice, here or around, in any state that expansion passes: of a source (also within one `next`), of an argument
/// of a call, and of the line of an `#if`, `#elif` or `#line`.
pub fn open_names()
    ensures between { (level : ℕ) → RunKeepsMarksApart (answers_at level) }
    ensures source { (level : ℕ) → RunOpensOnce (answers_at level) }
    ensures argument { (level : ℕ) → ListOpensOnce argument_reading (answers_at level) }
    ensures line { (level : ℕ) → ListOpensOnce line_reading (answers_at level) }
{
    pp_model::laws::run_marks_apart();
    pp_model::laws::open_once()
}

/// A `#define` of a name that is already defined gives nothing if it says the same as the old definition, and an error
/// if it says something else. The old definition stays in both cases.
pub fn redefinition()
    ensures { (level : ℕ) → RedefinitionIsChecked (answers_at level) }
{
    pp_model::laws::redefinition()
}

/// No reply of a run is the identifier `__LINE__`.
pub fn no_line_name()
    ensures { (level : ℕ) → RunShowsNoLineName (answers_at level) }
{
    pp_model::laws::run_no_line_name()
}

/// After the end of a source no call gives another item, even if definitions are added.
pub fn end_stays()
    ensures item { (level : ℕ) → EndStays (answers_at level) }
    ensures replies { (level : ℕ) → RunEndsForGood (answers_at level) }
{
    pp_model::laws::run_end()
}

/// At most one branch of a block is live, and no branch is live after one that was taken. A block that begins in live
/// text, has an `#else` and was read to its `#endif` has exactly one live branch.
pub fn live_branch()
    ensures one { OneBranch }
    ensures none_after { NoneAfterTaken }
    ensures read { (level : ℕ) → RunHasLiveBranches (answers_at level) }
{
    pp_model::laws::live_branch()
}

/// A token or line of dead text gives no token, defines nothing, numbers no line and leaves the definitions as they
/// are. The same holds for a whole run: no step of it takes anything from dead text, except for errors and the end.
pub fn dead_text()
    ensures step { DeadTextGivesNothing }
    ensures run { (level : ℕ) → RunsAreLive (answers_at level) }
{
    pp_model::laws::dead_text()
}

/// If all tokens that a run gives are ordinary, preprocessing the text that spells them with single spaces gives the
/// same values, and then the end.
pub fn respell()
    ensures { (level : ℕ) → RunsAreReadAfresh (answers_at level) }
{
    pp_model::laws::respell()
}

/// Once an `#include` line asked for its text, the reader is behind that line, in live text. A text that is included
/// there, and that holds no directive of a block across its ends, is read as if its lines stood in the text around it,
/// behind the `#include` line, if neither has a `#line`: the replies are the same, also if more texts are included in
/// it and behind it.
pub fn included_text()
    ensures asked { (level : ℕ) → AskedIsAtLine (answers_at level) }
    ensures inserted { (level : ℕ) → IncludedIsInserted (answers_at level) }
{
    pp_model::laws::included_text()
}

/// A token or line of a source has at most one outcome, and reading the source passes at most one outcome next.
pub fn one_reading()
    ensures step { (level : ℕ) → OneStep (answers_at level) }
    ensures reading { (level : ℕ) → OneReads (source_reading (answers_at level)) }
{
    pp_model::laws::one_source_reading()
}

/// Calls that follow one another from the start of a source, each in the state after the one before, are a run. Every
/// source has a run for every list of calls. Equal sources and calls have equal replies, up to and with the first error
/// item.
pub fn runs()
    ensures chains { (level : ℕ) → ChainsAreRuns (answers_at level) }
    ensures some { ARun }
    ensures replies { (level : ℕ) → OneReplies (answers_at level) }
    ensures run { OneRun }
{
    pp_model::laws::chains();
    pp_model::laws::a_run();
    pp_model::laws::one_run()
}

/// Every source has exactly one run to its end for every list of calls: all replies, those after errors too. Up to and
/// with the first error item it is the run that ends with that error.
pub fn runs_to_end()
    ensures some { ARunToEnd }
    ensures run { OneRunToEnd }
    ensures begins { RunToEndBegins }
{
    pp_model::laws::run_to_end()
}
