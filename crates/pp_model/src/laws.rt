//! Laws of expansion, of reading a source, of its blocks and of runs, over the definitions alone. Each function's
//! contract states one, for every list of tokens or source and at every level. The bodies do nothing.

ghost use Rattle.pp_model.specs.ApartMarks.{OnlyTakesEntries, OpensNew, KeepsMarksApart, StartsApart};
ghost use Rattle.pp_model.specs.BlockLaws.{OneBranch, NoneAfterTaken, DeadTextGivesNothing};
ghost use Rattle.pp_model.specs.Emitting.{Alone, answers_at};
ghost use Rattle.pp_model.specs.ExistenceLaws.{AReading, ATaking, AGathering, ACall, AnItem, AList, AnArgument};
ghost use Rattle.pp_model.specs.ExistenceLaws.{AnOperand, ALine, ACondition, ALineNumber};
ghost use Rattle.pp_model.specs.ExistenceLaws.{AStep, RunDefinesFinitelyMany, AnEnd, ARun};
ghost use Rattle.pp_model.specs.ExpansionLaws.{OneReads, OneTaking, OneGathering, OneCall, OneItem, OneArgument};
ghost use Rattle.pp_model.specs.ExpansionLaws.{OneOperand, OneLine};
ghost use Rattle.pp_model.specs.IncludeLaws.{AskedIsAtLine, IncludedIsInserted};
ghost use Rattle.pp_model.specs.LiveRuns.{RunsAreLive};
ghost use Rattle.pp_model.specs.OpenOnce.{RunOpensOnce, ListOpensOnce};
ghost use Rattle.pp_model.specs.NoLineName.{ShowsNoLineName, AloneShowsNoLineName};
ghost use Rattle.pp_model.specs.Reading.{argument_reading, line_reading};
ghost use Rattle.pp_model.specs.Reads.{source_reading};
ghost use Rattle.pp_model.specs.RespellLaws.{RunsAreReadAfresh};
ghost use Rattle.pp_model.specs.RunChains.{ChainsAreRuns};
ghost use Rattle.pp_model.specs.RunLaws.{OneEvaluation, OneCondition, OneLineNumber, OneStep, OneReplies, OneRun};
ghost use Rattle.pp_model.specs.RunLaws.{RedefinitionIsChecked};
ghost use Rattle.pp_model.specs.ToEndLaws.{OneStepOn, AStepOn, OneRunToEnd, ARunToEnd, RunToEndBegins};
ghost use Rattle.pp_model.specs.RunStates.{RunKeepsMarksApart, RunShowsNoLineName, EndStays, RunEndsForGood};
ghost use Rattle.std.specs.Prelude.{ℕ};

/// A list of tokens gives at most one outcome next.
pub fn one_reading()
    ensures argument { OneReads argument_reading }
    ensures line { OneReads line_reading }
{}

/// At most one outcome is taken from an expander, over a list of tokens and over a source, and one state is after it.
pub fn one_taking()
    ensures argument { OneTaking argument_reading }
    ensures line { OneTaking line_reading }
    ensures source { (level : ℕ) → OneTaking (source_reading (answers_at level)) }
{}

/// The search for the end of a call gathers at most one list of tokens, or finds one fault.
pub fn one_gathering()
    ensures argument { OneGathering argument_reading }
    ensures line { OneGathering line_reading }
    ensures source { (level : ℕ) → OneGathering (source_reading (answers_at level)) }
{}

/// The search for a call after the name of a function-like macro has at most one outcome.
pub fn one_call()
    ensures argument { (level : ℕ) → OneCall argument_reading (answers_at level) }
    ensures line { (level : ℕ) → OneCall line_reading (answers_at level) }
    ensures source { (level : ℕ) → OneCall (source_reading (answers_at level)) (answers_at level) }
{}

/// An expander has at most one next item, over a list of tokens and over a source.
pub fn one_item()
    ensures argument { (level : ℕ) → OneItem argument_reading (answers_at level) }
    ensures line { (level : ℕ) → OneItem line_reading (answers_at level) }
    ensures source { (level : ℕ) → OneItem (source_reading (answers_at level)) (answers_at level) }
{}

/// An argument that is read alone gives at most one list of tokens, or one fault.
pub fn one_argument()
    ensures { (level : ℕ) → OneArgument (Alone level) }
{}

/// A line that is evaluated gives at most one list of words, with one ending, and the operand of a `defined` at most
/// one answer, or one fault.
pub fn one_line()
    ensures operand { (level : ℕ) → OneOperand (answers_at level) }
    ensures words { (level : ℕ) → OneLine (answers_at level) }
{}

/// A taking, and the search for a call, only take entries from the front of the list.
pub fn entries_leave()
    ensures argument { (level : ℕ) → OnlyTakesEntries argument_reading (answers_at level) }
    ensures line { (level : ℕ) → OnlyTakesEntries line_reading (answers_at level) }
{}

/// A macro opens only if the list holds no mark of it. No mark of it is in what is left of the list after a call.
pub fn opens_once()
    ensures argument { OpensNew argument_reading }
    ensures line { OpensNew line_reading }
{}

/// No macro is open twice: the list starts with no end mark, and each step keeps the names of the marks apart.
pub fn apart_marks()
    ensures start { StartsApart }
    ensures argument { (level : ℕ) → KeepsMarksApart argument_reading (answers_at level) }
    ensures line { (level : ℕ) → KeepsMarksApart line_reading (answers_at level) }
    ensures source { (level : ℕ) → KeepsMarksApart (source_reading (answers_at level))
        (answers_at level) }
{}

/// No macro is open twice, here or around, in any state that expansion passes: of a source (also within one item), of
/// an argument of a call, and of the line of an `#if`, `#elif` or `#line`.
pub fn open_once()
    ensures source { (level : ℕ) → RunOpensOnce (answers_at level) }
    ensures argument { (level : ℕ) → ListOpensOnce argument_reading (answers_at level) }
    ensures line { (level : ℕ) → ListOpensOnce line_reading (answers_at level) }
{}

/// No `__LINE__` is taken, gathered or given unless one was held, and a list of tokens that is expanded alone gives
/// none.
pub fn no_line_name()
    ensures argument { (level : ℕ) → ShowsNoLineName argument_reading (answers_at level) }
    ensures line { (level : ℕ) → ShowsNoLineName line_reading (answers_at level) }
    ensures alone { AloneShowsNoLineName }
{}

/// An expression has at most one value, or one first fault, and so does the line of an `#if`, `#elif` or `#line`.
pub fn one_line_value()
    ensures evaluation { OneEvaluation }
    ensures condition { (level : ℕ) → OneCondition (answers_at level) }
    ensures line_number { (level : ℕ) → OneLineNumber (answers_at level) }
{}

/// A token or line of a source has at most one outcome, and reading the source gives at most one outcome next.
pub fn one_source_reading()
    ensures step { (level : ℕ) → OneStep (answers_at level) }
    ensures reading { (level : ℕ) → OneReads (source_reading (answers_at level)) }
{}

/// Equal sources and calls have equal replies, up to and with the first error item.
pub fn one_run()
    ensures replies { (level : ℕ) → OneReplies (answers_at level) }
    ensures run { OneRun }
{}

/// Calls that follow one another from the start of a source, each in the state after the one before, are a run.
pub fn chains()
    ensures { (level : ℕ) → ChainsAreRuns (answers_at level) }
{}

/// No macro is open twice: in no state of a run does the list hold two end marks of one name.
pub fn run_marks_apart()
    ensures { (level : ℕ) → RunKeepsMarksApart (answers_at level) }
{}

/// No reply of a run is the identifier `__LINE__`.
pub fn run_no_line_name()
    ensures { (level : ℕ) → RunShowsNoLineName (answers_at level) }
{}

/// After the end of a source no call gives another item, even if definitions are added.
pub fn run_end()
    ensures item { (level : ℕ) → EndStays (answers_at level) }
    ensures replies { (level : ℕ) → RunEndsForGood (answers_at level) }
{}

/// At most one branch of a block is live, and no branch is live after one that was taken.
pub fn live_branch()
    ensures one { OneBranch }
    ensures none_after { NoneAfterTaken }
{}

/// A token or line of dead text gives no token, defines nothing, numbers no line and leaves the definitions as they
/// are. The same holds for a whole run: no step of it takes anything from dead text, except for errors and the end.
pub fn dead_text()
    ensures step { DeadTextGivesNothing }
    ensures run { (level : ℕ) → RunsAreLive (answers_at level) }
{}

/// A `#define` of a name that is already defined gives nothing if it says the same as the old definition, and an error
/// if it says something else. The old definition stays in both cases.
pub fn redefinition()
    ensures { (level : ℕ) → RedefinitionIsChecked (answers_at level) }
{}

/// If all tokens that a run gives are ordinary, preprocessing the text that spells them with single spaces gives the
/// same values, and then the end.
pub fn respell()
    ensures { (level : ℕ) → RunsAreReadAfresh (answers_at level) }
{}

/// A list of tokens gives something next.
pub fn a_reading()
    ensures argument { AReading argument_reading }
    ensures line { AReading line_reading }
{}

/// Something is taken from an expander.
pub fn a_taking()
    ensures argument { ATaking argument_reading }
    ensures line { ATaking line_reading }
{}

/// The search for the end of a call gathers a list of tokens, or finds a fault.
pub fn a_gathering()
    ensures argument { AGathering argument_reading }
    ensures line { AGathering line_reading }
{}

/// After the name of a function-like macro there is a call, no call, or a fault.
pub fn a_call()
    ensures argument { (level : ℕ) → ACall argument_reading (answers_at level) }
    ensures line { (level : ℕ) → ACall line_reading (answers_at level) }
{}

/// An expander has a next item, over a list of tokens and over a source.
pub fn an_item()
    ensures argument { (level : ℕ) → AnItem argument_reading (answers_at level) }
    ensures line { (level : ℕ) → AnItem line_reading (answers_at level) }
    ensures source { (level : ℕ) → AnItem (source_reading (answers_at level)) (answers_at level) }
{}

/// Over a list of tokens an expander has items up to the end, or up to a first fault.
pub fn a_list()
    ensures argument { (level : ℕ) → AList argument_reading (answers_at level) }
    ensures line { (level : ℕ) → AList line_reading (answers_at level) }
{}

/// An argument that is read alone gives a list of tokens, or a fault.
pub fn an_argument()
    ensures { (level : ℕ) → AnArgument (Alone level) }
{}

/// A line that is evaluated has words and an ending, and the operand of a `defined` has an answer, or a fault.
pub fn a_line()
    ensures operand { (level : ℕ) → AnOperand (answers_at level) }
    ensures words { (level : ℕ) → ALine (answers_at level) }
{}

/// The line of an `#if`, `#elif` or `#line` has a value, or a first fault.
pub fn a_line_value()
    ensures condition { (level : ℕ) → ACondition (answers_at level) }
    ensures line_number { (level : ℕ) → ALineNumber (answers_at level) }
{}

/// One token or line of a source has an outcome, or gives nothing, and reading the source gives something next.
pub fn a_source_reading()
    ensures step { (level : ℕ) → AStep (answers_at level) }
    ensures reading { (level : ℕ) → AReading (source_reading (answers_at level)) }
{}

/// In each state of a run finitely many names are defined.
pub fn run_definitions()
    ensures { (level : ℕ) → RunDefinesFinitelyMany (answers_at level) }
{}

/// A source gives finitely many tokens, and then an error or the end.
pub fn an_end()
    ensures { (level : ℕ) → AnEnd (answers_at level) }
{}

/// Every source has a run for every list of calls.
pub fn a_run()
    ensures { ARun }
{}

/// Once an `#include` line asked for its text, the reader is behind that line, in live text. A text that is included
/// there, and that holds no directive of a block across its ends, is read as if its lines stood in the text around it,
/// behind the `#include` line, if neither has a `#line`.
pub fn included_text()
    ensures asked { (level : ℕ) → AskedIsAtLine (answers_at level) }
    ensures inserted { (level : ℕ) → IncludedIsInserted (answers_at level) }
{}

/// A token or line of a source has exactly one outcome, or gives nothing, also after faults.
pub fn step_on()
    ensures one { (level : ℕ) → OneStepOn (answers_at level) }
    ensures a { (level : ℕ) → AStepOn (answers_at level) }
{}

/// Every source has exactly one run to its end for every list of calls. Up to and with the first error item it is the
/// run that ends with that error.
pub fn run_to_end()
    ensures one { OneRunToEnd }
    ensures a { ARunToEnd }
    ensures begins { RunToEndBegins }
{}
