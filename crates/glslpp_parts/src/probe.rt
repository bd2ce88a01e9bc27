//! A text of a source's directives by which the preprocessor says which names of its conditions are not defined.
//!
//! Each directive is on a line, with an `#else` and an `#if` for each `#elif`. Before a condition the text has lines
//! that ask: the preprocessor gives them only if the condition is computed. If conditions are explained, more lines
//! ask: which names are defined, what the condition becomes, and which definitions are read.

ghost use Rattle.std.specs.Prelude.{◌-◌, ◌^◌, ◌<◌, length};

use crate::condition::{Branch, BranchWord, DefinitionLine, Tested};
use crate::directive_line::{is_of_directive, is_punct, name_of};
use pp_rs::lexer::{Lexer, LexerItem, Token as Word, TokenValue as WordValue};
use pp_rs::rules::Rules;
use pp_rs::token::{Location, PreprocessorError, Punct};
use std::alloc::{AllocError, Global};
use std::mem;

/// A line of the text that asks for a name.
#[derive(Drop)]
pub(crate) struct Question {
    // Its number.
    line: u32,
    /// The name.
    pub name: String,
    /// Its place in the source.
    pub location: Location,
}

/// A line of the text that includes a file.
#[derive(Clone, Copy)]
struct Inclusion {
    // Its number.
    line: u32,
    // The place in the source of what follows the word of its `#include`.
    rest: Location,
}

// A block that is open.
#[derive(Clone, Copy)]
struct Block {
    // The number of its `#elif` lines so far.
    elifs: usize,
    // As in a branch.
    around: Option<usize>,
    // The number of the branch that begins it.
    first: usize,
}

// The lines of the text that ask about the condition of a branch.
#[derive(Drop)]
struct Asked {
    // The line that is given if it is computed.
    reached_line: u32,
    // The line that gives what it becomes.
    value_line: u32,
    tested: Vec<Tested>,
}

impl Asked {
    fn none(alloc: Global) -> Asked {
        Asked {
            reached_line: 0,
            value_line: 0,
            tested: Vec::new(alloc),
        }
    }

    // Notes that a `defined` with the words that belong to it stands as a number at this byte offset.
    fn stand_in(&mut self, words: &[Word], offset: u32) {
        for word in words {
            for tested in self.tested.iter_mut() {
                if tested.location == word.location {
                    tested.stand_in = Some(offset);
                }
            }
        }
    }
}

// A line of a source.
#[derive(Drop)]
struct Line {
    // The words after its `#`, if it is a directive.
    words: Vec<Word>,
    is_directive: bool,
}

/// Where an operand of `&&` and one of `||` begin among the words of a condition, and what is open since.
#[derive(Clone, Copy)]
struct Group {
    start_of_and: usize,
    start_of_or: usize,
    // The numbers of `#if` lines, of `&&` since the last `||`, and of `||`.
    ands: usize,
    ors: usize,
}

impl Group {
    fn new(start: usize) -> Group {
        Group {
            start_of_and: start,
            start_of_or: start,
            ands: 0,
            ors: 0,
        }
    }
}

// How many parentheses around an `&&` or `||` are looked at: the left operand of each is repeated in the text.
const DEEPEST: usize = 32;

/// The text that asks.
#[derive(Drop)]
pub(crate) struct Probe {
    alloc: Global,
    /// The text.
    pub text: String,
    // The number of the line that the next text is on.
    line: u32,
    // In the order of their lines.
    questions: Vec<Question>,
    // In the same order.
    inclusions: Vec<Inclusion>,
    /// In the same order, and that of the source.
    pub branches: Vec<Branch>,
    /// In the same order, if conditions are explained.
    pub definitions: Vec<DefinitionLine>,
    is_explaining: bool,
    blocks: Vec<Block>,
    // What is asked about the next branch.
    asked: Asked,
}

impl Probe {
    /// The text for the conditions of a source that is read by these rules, and whether it explains them.
    pub(crate) fn of(
        alloc: Global,
        rules: Rules,
        source: &str,
        is_explaining: bool,
    ) -> Result<Probe, AllocError>
        requires { length source.now < 2 ^ 32 - 1 }
    {
        let mut probe = Probe::new(alloc, is_explaining);
        match probe.read(rules, source) {
            Ok(()) => Ok(probe),
            Err(error) => {
                drop(probe);
                Err(error)
            }
        }
    }

    // No text yet.
    fn new(alloc: Global, is_explaining: bool) -> Probe {
        Probe {
            alloc,
            text: String::new(alloc),
            line: 1,
            questions: Vec::new(alloc),
            inclusions: Vec::new(alloc),
            branches: Vec::new(alloc),
            definitions: Vec::new(alloc),
            is_explaining,
            blocks: Vec::new(alloc),
            asked: Asked::none(alloc),
        }
    }

    // Takes the directives of a source.
    fn read(&mut self, rules: Rules, source: &str) -> Result<(), AllocError>
        requires { length source.now < 2 ^ 32 - 1 }
    {
        let mut line = Line {
            words: Vec::new(self.alloc),
            is_directive: false,
        };
        let end = self.read_lines(rules, source, &mut line);
        drop(line);
        end
    }

    // Does the same with a line that nothing is on.
    fn read_lines(&mut self, rules: Rules, source: &str, line: &mut Line) -> Result<(), AllocError>
        requires { length source.now < 2 ^ 32 - 1 }
    {
        let mut lexer = Lexer::with_rules(self.alloc, source, rules);
        'words: while let Some(item) = lexer.next() {
            self.take_item(item, line)?;
        }
        Ok(())
    }

    // Takes a word, or passes an error.
    fn take_item(&mut self, item: LexerItem, line: &mut Line) -> Result<(), AllocError> {
        match item {
            Ok(word) => self.take_word(word, line),
            Err((PreprocessorError::OutOfMemory, _)) => Err(AllocError),
            Err((_error, _)) => Ok(()),
        }
    }

    // Takes a word, which is put on the line if that is a directive.
    fn take_word(&mut self, word: Word, line: &mut Line) -> Result<(), AllocError> {
        if line.is_directive && is_of_directive(&word) {
            line.words.push(word)?;
            return Ok(());
        }
        let end = self.begin_or_end(&word, line);
        drop(word);
        end
    }

    // Takes a `#`, with which a directive begins, or the newline with which the line ends.
    fn begin_or_end(&mut self, word: &Word, line: &mut Line) -> Result<(), AllocError> {
        match word.value {
            WordValue::Hash if word.start_of_line => line.is_directive = true,
            WordValue::NewLine => {
                self.take_directive(line.words.as_slice(), word.location.start)?;
                line.words.clear();
                line.is_directive = false;
            }
            _ => {}
        }
        Ok(())
    }

    /// The question on a line of the text.
    pub(crate) fn question(&self, line: u32) -> Option<&Question> {
        let questions = self.questions.as_slice();
        let before = questions.partition_point(|question| question.line < line);
        match questions.get(before) {
            Some(question) if question.line == line => Some(question),
            _ => None,
        }
    }

    // The branch of whose lines this is one, if it is of one.
    fn branch_at(&mut self, line: u32) -> Option<&mut Branch> {
        let branches = self.branches.as_mut_slice();
        let before = branches.partition_point(|branch| branch.line < line);
        branches.get_mut(before)
    }

    /// Notes that a line of the text is given, if it asks about a branch.
    pub(crate) fn note_line(&mut self, line: u32) {
        if let Some(branch) = self.branch_at(line) {
            branch.note_line(line);
        }
    }

    /// Notes that nothing is known of the branches from a line of the text on.
    pub(crate) fn forget_after(&mut self, line: u32) {
        for branch in self.branches.iter_mut() {
            if branch.line >= line {
                branch.is_known = false;
            }
        }
    }

    /// The branch that is explained by what is given on a line of the text.
    pub(crate) fn explained_by(&mut self, line: u32) -> Option<&mut Branch> {
        let branch = self.branch_at(line)?;
        if branch.value_line == line {
            Some(branch)
        } else {
            None
        }
    }

    /// The definition that was read if a line of the text is given.
    pub(crate) fn definition_read(&self, line: u32) -> Option<&DefinitionLine> {
        let definitions = self.definitions.as_slice();
        let before = definitions.partition_point(|definition| definition.line < line);
        match definitions.get(before) {
            Some(definition) if definition.line == line && !definition.is_refused => {
                Some(definition)
            }
            _ => None,
        }
    }

    /// The definition of which a line of the text is the first, or that whose reading it asks for.
    pub(crate) fn definition_at(&mut self, line: u32) -> Option<&mut DefinitionLine> {
        let definitions = self.definitions.as_mut_slice();
        let before = definitions.partition_point(|definition| definition.line < line);
        let definition = definitions.get_mut(before)?;
        if definition.first_line <= line {
            Some(definition)
        } else {
            None
        }
    }

    /// The place in the source of what follows the word of the `#include` that a line of the text is.
    pub(crate) fn inclusion(&self, line: u32) -> Option<Location> {
        let inclusions = self.inclusions.as_slice();
        let before = inclusions.partition_point(|inclusion| inclusion.line < line);
        match inclusions.get(before) {
            Some(inclusion) if inclusion.line == line => Some(inclusion.rest),
            _ => None,
        }
    }

    // Takes the words of a directive after its `#`, whose line ends at this byte offset.
    fn take_directive(&mut self, words: &[Word], end: u32) -> Result<(), AllocError> {
        let Some((first, rest)) = words.split_first() else {
            return Ok(());
        };
        match name_of(first).unwrap_or("") {
            "define" => self.push_definition(words, true, end),
            "undef" => self.push_definition(words, false, end),
            "extension" => self.push_extension(words, end),
            "pragma" => self.push_directive("", words),
            "include" => self.push_inclusion(first, end),
            "ifdef" => self.open_by_name(BranchWord::Ifdef, words, end),
            "ifndef" => self.open_by_name(BranchWord::Ifndef, words, end),
            "if" => self.open_by_condition(first, rest, end),
            "elif" => self.part_block(first, rest, end),
            "else" => {
                self.push_directive("", words)?;
                self.push_branch(BranchWord::Else, first, end)
            }
            "endif" => self.close_block(first, end),
            _ => Ok(()),
        }
    }

    // Takes an `#include` with this word.
    fn push_inclusion(&mut self, word: &Word, end: u32) -> Result<(), AllocError> {
        self.inclusions.push(Inclusion {
            line: self.line,
            rest: Location {
                start: word.location.end,
                end,
                line: word.location.line,
            },
        })?;
        self.push_directive("include", &[])
    }

    // Takes an `#if` with this word and condition.
    fn open_by_condition(
        &mut self,
        word: &Word,
        condition: &[Word],
        end: u32,
    ) -> Result<(), AllocError> {
        self.open_block()?;
        self.ask(condition, true)?;
        self.push_directive("if", condition)?;
        self.push_branch(BranchWord::If, word, end)
    }

    // Takes an `#elif` with this word and condition, if a block is open.
    fn part_block(&mut self, word: &Word, condition: &[Word], end: u32) -> Result<(), AllocError> {
        let Some(block) = self.blocks.last_mut() else {
            return Ok(());
        };
        block.elifs = block.elifs.saturating_add(1);
        self.push_directive("else", &[])?;
        self.ask(condition, true)?;
        self.push_directive("if", condition)?;
        self.push_branch(BranchWord::Elif, word, end)
    }

    // Takes an `#endif` with this word, if a block is open.
    fn close_block(&mut self, word: &Word, end: u32) -> Result<(), AllocError> {
        let Some(block) = self.blocks.last().copied() else {
            return Ok(());
        };
        self.push_ends(block.elifs.saturating_add(1))?;
        self.push_branch(BranchWord::Endif, word, end)?;
        self.blocks.pop();
        Ok(())
    }

    // Takes a `#define` or an `#undef`.
    fn push_definition(
        &mut self,
        words: &[Word],
        is_definition: bool,
        end: u32,
    ) -> Result<(), AllocError> {
        let first_line = self.line;
        self.push_directive("", words)?;
        if self.is_explaining {
            let line = self.line;
            self.push_answer()?;
            self.note_definition(words, is_definition, end, first_line, line)?;
        }
        Ok(())
    }

    // Takes an `#extension`, whose line itself is given if it is read.
    fn push_extension(&mut self, words: &[Word], end: u32) -> Result<(), AllocError> {
        let line = self.line;
        self.push_directive("", words)?;
        if self.is_explaining {
            self.note_definition(words, true, end, line, line)?;
        }
        Ok(())
    }

    fn note_definition(
        &mut self,
        words: &[Word],
        is_definition: bool,
        end: u32,
        first_line: u32,
        line: u32,
    ) -> Result<(), AllocError> {
        let [first, second, ..] = words else {
            return Ok(());
        };
        let Some(name) = name_of(second) else {
            return Ok(());
        };
        self.definitions.push(DefinitionLine {
            name: String::from_str(self.alloc, name)?,
            is_definition,
            start: first.location.start,
            end,
            first_line,
            line,
            is_refused: false,
        })?;
        Ok(())
    }

    // Takes an `#ifdef` or an `#ifndef`.
    fn open_by_name(
        &mut self,
        word: BranchWord,
        words: &[Word],
        end: u32,
    ) -> Result<(), AllocError> {
        let Some((first, rest)) = words.split_first() else {
            return Ok(());
        };
        self.open_block()?;
        self.ask(rest.get(..1).unwrap_or(&[]), false)?;
        self.push_directive("", words)?;
        self.push_branch(word, first, end)
    }

    // Opens a block after the last branch.
    fn open_block(&mut self) -> Result<(), AllocError> {
        let first = self.branches.len();
        self.blocks.push(Block {
            elifs: 0,
            around: first.checked_sub(1),
            first,
        })?;
        Ok(())
    }

    // Asks whether what follows the directive with this word is read, of which the line ends at this byte offset.
    fn push_branch(&mut self, word: BranchWord, first: &Word, end: u32) -> Result<(), AllocError> {
        let (around, first_branch) = match self.blocks.last() {
            Some(block) => (block.around, block.first),
            None => (None, self.branches.len()),
        };
        let Asked {
            reached_line,
            value_line,
            tested,
        } = mem::replace(&mut self.asked, Asked::none(self.alloc));
        self.branches.push(Branch {
            word,
            start: first.location.start,
            end,
            around,
            first: first_branch,
            is_reached: false,
            is_read: false,
            is_known: true,
            taken: None,
            tested,
            value: String::new(self.alloc),
            reached_line,
            value_line,
            line: self.line,
        })?;
        self.push_answer()
    }

    // Asks about the condition with these words, which is an expression or a name.
    fn ask(&mut self, words: &[Word], is_expression: bool) -> Result<(), AllocError> {
        if self.is_explaining {
            self.asked.reached_line = self.line;
            self.push_answer()?;
            self.ask_for_definitions(words)?;
            if is_expression {
                self.ask_for_value(words)?;
            }
        }
        if is_expression {
            self.ask_for_names(words)?;
        }
        Ok(())
    }

    // Asks which names of a condition are defined.
    fn ask_for_definitions(&mut self, words: &[Word]) -> Result<(), AllocError> {
        for (index, word) in words.iter().enumerate() {
            match name_of(word) {
                Some(name) if name != "defined" => {
                    let alone = words.get(index..index.saturating_add(1)).unwrap_or(&[]);
                    self.ask_for_definition(name, word.location, alone)?;
                }
                _ => {}
            }
        }
        Ok(())
    }

    // Asks whether a name is defined, which is this word alone.
    fn ask_for_definition(
        &mut self,
        name: &str,
        location: Location,
        alone: &[Word],
    ) -> Result<(), AllocError> {
        self.push_directive("ifdef", alone)?;
        self.asked.tested.push(Tested {
            name: String::from_str(self.alloc, name)?,
            location,
            is_defined: false,
            line: self.line,
            stand_in: None,
        })?;
        self.push_answer()?;
        self.push_directive("endif", &[])
    }

    // Asks what a condition becomes, with a 0 in place of each `defined` and what belongs to it.
    fn ask_for_value(&mut self, words: &[Word]) -> Result<(), AllocError> {
        self.asked.value_line = self.line;
        let mut next = 0;
        for (index, word) in words.iter().enumerate() {
            if index >= next {
                next = end_of_operand(words, index);
                self.push_operand_value(word, words.get(index..next).unwrap_or(&[]))?;
            }
        }
        self.push_line_end()
    }

    // Appends the words of an operand, or a 0 if the first is `defined`.
    fn push_operand_value(&mut self, first: &Word, words: &[Word]) -> Result<(), AllocError> {
        if name_of(first) != Some("defined") {
            return self.push_words(words);
        }
        self.text.push(' ')?;
        let offset = u32::try_from(self.text.len()).unwrap_or(u32::MAX);
        self.asked.stand_in(words, offset);
        self.text.push('0')
    }

    // Asks for the names of a condition, each only if what is before it makes it count.
    fn ask_for_names(&mut self, words: &[Word]) -> Result<(), AllocError> {
        let mut groups = Vec::new(self.alloc);
        let end = self.ask_by_groups(words, &mut groups);
        drop(groups);
        end
    }

    // Does the same with no group yet.
    fn ask_by_groups(&mut self, words: &[Word], groups: &mut Vec<Group>) -> Result<(), AllocError> {
        groups.push(Group::new(0))?;
        let mut next = 0;
        for index in 0..words.len() {
            if index >= next {
                next = self.ask_at(words, index, groups)?;
            }
        }
        for group in groups.as_slice() {
            self.push_ends(group.ands.saturating_add(group.ors))?;
        }
        Ok(())
    }

    // Asks for what begins at a word. Returns the index of the word after it.
    fn ask_at(
        &mut self,
        words: &[Word],
        index: usize,
        groups: &mut Vec<Group>,
    ) -> Result<usize, AllocError> {
        let after = index.saturating_add(1);
        let Some(word) = words.get(index) else {
            return Ok(after);
        };
        match &word.value {
            WordValue::Ident(name) => {
                let end = end_of_name(words, index);
                if name.as_str() != "defined" {
                    let used = words.get(index..end).unwrap_or(&[]);
                    self.ask_for_name(name.as_str(), word.location, used)?;
                }
                return Ok(end);
            }
            WordValue::Punct(Punct::LeftParen) => groups.push(Group::new(after))?,
            WordValue::Punct(Punct::RightParen) => self.close_group(groups)?,
            WordValue::Punct(punct @ (Punct::LogicalAnd | Punct::LogicalOr))
                if groups.len() <= DEEPEST => {
                if let Some(group) = groups.last_mut() {
                    self.push_operand(words, index, *punct, group)?;
                }
            }
            _ => {}
        }
        Ok(after)
    }

    // Asks for a name, which is used by these words.
    fn ask_for_name(
        &mut self,
        name: &str,
        location: Location,
        used: &[Word],
    ) -> Result<(), AllocError> {
        self.push_question(name, location)?;
        self.push_words(used)?;
        self.push_line_end()
    }

    // Closes the innermost group, unless it is that of the whole condition.
    fn close_group(&mut self, groups: &mut Vec<Group>) -> Result<(), AllocError> {
        if groups.len() <= 1 {
            return Ok(());
        }
        match groups.pop() {
            Some(group) => self.push_ends(group.ands.saturating_add(group.ors)),
            None => Ok(()),
        }
    }

    // Opens an `#if` for the left operand of an `&&` or `||`, in which is what follows if its right one counts.
    fn push_operand(
        &mut self,
        words: &[Word],
        index: usize,
        punct: Punct,
        group: &mut Group,
    ) -> Result<(), AllocError> {
        let after = index.saturating_add(1);
        if punct == Punct::LogicalAnd {
            self.push_directive("if", words.get(group.start_of_and..index).unwrap_or(&[]))?;
            group.ands = group.ands.saturating_add(1);
        } else {
            self.push_ends(group.ands)?;
            self.push_directive("if", words.get(group.start_of_or..index).unwrap_or(&[]))?;
            self.push_directive("else", &[])?;
            group.ands = 0;
            group.ors = group.ors.saturating_add(1);
            group.start_of_or = after;
        }
        group.start_of_and = after;
        Ok(())
    }

    fn push_question(&mut self, name: &str, location: Location) -> Result<(), AllocError> {
        let question = Question {
            line: self.line,
            name: String::from_str(self.alloc, name)?,
            location,
        };
        self.questions.push(question)?;
        Ok(())
    }

    fn push_ends(&mut self, count: usize) -> Result<(), AllocError> {
        for _ in 0..count {
            self.push_directive("endif", &[])?;
        }
        Ok(())
    }

    fn push_directive(&mut self, word: &str, words: &[Word]) -> Result<(), AllocError> {
        self.text.push('#')?;
        self.text.push_str(word)?;
        self.push_words(words)?;
        self.push_line_end()
    }

    // A `(` stands beside the word before it if it does so in the source, where it may begin parameters.
    fn push_words(&mut self, words: &[Word]) -> Result<(), AllocError> {
        for word in words {
            if word.leading_whitespace || !is_punct(word, Punct::LeftParen) {
                self.text.push(' ')?;
            }
            push_value(&mut self.text, &word.value)?;
        }
        Ok(())
    }

    // A line that is given if it is read.
    fn push_answer(&mut self) -> Result<(), AllocError> {
        self.text.push('1')?;
        self.push_line_end()
    }

    fn push_line_end(&mut self) -> Result<(), AllocError> {
        self.line = self.line.saturating_add(1);
        self.text.push('\n')
    }
}

// The index after a word, or after what belongs to it if it is `defined`.
fn end_of_operand(words: &[Word], index: usize) -> usize {
    match words.get(index) {
        Some(word) if name_of(word) == Some("defined") => end_of_name(words, index),
        _ => index.saturating_add(1),
    }
}

// The index after a name: after its arguments if a `(` follows, and after the operand of a `defined`.
fn end_of_name(words: &[Word], index: usize) -> usize {
    let after = index.saturating_add(1);
    let is_called = words
        .get(after)
        .is_some_and(|word| is_punct(word, Punct::LeftParen));
    let is_defined = words
        .get(index)
        .is_some_and(|word| name_of(word) == Some("defined"));
    if !is_called {
        return if is_defined {
            after.saturating_add(1)
        } else {
            after
        };
    }
    let mut depth = 0usize;
    for end in after..words.len() {
        let word = &words[end];
        if is_punct(word, Punct::LeftParen) {
            depth = depth.saturating_add(1);
        } else if is_punct(word, Punct::RightParen) {
            depth = depth.saturating_sub(1);
            if depth == 0 {
                return end.saturating_add(1);
            }
        }
    }
    words.len()
}

fn push_value(text: &mut String, value: &WordValue) -> Result<(), AllocError> {
    match value {
        WordValue::Ident(name) => text.push_str(name.as_str()),
        WordValue::Integer(integer) => {
            let suffix = if integer.signed { "" } else { "u" };
            write!(text, "{}{suffix}", integer.value)
        }
        WordValue::Float(float) => text.push_str(float.text.as_str()),
        WordValue::Punct(punct) => text.push_str(punct.spelling()),
        WordValue::Hash => text.push('#'),
        WordValue::NewLine => Ok(()),
    }
}
