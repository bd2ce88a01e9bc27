//! Files of words for the command line, `@FILE`.

ghost use Rattle.std.specs.Prelude.{◌≡◌, ◌≢◌, ◌++◌, ◌∷◌, [], false, List, ℕ, IfOk, OnOk, None, Some, map, string_bytes};
ghost use Rattle.std.specs.Prelude.{unwrap_or};
ghost use Rattle.std.specs.Option.{option_to_list};
ghost use Rattle.std.specs.Str.{chars};
ghost use Rattle.glslpp_parts.specs.WordFiles.{is_quotation_mark, is_white_space, words_of_file};
ghost use Rattle.glslpp_parts.specs.inner.Cutting.{ended_words, joined, open_word};

use std::alloc::{AllocError, Global};

// The words of a file, up to a character of it.
#[derive(Drop)]
struct Cutter {
    alloc: Global,
    words: Vec<String>,
    // The word that isn't ended yet, if one has begun.
    word: Option<String>,
    // The quotation mark that is open.
    quote: Option<char>,
    // Whether a backslash stands before.
    is_escaped: bool,
}

fn is_quotation_mark(character: char) -> bool
    ensures { result ≡ is_quotation_mark character }
{
    matches!(character, '"' | '\'')
}

fn is_white_space(character: char) -> bool
    ensures { result ≡ is_white_space character }
{
    matches!(character, '\t'..='\r' | ' ')
}

/// Returns the words of a file that the word `@FILE` names, as gcc cuts them: white space parts them, but not between
/// two `'` or two `"`, and a `\` takes the character after it as it is, also there. At the end of the text it is
/// nothing, and an empty word for gcc. The only error is that memory ran out.
pub fn words_of_file(alloc: Global, text: &str) -> Result<Vec<String>, AllocError>
    ensures { IfOk result (λ words. map (λ word. chars (string_bytes word)) words.items
        ≡ words_of_file (chars text.now)) }
{
    let mut cutter = Cutter {
        alloc,
        words: Vec::new(alloc),
        word: None,
        quote: None,
        is_escaped: false,
    };
    'characters: for character in text.chars() {
        cutter.take(character)?;
    }
    cutter.end_word()?;
    Ok(cutter.words)
}

impl Cutter {
    // Takes the next character.
    fn take(&mut self, character: char) -> Result<(), AllocError>
        ensures { OnOk result ((rest : List ℕ) → joined self.new rest ≡ joined self.old (character ∷ rest)) }
    {
        if self.is_escaped {
            self.is_escaped = false;
            return self.push(character);
        }
        if character == '\\' {
            self.is_escaped = true;
            return Ok(());
        }
        match self.quote {
            Some(mark) if character == mark => {
                self.quote = None;
                Ok(())
            }
            Some(_) => self.push(character),
            None => self.take_unquoted(character),
        }
    }

    // Takes the next character, which no `\` and no quotation mark is before.
    fn take_unquoted(&mut self, character: char) -> Result<(), AllocError>
        requires escaped { self.old.is_escaped ≡ false }
        requires quote { self.old.quote ≡ None }
        requires other { character ≢ 92 }
        ensures { OnOk result ((rest : List ℕ) → joined self.new rest ≡ joined self.old (character ∷ rest)) }
    {
        if is_quotation_mark(character) {
            self.quote = Some(character);
            self.begin_word();
            return Ok(());
        }
        if is_white_space(character) {
            return self.end_word();
        }
        self.push(character)
    }

    // Begins a word, unless one has begun.
    fn begin_word(&mut self)
        ensures word { open_word self.new ≡ Some (unwrap_or (open_word self.old) []) }
        ensures same { self.new ≡ record self.old { word = self.new.word } }
    {
        if self.word.is_none() {
            self.word = Some(String::new(self.alloc));
        }
    }

    // Puts a character at the end of the word.
    fn push(&mut self, character: char) -> Result<(), AllocError>
        ensures word { OnOk result (open_word self.new
            ≡ Some (unwrap_or (open_word self.old) [] ++ character ∷ [])) }
        ensures same { OnOk result (self.new ≡ record self.old { word = self.new.word }) }
    {
        self.begin_word();
        match &mut self.word {
            Some(word) => word.push(character),
            None => Ok(()),
        }
    }

    // Ends the word that has begun, if one has.
    fn end_word(&mut self) -> Result<(), AllocError>
        ensures words { OnOk result (ended_words self.new
            ≡ ended_words self.old ++ option_to_list (open_word self.old)) }
        ensures same { OnOk result (self.new ≡ record self.old { words = self.new.words; word = None }) }
    {
        match self.word.take() {
            Some(word) => Ok(self.words.push(word)?),
            None => Ok(()),
        }
    }
}
