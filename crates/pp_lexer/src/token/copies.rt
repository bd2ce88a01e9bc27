//! Copies of tokens and of errors. A copy allocates, so it can fail.

ghost use Rattle.std.specs.Prelude.{◌≡◌, [], false, IfOk, IsOk, MatchResult};
ghost use Rattle.pp_lexer.specs.PreprocessorError.{out_of_memory, error_holds_memory};
ghost use Rattle.pp_lexer.specs.TokenValue.{holds_memory};

use crate::token::{
    Extension, Float, Location, Pragma, PreprocessorError, Token, TokenValue, Tokens, Version,
    refused,
};
use std::alloc::{AllocError, Global};

impl Float {
    /// Returns a copy. The only error is `OutOfMemory`, as `out_of_memory` returns it.
    pub fn clone(&self, alloc: Global) -> Result<Self, (PreprocessorError, Location)>
        ensures { MatchResult result (λ copy. copy ≡ self.now) (λ error. error ≡ out_of_memory) }
    {
        self.try_clone(alloc).map_err(refused)
    }

    pub(crate) fn try_clone(&self, alloc: Global) -> Result<Self, AllocError>
        ensures { IfOk result (λ copy. copy ≡ self.now) }
    {
        Ok(Float {
            text: self.text.try_clone(alloc)?,
            width: self.width,
        })
    }
}

impl Tokens {
    /// Returns a copy. The error is that an allocation failed; an empty list never fails.
    #[cycle(copy)]
    pub fn try_clone(&self, alloc: Global) -> Result<Self, AllocError>
        ensures copied { IfOk result (λ copy. copy ≡ self.now) }
        ensures without_memory { self.now ≡ [] → IsOk result }
    {
        Ok(Tokens {
            items: copy_items(alloc, &self.items)?,
        })
    }
}

#[cycle(copy)]
fn copy_items(alloc: Global, items: &Vec<Token>) -> Result<Vec<Token>, AllocError>
    ensures copied { IfOk result (λ copy. copy.items ≡ items.now.items) }
    ensures without_memory { items.now.items ≡ [] → IsOk result }
{
    let mut copies = Vec::new(alloc);
    for item in items {
        copies.push(item.try_clone(alloc)?)?;
    }
    Ok(copies)
}

impl Version {
    /// Returns a copy. The only error is `OutOfMemory`, as `out_of_memory` returns it. The copy of
    /// a line without tokens never fails.
    pub fn clone(&self, alloc: Global) -> Result<Self, (PreprocessorError, Location)>
        ensures copied { MatchResult result (λ copy. copy ≡ self.now) (λ error. error
            ≡ out_of_memory) }
        ensures without_memory { self.now.tokens ≡ [] → IsOk result }
    {
        self.try_clone(alloc).map_err(refused)
    }

    #[cycle(copy)]
    fn try_clone(&self, alloc: Global) -> Result<Self, AllocError>
        ensures copied { IfOk result (λ copy. copy ≡ self.now) }
        ensures without_memory { self.now.tokens ≡ [] → IsOk result }
    {
        Ok(Version {
            tokens: self.tokens.try_clone(alloc)?,
            is_first_directive: self.is_first_directive,
            has_comments_before: self.has_comments_before,
        })
    }
}

impl Extension {
    /// Returns a copy. The only error is `OutOfMemory`, as `out_of_memory` returns it. The copy of
    /// a line without tokens never fails.
    pub fn clone(&self, alloc: Global) -> Result<Self, (PreprocessorError, Location)>
        ensures copied { MatchResult result (λ copy. copy ≡ self.now) (λ error. error
            ≡ out_of_memory) }
        ensures without_memory { self.now.tokens ≡ [] → IsOk result }
    {
        self.try_clone(alloc).map_err(refused)
    }

    #[cycle(copy)]
    fn try_clone(&self, alloc: Global) -> Result<Self, AllocError>
        ensures copied { IfOk result (λ copy. copy ≡ self.now) }
        ensures without_memory { self.now.tokens ≡ [] → IsOk result }
    {
        Ok(Extension {
            tokens: self.tokens.try_clone(alloc)?,
            has_non_directive_before: self.has_non_directive_before,
        })
    }
}

impl Pragma {
    /// Returns a copy. The only error is `OutOfMemory`, as `out_of_memory` returns it. The copy of
    /// a line without tokens never fails.
    pub fn clone(&self, alloc: Global) -> Result<Self, (PreprocessorError, Location)>
        ensures copied { MatchResult result (λ copy. copy ≡ self.now) (λ error. error
            ≡ out_of_memory) }
        ensures without_memory { self.now.tokens ≡ [] → IsOk result }
    {
        self.try_clone(alloc).map_err(refused)
    }

    #[cycle(copy)]
    fn try_clone(&self, alloc: Global) -> Result<Self, AllocError>
        ensures copied { IfOk result (λ copy. copy ≡ self.now) }
        ensures without_memory { self.now.tokens ≡ [] → IsOk result }
    {
        Ok(Pragma {
            tokens: self.tokens.try_clone(alloc)?,
        })
    }
}

impl TokenValue {
    /// Returns a copy. The only error is `OutOfMemory`, as `out_of_memory` returns it. The copy of
    /// an integer or a punctuator never fails.
    pub fn clone(&self, alloc: Global) -> Result<Self, (PreprocessorError, Location)>
        ensures copied { MatchResult result (λ copy. copy ≡ self.now) (λ error. error
            ≡ out_of_memory) }
        ensures without_memory { holds_memory self.now ≡ false → IsOk result }
    {
        self.try_clone(alloc).map_err(refused)
    }

    #[cycle(copy)]
    fn try_clone(&self, alloc: Global) -> Result<Self, AllocError>
        ensures copied { IfOk result (λ copy. copy ≡ self.now) }
        ensures without_memory { holds_memory self.now ≡ false → IsOk result }
    {
        Ok(match self {
            TokenValue::Ident(text) => TokenValue::Ident(text.try_clone(alloc)?),
            TokenValue::Integer(integer) => TokenValue::Integer(*integer),
            TokenValue::Float(float) => TokenValue::Float(float.try_clone(alloc)?),
            TokenValue::Punct(punct) => TokenValue::Punct(*punct),
            TokenValue::Version(version) => TokenValue::Version(version.try_clone(alloc)?),
            TokenValue::Extension(extension) => TokenValue::Extension(extension.try_clone(alloc)?),
            TokenValue::Pragma(pragma) => TokenValue::Pragma(pragma.try_clone(alloc)?),
        })
    }
}

impl Token {
    /// Returns a copy. The only error is `OutOfMemory`, as `out_of_memory` returns it. The copy of
    /// an integer or punctuator token never fails.
    pub fn clone(&self, alloc: Global) -> Result<Self, (PreprocessorError, Location)>
        ensures copied { MatchResult result (λ copy. copy ≡ self.now) (λ error. error
            ≡ out_of_memory) }
        ensures without_memory { holds_memory self.now.value ≡ false → IsOk result }
    {
        self.try_clone(alloc).map_err(refused)
    }

    #[cycle(copy)]
    fn try_clone(&self, alloc: Global) -> Result<Self, AllocError>
        ensures copied { IfOk result (λ copy. copy ≡ self.now) }
        ensures without_memory { holds_memory self.now.value ≡ false → IsOk result }
    {
        Ok(Token {
            value: self.value.try_clone(alloc)?,
            location: self.location,
        })
    }
}

impl PreprocessorError {
    /// Returns a copy. The only error is `OutOfMemory`, as `out_of_memory` returns it. Only the
    /// copy of an `UnexpectedToken` can fail.
    pub fn clone(&self, alloc: Global) -> Result<Self, (PreprocessorError, Location)>
        ensures copied { MatchResult result (λ copy. copy ≡ self.now) (λ error. error
            ≡ out_of_memory) }
        ensures without_memory { error_holds_memory self.now ≡ false → IsOk result }
    {
        Ok(match self {
            PreprocessorError::UnexpectedToken(value) => {
                PreprocessorError::UnexpectedToken(value.clone(alloc)?)
            }
            PreprocessorError::IntegerOverflow => PreprocessorError::IntegerOverflow,
            PreprocessorError::FloatParsingError => PreprocessorError::FloatParsingError,
            PreprocessorError::UnexpectedCharacter => PreprocessorError::UnexpectedCharacter,
            PreprocessorError::UnexpectedHash => PreprocessorError::UnexpectedHash,
            PreprocessorError::UnexpectedNewLine => PreprocessorError::UnexpectedNewLine,
            PreprocessorError::UnexpectedEndOfInput => PreprocessorError::UnexpectedEndOfInput,
            PreprocessorError::TooFewDefineArguments => PreprocessorError::TooFewDefineArguments,
            PreprocessorError::TooManyDefineArguments => PreprocessorError::TooManyDefineArguments,
            PreprocessorError::ErrorDirective => PreprocessorError::ErrorDirective,
            PreprocessorError::DuplicateParameter => PreprocessorError::DuplicateParameter,
            PreprocessorError::UnknownDirective => PreprocessorError::UnknownDirective,
            PreprocessorError::DefineRedefined => PreprocessorError::DefineRedefined,
            PreprocessorError::ElifOutsideOfBlock => PreprocessorError::ElifOutsideOfBlock,
            PreprocessorError::ElseOutsideOfBlock => PreprocessorError::ElseOutsideOfBlock,
            PreprocessorError::EndifOutsideOfBlock => PreprocessorError::EndifOutsideOfBlock,
            PreprocessorError::ElifAfterElse => PreprocessorError::ElifAfterElse,
            PreprocessorError::MoreThanOneElse => PreprocessorError::MoreThanOneElse,
            PreprocessorError::UnfinishedBlock => PreprocessorError::UnfinishedBlock,
            PreprocessorError::LineOverflow => PreprocessorError::LineOverflow,
            PreprocessorError::NotSupported16BitLiteral =>
                PreprocessorError::NotSupported16BitLiteral,
            PreprocessorError::NotSupported64BitLiteral =>
                PreprocessorError::NotSupported64BitLiteral,
            PreprocessorError::MacroNotDefined => PreprocessorError::MacroNotDefined,
            PreprocessorError::RecursionLimitReached => PreprocessorError::RecursionLimitReached,
            PreprocessorError::DivisionByZero => PreprocessorError::DivisionByZero,
            PreprocessorError::RemainderByZero => PreprocessorError::RemainderByZero,
            PreprocessorError::OutOfMemory => PreprocessorError::OutOfMemory,
        })
    }
}
