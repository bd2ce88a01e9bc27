//! Copies of lists of tokens, of names and of definitions, and of errors.

ghost use Rattle.std.specs.Prelude.{◌≡◌, IfOk};

use pp_lexer::token::{Text, Token};
use pp_model::copies::{copy_read, copy_token};
use pp_model::definition::Definition;
use pp_model::outcome::Fault;
use pp_model::read::Read;
use std::alloc::{AllocError, Global};

/// Copies of the tokens, in order.
pub fn copy_tokens(alloc: Global, tokens: &[Token]) -> Result<Vec<Token>, AllocError>
    ensures { IfOk result (λ copies. copies.items ≡ tokens.now) }
{
    let mut copies = Vec::new(alloc);
    for token in tokens {
        copies.push(copy_token(alloc, token)?)?;
    }
    Ok(copies)
}

/// Copies of the tokens with their paint, in order.
pub fn copy_reads(alloc: Global, reads: &[Read]) -> Result<Vec<Read>, AllocError>
    ensures { IfOk result (λ copies. copies.items ≡ reads.now) }
{
    let mut copies = Vec::new(alloc);
    for read in reads {
        copies.push(copy_read(alloc, read)?)?;
    }
    Ok(copies)
}

/// Copies of the names, in order.
pub fn copy_names(alloc: Global, names: &[Text]) -> Result<Vec<Text>, AllocError>
    ensures { IfOk result (λ copies. copies.items ≡ names.now) }
{
    let mut copies = Vec::new(alloc);
    for name in names {
        copies.push(name.try_clone(alloc)?)?;
    }
    Ok(copies)
}

/// A copy of a macro's definition.
pub fn copy_definition(alloc: Global, definition: &Definition) -> Result<Definition, AllocError>
    ensures { IfOk result (λ copy. copy ≡ definition.now) }
{
    Ok(Definition {
        function_like: definition.function_like,
        parameters: copy_names(alloc, &definition.parameters)?,
        body: copy_tokens(alloc, &definition.body)?,
        text: definition.text,
    })
}

/// A copy of an error of the lexer.
pub fn copy_fault(alloc: Global, fault: &Fault) -> Result<Fault, AllocError>
    ensures { IfOk result (λ copy. copy ≡ fault.now) }
{
    match fault.0.clone(alloc) {
        Ok(error) => Ok((error, fault.1)),
        Err(_) => Err(AllocError),
    }
}
