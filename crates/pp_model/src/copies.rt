//! Copies of tokens and faults.

ghost use Rattle.std.specs.Prelude.{◌≡◌, IfOk};

use crate::place::PlacedFault;
use crate::read::Read;
use pp_lexer::token::{Token, TokenValue};
use std::alloc::{AllocError, Global};

/// Returns a copy of a token. The error is that an allocation failed.
pub fn copy_token(alloc: Global, token: &Token) -> Result<Token, AllocError>
    ensures { IfOk result (λ copy. copy ≡ token.now) }
{
    match token.clone(alloc) {
        Ok(copy) => Ok(copy),
        Err(_) => Err(AllocError),
    }
}

/// Returns a copy of a token's value. The error is that an allocation failed.
pub fn copy_value(alloc: Global, value: &TokenValue) -> Result<TokenValue, AllocError>
    ensures { IfOk result (λ copy. copy ≡ value.now) }
{
    match value.clone(alloc) {
        Ok(copy) => Ok(copy),
        Err(_) => Err(AllocError),
    }
}

/// Returns a copy of a token with its paint. The error is that an allocation failed.
pub fn copy_read(alloc: Global, read: &Read) -> Result<Read, AllocError>
    ensures { IfOk result (λ copy. copy ≡ read.now) }
{
    Ok(Read {
        token: copy_token(alloc, &read.token)?,
        text: read.text,
        painted: read.painted,
    })
}

/// Returns a copy of a fault. The error is that an allocation failed.
pub fn copy_fault(alloc: Global, fault: &PlacedFault) -> Result<PlacedFault, AllocError>
    ensures { IfOk result (λ copy. copy ≡ fault.now) }
{
    match fault.0.clone(alloc) {
        Ok(error) => Ok((error, fault.1)),
        Err(_) => Err(AllocError),
    }
}
