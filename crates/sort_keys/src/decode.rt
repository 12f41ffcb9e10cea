//! Values, read from their codes.

ghost use Rattle.std.specs.Prelude.{◌≡◌, ◌-◌, ◌<◌, ◌≤◌, ◌≤ℤ◌, pos, IfOk, length, map};
ghost use Rattle.values.specs.Datum.{data_of, datum_of};
ghost use Rattle.sort_keys.specs.Decoding.{AreDecoded};
ghost use Rattle.sort_keys.specs.Inside.Decoding.{IsNumberSplit, IsSplit, IsTextSplit, IsWideSplit};

use crate::code::{FALSE, HALF, NUMBER, NUMBER_ABOVE, NUMBER_BELOW, TEXT, TRUE};
use crate::split::text_len;
use std::alloc::{AllocError, Global};
use values::Value;

/// The values whose codes stand one after the other, in a list with room for so many from the
/// start. Of bytes that are no codes the values are any.
///
/// Example: of the bytes 2, 6, 98 and 0 they are True and the text `a`.
///
/// # Errors
///
/// `AllocError` where there is no memory for the values.
pub fn values_of(alloc: Global, room: usize, code: &[u8]) -> Result<Vec<Value>, AllocError>
    ensures { IfOk result (λ values. AreDecoded code.now (data_of values.items)) }
{
    let mut values = Vec::with_capacity(alloc, room)?;
    let mut rest = code;
    while !rest.is_empty() {
        let (value, behind) = split_value(alloc, rest)?;
        values.push(value)?;
        rest = behind;
    }
    Ok(values)
}

/// The value whose code stands in front of other bytes, and these.
fn split_value(alloc: Global, code: &[u8]) -> Result<(Value, &[u8]), AllocError>
    ensures value { IfOk result (λ r. IsSplit code.now (datum_of r.0) r.1.now) }
    ensures shorter { IfOk result (λ r. 0 < length code.now → length r.1.now < length code.now) }
{
    let Some((first, rest)) = code.split_first() else {
        return Ok((Value::Null, code));
    };
    match *first {
        FALSE => Ok((Value::Bool(false), rest)),
        TRUE => Ok((Value::Bool(true), rest)),
        NUMBER_BELOW => Ok(split_wide(rest, i128::MIN)),
        NUMBER => Ok(split_number(rest)),
        NUMBER_ABOVE => Ok(split_wide(rest, 0)),
        TEXT => split_text(alloc, rest),
        _ => Ok((Value::Null, rest)),
    }
}

/// The number of 64 bits whose 8 bytes stand in front of others, and these.
fn split_number(code: &[u8]) -> (Value, &[u8])
    ensures value { IsNumberSplit code.now (datum_of result.0) result.1.now }
    ensures shorter { length result.1.now ≤ length code.now }
{
    match code.split_first_chunk::<8>() {
        Some((bytes, rest)) => {
            let number = i128::from(u64::from_be_bytes(*bytes)) - HALF;
            (Value::Int(number), rest)
        }
        None => (Value::Null, code),
    }
}

/// The number that is so far above the least one as the 16 bytes say which stand in front of
/// others, and these.
fn split_wide(code: &[u8], least: i128) -> (Value, &[u8])
    requires { least ≤ℤ pos 0 }
    ensures value { IsWideSplit least code.now (datum_of result.0) result.1.now }
    ensures shorter { length result.1.now ≤ length code.now }
{
    let Some((bytes, rest)) = code.split_first_chunk::<16>() else {
        return (Value::Null, code);
    };
    match i128::try_from(u128::from_be_bytes(*bytes)) {
        Ok(distance) => (Value::Int(least + distance), rest),
        Err(_) => (Value::Null, rest),
    }
}

/// The text whose bytes, each greater by one, and a 0 stand in front of others, and these.
fn split_text(alloc: Global, code: &[u8]) -> Result<(Value, &[u8]), AllocError>
    ensures value { IfOk result (λ r. IsTextSplit code.now (datum_of r.0) r.1.now) }
    ensures shorter { IfOk result (λ r. length r.1.now ≤ length code.now) }
{
    let Some(len) = text_len(code) else {
        return Ok((Value::Null, code));
    };
    let bytes = lowered(alloc, &code[..len])?;
    let rest = &code[len + 1..];
    match String::from_utf8(bytes) {
        Ok(text) => Ok((Value::Text(text), rest)),
        Err(_) => Ok((Value::Null, rest)),
    }
}

/// Bytes, each less by one than here.
fn lowered(alloc: Global, bytes: &[u8]) -> Result<Vec<u8>, AllocError>
    ensures { IfOk result (λ low. low.items ≡ map (λ b. b - 1) bytes.now) }
{
    let mut low = Vec::from_slice(alloc, bytes)?;
    lower(low.as_mut_slice());
    Ok(low)
}

/// Makes each of these bytes less by one, but for those that are 0.
fn lower(bytes: &mut [u8])
    ensures { bytes.new ≡ map (λ b. b - 1) bytes.old }
{
    for byte in bytes.iter_mut() {
        *byte = byte.saturating_sub(1);
    }
}
