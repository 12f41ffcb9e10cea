//! Codes, put behind other bytes.

ghost use Rattle.std.specs.Prelude.{◌≡◌, [], ◌∷◌, ◌++◌, ◌<◌, ◌^◌, suc, OnOk, map};
ghost use Rattle.std.specs.Int.{bytes_high_first};
ghost use Rattle.std.specs.List.{AllByRecursion};
ghost use Rattle.semantics.specs.Values.{whole, text};
ghost use Rattle.values.specs.Datum.{data_of, datum_of};
ghost use Rattle.query_ast.specs.Syntax.{key_form};
ghost use Rattle.sort_keys.specs.declared.sort_key.TheConstants.{NUMBER_BYTES};
ghost use Rattle.sort_keys.specs.declared.code.TheConstants.{NULL_LAST};
ghost use Rattle.sort_keys.specs.Codes.{IsCodable, complement, index_code, key_code, number_code, value_code, values_code};

use query_ast::Key;
use std::alloc::AllocError;
use values::Value;

// ---- the bytes that codes begin with

const NULL_FIRST: u8 = 0;

pub(crate) const FALSE: u8 = 1;

pub(crate) const TRUE: u8 = 2;

pub(crate) const NUMBER_BELOW: u8 = 3;

pub(crate) const NUMBER: u8 = 4;

pub(crate) const NUMBER_ABOVE: u8 = 5;

pub(crate) const TEXT: u8 = 6;

const NULL_LAST: u8 = 255;

const LONG_INDEX: u8 = 255;

/// The byte behind the bytes of a text.
pub(crate) const TEXT_END: u8 = 0;

/// How far the least number of 64 bits is below 0.
pub(crate) const HALF: i128 = 1 << 63;

/// Puts a byte behind others.
fn put_byte(code: &mut Vec<u8>, byte: u8) -> Result<(), AllocError>
    ensures { OnOk result (code.new.items ≡ code.old.items ++ byte ∷ []) }
{
    code.push(byte)?;
    Ok(())
}

// ---- values

/// Puts the code of a value behind other bytes.
///
/// Example: of True it is the byte 2, and of the text `a` the bytes 6, 98 and 0.
///
/// # Errors
///
/// `AllocError` where there is no memory for the bytes.
pub fn put_value(code: &mut Vec<u8>, value: &Value) -> Result<(), AllocError>
    ensures code { OnOk result (code.new.items
        ≡ code.old.items ++ value_code (datum_of value.now)) }
    ensures codable { IsCodable (datum_of value.now) }
{
    match value {
        Value::Bool(true) => put_byte(code, TRUE),
        Value::Bool(false) => put_byte(code, FALSE),
        Value::Int(number) => put_number(code, *number),
        Value::Text(text) => put_text(code, text.as_str()),
        Value::Null => put_byte(code, NULL_LAST),
    }
}

/// Puts the codes of values behind other bytes, one after the other.
///
/// Example: of True and NULL they are the bytes 2 and 255.
///
/// # Errors
///
/// `AllocError` where there is no memory for the bytes.
pub fn put_values(code: &mut Vec<u8>, values: &[Value]) -> Result<(), AllocError>
    ensures code { OnOk result (code.new.items
        ≡ code.old.items ++ values_code (data_of values.now)) }
    ensures codable { OnOk result (AllByRecursion IsCodable (data_of values.now)) }
{
    for value in values {
        put_value(code, value)?;
    }
    Ok(())
}

/// Puts the code of a whole number behind other bytes.
fn put_number(code: &mut Vec<u8>, number: i128) -> Result<(), AllocError>
    ensures code { OnOk result (code.new.items ≡ code.old.items ++ number_code number) }
    ensures codable { IsCodable (whole number) }
{
    if number < -HALF {
        return put_wide(code, NUMBER_BELOW, (number + i128::MAX + 1) as u128);
    }
    if number >= HALF {
        return put_wide(code, NUMBER_ABOVE, number as u128);
    }
    code.push(NUMBER)?;
    code.extend_from_slice(&((number + HALF) as u64).to_be_bytes())
}

/// Puts a byte and the 16 bytes of a number, the highest first, behind other bytes.
fn put_wide(code: &mut Vec<u8>, lead: u8, number: u128) -> Result<(), AllocError>
    ensures { OnOk result (code.new.items
        ≡ code.old.items ++ lead ∷ bytes_high_first NUMBER_BYTES number) }
{
    code.push(lead)?;
    code.extend_from_slice(&number.to_be_bytes())
}

/// Puts the code of a text behind other bytes.
fn put_text(code: &mut Vec<u8>, string: &str) -> Result<(), AllocError>
    ensures code { OnOk result (code.new.items ≡ code.old.items ++ value_code (text string.now)) }
    ensures codable { IsCodable (text string.now) }
{
    code.push(TEXT)?;
    let start = code.len();
    code.extend_from_slice(string.as_bytes())?;
    raise(&mut code.as_mut_slice()[start..]);
    put_byte(code, TEXT_END)
}

/// Makes each of these bytes greater by one. None of them is the greatest byte, which `NULL_LAST`
/// is.
fn raise(bytes: &mut [u8])
    requires { AllByRecursion (λ b. b < NULL_LAST) bytes.old }
    ensures { bytes.new ≡ map suc bytes.old }
{
    for byte in bytes.iter_mut() {
        *byte += 1;
    }
}

// ---- keys of ORDER BY

/// Puts the code of a value under a key of ORDER BY behind other bytes.
///
/// Example: under a key with DESC the byte of True, a 2, is a 253.
///
/// # Errors
///
/// `AllocError` where there is no memory for the bytes.
pub fn put_key_value(code: &mut Vec<u8>, key: &Key, value: &Value) -> Result<(), AllocError>
    ensures code { OnOk result (code.new.items
        ≡ code.old.items ++ key_code (key_form key.now) (datum_of value.now)) }
    ensures codable { IsCodable (datum_of value.now) }
{
    if let Value::Null = value {
        let byte = if key.nulls_first {
            NULL_FIRST
        } else {
            NULL_LAST
        };
        return put_byte(code, byte);
    }
    let start = code.len();
    put_value(code, value)?;
    if key.descending {
        complement(&mut code.as_mut_slice()[start..]);
    }
    Ok(())
}

/// Makes each of these bytes as far from the greatest byte as it was from 0.
fn complement(bytes: &mut [u8])
    ensures { bytes.new ≡ complement bytes.old }
{
    for byte in bytes.iter_mut() {
        *byte = u8::MAX - *byte;
    }
}

// ---- indexes

/// Puts the code of an index behind other bytes.
///
/// Example: of the index 7 it is the byte 7.
///
/// # Errors
///
/// `AllocError` where there is no memory for the bytes.
pub fn put_index(code: &mut Vec<u8>, index: usize) -> Result<(), AllocError>
    ensures code { OnOk result (code.new.items ≡ code.old.items ++ index_code index) }
    ensures fits { index < 2 ^ 64 }
{
    match u8::try_from(index) {
        Ok(byte) if byte < LONG_INDEX => put_byte(code, byte),
        Ok(_) | Err(_) => {
            code.push(LONG_INDEX)?;
            code.extend_from_slice(&index.to_be_bytes())
        }
    }
}
