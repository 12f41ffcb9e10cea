//! Codes as a sort has them at hand.

ghost use Rattle.std.specs.Prelude.{◌≡◌, drop};
ghost use Rattle.sort_keys.specs.SortKeys.{digits_of};
ghost use Rattle.sort_keys.specs.declared.sort_key.TheConstants.{NUMBER_BYTES};

use std::alloc::{AllocError, Global};
use std::cmp::Ordering;

/// How many bytes of a code one number has.
const NUMBER_BYTES: usize = 16;

/// A code as a sort has it at hand: two numbers, which tell most codes apart, and the rest.
///
/// Example: the key of a code of 20 bytes has no rest, and takes no memory of its own.
#[derive(Drop)]
pub struct SortKey {
    /// The first 16 bytes as one number, the first byte highest, with zeros behind a shorter code.
    first: u128,
    /// The 16 bytes behind them, in the same way.
    second: u128,
    /// The bytes behind these.
    rest: Vec<u8>,
}

/// The first bytes of a code as the digits of one number, the first one highest, with zeros behind
/// a shorter code.
fn digits_of(code: &[u8]) -> u128
    ensures { result ≡ digits_of code.now }
{
    match code.first_chunk::<NUMBER_BYTES>() {
        Some(digits) => u128::from_be_bytes(*digits),
        None => padded_digits(code),
    }
}

/// The same, by way of a copy with the zeros behind it.
fn padded_digits(code: &[u8]) -> u128
    ensures { result ≡ digits_of code.now }
{
    let len = code.len().min(NUMBER_BYTES);
    let mut digits = [0; NUMBER_BYTES];
    digits[..len].copy_from_slice(&code[..len]);
    u128::from_be_bytes(digits)
}

/// The bytes of a code behind the first ones.
fn behind(code: &[u8]) -> &[u8]
    ensures { result.now ≡ drop NUMBER_BYTES code.now }
{
    code.get(NUMBER_BYTES..).unwrap_or(&[])
}

impl SortKey {
    ghost use Rattle.std.specs.Prelude.{◌≡◌, IfOk};
    ghost use Rattle.std.specs.Ordering.{nat_cmp, ordering_then};
    ghost use Rattle.std.specs.Cmp.Lexicographic.{slice_cmp};
    ghost use Rattle.sort_keys.specs.SortKeys.{key_parts, parts_of, parts_order};

    /// The key of a code.
    ///
    /// Example: `SortKey::new(alloc, &[2, 255])?` is the key of True and NULL.
    ///
    /// # Errors
    ///
    /// `AllocError` where there is no memory for the bytes behind the first 32.
    pub fn new(alloc: Global, code: &[u8]) -> Result<SortKey, AllocError>
        ensures { IfOk result (λ key. key_parts key ≡ parts_of code.now) }
    {
        let next = behind(code);
        let mut rest = Vec::new(alloc);
        rest.extend_from_slice(behind(next))?;
        Ok(SortKey {
            first: digits_of(code),
            second: digits_of(next),
            rest,
        })
    }

    /// How two keys stand to each other: as the first 32 bytes of their codes, with zeros behind a
    /// shorter one, and then as the bytes behind these, one by one.
    ///
    /// So the codes 1 and 1 0 are the same here. No code of a value is the beginning of another one
    /// (`codes_law`), so the codes of equally many values are never such. Where neither of two
    /// codes is the beginning of the other, this is their order byte by byte (`parts_law`).
    ///
    /// Example: the key of the bytes 1 and 2 is before that of the byte 3.
    pub fn compare(&self, other: &SortKey) -> Ordering
        ensures { result ≡ parts_order (key_parts self.now) (key_parts other.now) }
    {
        match self.first.cmp(&other.first) {
            Ordering::Equal => self.compare_behind(other),
            order => order,
        }
    }

    /// How two keys with the same first number stand to each other.
    fn compare_behind(&self, other: &SortKey) -> Ordering
        ensures { result ≡ ordering_then (nat_cmp self.now.second other.now.second)
            (slice_cmp nat_cmp self.now.rest.items other.now.rest.items) }
    {
        match self.second.cmp(&other.second) {
            Ordering::Equal => self.rest.as_slice().cmp(other.rest.as_slice()),
            order => order,
        }
    }
}
