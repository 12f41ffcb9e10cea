//! Which shard of a table keeps a key.

ghost use Rattle.std.specs.Prelude.{◌≡◌, ◌<◌, ◌≤◌, ◌^◌};
ghost use Rattle.group_tables.specs.Keys.{key_in};
ghost use Rattle.group_tables.specs.Shards.{code_hash, last_bytes, shard_index};

use crate::packed_key::PackedKey;

/// The number of shards of a table that several hands put to another one. Any other table has one.
pub(crate) const SHARDS: usize = 4;

/// The length of the suffix of a key's code that is hashed.
const HASHED_SUFFIX_LEN: usize = 16;

/// The odd number that parts 2^128 in the golden ratio, by which multiplicative hashing multiplies.
const MULTIPLIER: u128 = 210_306_068_529_402_873_165_736_369_884_012_333_109;

/// The number of the shard that keeps a key among so many of them. Where there is one, the key is
/// not looked at.
pub(crate) fn place_of(key: &PackedKey, count: usize) -> usize
    requires some { 0 < count }
    requires few { count ≤ 4 }
    ensures place { result ≡ shard_index count (key_in key.now) }
    ensures within { result < count }
{
    if count == 1 {
        return 0;
    }
    (hash_of(key.code()) * count as u64 / 4_294_967_296) as usize
}

/// The hash of a code: of its suffix alone.
fn hash_of(code: &[u8]) -> u64
    ensures value { result ≡ code_hash code.now }
    ensures below { result < 2 ^ 32 }
{
    let number = u128::from_be_bytes(last_bytes(code));
    (number.wrapping_mul(MULTIPLIER) >> 96) as u64
}

/// The suffix of a code that is hashed, with zeros in front of a shorter code.
fn last_bytes(code: &[u8]) -> [u8; HASHED_SUFFIX_LEN]
    ensures { result ≡ last_bytes code.now }
{
    if let Some(bytes) = code.last_chunk::<HASHED_SUFFIX_LEN>() {
        return *bytes;
    }
    let mut bytes = [0; HASHED_SUFFIX_LEN];
    bytes[HASHED_SUFFIX_LEN - code.len()..].copy_from_slice(code);
    bytes
}
