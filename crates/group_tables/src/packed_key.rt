//! Keys as strings of bytes.

ghost use Rattle.std.specs.Prelude.{◌≡◌, ◌++◌, OnOk, map, slice_index_or};
ghost use Rattle.values.specs.Datum.{data_of};
ghost use Rattle.semantics.specs.Groups.{value_at};
ghost use Rattle.semantics.specs.Values.{null};
ghost use Rattle.sort_keys.specs.Codes.{value_code};
ghost use Rattle.sort_keys.specs.Decoding.{IsStorable, KeyOf};
ghost use Rattle.sort_keys.proofs.Decoding.{KeyOf-prop};

use sort_keys::{put_value, put_values, split_code, values_of};
use std::alloc::{AllocError, Global};
use std::hash::{Hash, Hasher};
use values::Value;

/// A key of a table: the codes of its values, one after the other. No two keys have one code, so
/// that keys are hashed and compared as strings of bytes.
#[derive(PartialEq, Eq, Drop)]
pub(crate) struct PackedKey {
    code: Vec<u8>,
    ghost of_key: { KeyOf code.items } by { KeyOf-prop code.items },
}

// A derived one would hash byte by byte.
impl Hash for PackedKey {
    ghost use Rattle.std.specs.Prelude.{[], ◌∷◌};
    ghost use Rattle.std.specs.Cmp.Lexicographic.{bytes_decides};
    ghost use Rattle.std.proofs.Common.{ap};

    ghost hash_input = { λ key. key.code.items ∷ [] };

    ghost respects_eq = { λ x y h.
        ap (λ s. s ∷ []) ((bytes_decides x.code.items y.code.items).0 h) };

    fn hash<H: Hasher>(&self, state: &mut H) {
        state.write(self.code.as_slice());
    }
}

impl PackedKey {
    ghost use Rattle.std.specs.Prelude.{◌≡◌, [], IfOk, OnOk, map};
    ghost use Rattle.values.specs.Datum.{data_of};
    ghost use Rattle.semantics.specs.Groups.{project};
    ghost use Rattle.sort_keys.specs.Codes.{value_code, values_code};
    ghost use Rattle.group_tables.specs.Keys.{key_in};

    /// The key that has no value.
    pub(crate) fn empty(alloc: Global) -> PackedKey
        ensures { key_in result ≡ [] }
    {
        PackedKey {
            code: Vec::new(alloc),
        }
    }

    /// The key that has these values.
    pub(crate) fn of_values(alloc: Global, values: &[Value]) -> Result<PackedKey, AllocError>
        ensures { IfOk result (λ key. key_in key ≡ data_of values.now) }
    {
        let mut code = Vec::with_capacity(alloc, code_room(values))?;
        put_values(&mut code, values)?;
        Ok(PackedKey { code })
    }

    /// Its memory, with no byte in it.
    fn into_memory(self) -> Vec<u8>
        ensures { result.items ≡ [] }
    {
        let PackedKey { mut code } = self;
        code.clear();
        code
    }

    /// The values of a record in the columns of a grouping set, in the memory of this key.
    pub(crate) fn rewrite(self, set: &[usize], row: &[Value]) -> Result<PackedKey, AllocError>
        ensures { IfOk result (λ key. key_in key ≡ project set.now (data_of row.now)) }
    {
        let mut code = self.into_memory();
        for place in set {
            put_value_at(&mut code, row, *place)?;
        }
        Ok(PackedKey { code })
    }

    /// The values of another key at some places, in the memory of this key; where the other one has
    /// no such place it is NULL. No value is made: the codes of the other key's values, which the
    /// list takes, are put one after the other.
    pub(crate) fn rewrite_from<'a>(
        self,
        places: &[usize],
        other: &'a PackedKey,
        pieces: &mut Vec<&'a [u8]>,
    ) -> Result<PackedKey, AllocError>
        ensures { IfOk result (λ key. key_in key ≡ project places.now (key_in other.now)) }
    {
        other.split(pieces)?;
        let pieces = pieces.as_slice();
        let mut code = self.into_memory();
        for place in places {
            put_piece_at(&mut code, pieces, *place)?;
        }
        Ok(PackedKey { code })
    }

    /// The codes of its values, each by itself, in the memory of a list.
    fn split<'a>(&'a self, pieces: &mut Vec<&'a [u8]>) -> Result<(), AllocError>
        ensures { OnOk result (map (λ piece. piece.now) pieces.new.items
            ≡ map value_code (key_in self.now)) }
    {
        pieces.clear();
        let mut rest = self.code.as_slice();
        while !rest.is_empty() {
            let (piece, behind) = split_code(rest);
            pieces.push(piece)?;
            rest = behind;
        }
        Ok(())
    }

    /// A copy of the key, with room for no more.
    pub(crate) fn copy(&self, alloc: Global) -> Result<PackedKey, AllocError>
        ensures { IfOk result (λ copy. key_in copy ≡ key_in self.now) }
    {
        let code = Vec::from_slice(alloc, self.code.as_slice())?;
        Ok(PackedKey { code })
    }

    /// Its values, in a list with room for so many from the start.
    pub(crate) fn values(&self, alloc: Global, room: usize) -> Result<Vec<Value>, AllocError>
        ensures { IfOk result (λ values. data_of values.items ≡ key_in self.now) }
    {
        values_of(alloc, room, self.code.as_slice())
    }

    /// Its code.
    pub(crate) fn code(&self) -> &[u8]
        ensures { result.now ≡ values_code (key_in self.now) }
    {
        self.code.as_slice()
    }
}

/// How many bytes the codes of values take, unless a whole number among them has more than 64 bits.
fn code_room(values: &[Value]) -> usize {
    let mut room: usize = 0;
    for value in values {
        room = room.saturating_add(value_room(value));
    }
    room
}

/// The same of one value.
fn value_room(value: &Value) -> usize {
    match value {
        Value::Bool(_) | Value::Null => 1,
        Value::Int(_) => 9,
        Value::Text(text) => text.len().saturating_add(2),
    }
}

/// Puts the code of the value in the column at a place behind other bytes; where there is no such
/// column it counts as NULL.
fn put_value_at(code: &mut Vec<u8>, row: &[Value], place: usize) -> Result<(), AllocError>
    ensures code { OnOk result (code.new.items
        ≡ code.old.items ++ value_code (value_at place (data_of row.now))) }
    ensures storable { IsStorable (value_at place (data_of row.now)) }
{
    match row.get(place) {
        Some(value) => put_value(code, value),
        None => put_value(code, &Value::Null),
    }
}

/// Puts the piece at a place behind other bytes; where there is no such piece the code of NULL.
fn put_piece_at(code: &mut Vec<u8>, pieces: &[&[u8]], place: usize) -> Result<(), AllocError>
    ensures { OnOk result (code.new.items ≡ code.old.items
        ++ slice_index_or (map (λ piece. piece.now) pieces.now) place (value_code null)) }
{
    match pieces.get(place) {
        Some(piece) => code.extend_from_slice(piece),
        None => put_value(code, &Value::Null),
    }
}
