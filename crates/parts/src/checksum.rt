//! The checksum of a part.

ghost use Rattle.hex.specs.Hex.{encode_lower};
ghost use Rattle.sha2.specs.Sha256.{sha256};
ghost use Rattle.sha2.specs.Hashers.{Holds256};
ghost use Rattle.std.specs.Prelude.{◌≡◌, ◌≤◌, ℕ, IfOk, List, OnOk, string_bytes};
ghost use Rattle.part_lines.specs.Reading.{Gives};
ghost use Rattle.parts.specs.Inside.Hashing.{HoldsText};
ghost use Rattle.semantics.specs.Parts.{with_checksum};
ghost use Rattle.parts.specs.ReadingParts.{checksum_at};

use crate::texts::next_text;
use crate::write::push_text;
use part_lines::{PartRefusal, ValueReader, check, push_group};
use semantics::PartsFaultKind;
use sha2::{Digest, Sha256};
use std::alloc::{AllocError, Global};
use values::GroupEntry;

/// How many bytes of a text are hashed at once, at least.
const MIN_PIECE_LEN: usize = 4096;

/// Takes the text of a part, one group after the other, for its checksum.
#[derive(Drop)]
pub(crate) struct TextHasher {
    /// What was given the text, but for its end.
    hasher: Sha256,
    /// The end of the text.
    end: Vec<u8>,
}

impl TextHasher {
    ghost use Rattle.std.specs.Prelude.{◌++◌};
    ghost use Rattle.values.specs.GroupStates.{entry_of};
    ghost use Rattle.semantics.specs.Parts.{group_values, text_of};

    /// What was given this text.
    pub(crate) fn of_text(alloc: Global, text: &[u8]) -> TextHasher
        ensures { HoldsText result text.now }
    {
        let mut hasher = Sha256::new();
        hasher.update(text);
        TextHasher {
            hasher,
            end: Vec::new(alloc),
        }
    }

    /// Gives it the text of a group.
    pub(crate) fn push_group(&mut self, alloc: Global, group: &GroupEntry) -> Result<(), AllocError>
        ensures { (text : List ℕ) → HoldsText self.old text → OnOk result
            (HoldsText self.new (text ++ text_of (group_values (entry_of group.now)))) }
    {
        push_group(alloc, &mut self.end, group)?;
        if self.end.len() >= MIN_PIECE_LEN {
            self.hash_end();
        }
        Ok(())
    }

    /// Hashes the end of the text, of which nothing is left then.
    fn hash_end(&mut self)
        ensures { (text : List ℕ) → HoldsText self.old text → HoldsText self.new text }
    {
        self.hasher.update(self.end.as_slice());
        self.end.clear();
    }

    /// The checksum of the text, in hexadecimal.
    fn checksum(self, alloc: Global) -> Result<String, AllocError>
        ensures { (text : List ℕ) → HoldsText self text
            → IfOk result (λ sum. string_bytes sum ≡ encode_lower (sha256 text)) }
    {
        let TextHasher { mut hasher, end } = self;
        hasher.update(end.as_slice());
        checksum(alloc, hasher)
    }
}

/// The checksum of the bytes that were given to a hasher, in hexadecimal.
fn checksum(alloc: Global, hasher: Sha256) -> Result<String, AllocError>
    ensures { (bytes : List ℕ) → Holds256 hasher bytes
        → IfOk result (λ text. string_bytes text ≡ encode_lower (sha256 bytes)) }
{
    let digest = hasher.finalize();
    hex::encode(alloc, digest.as_slice())
}

/// Puts the line of their checksum behind lines.
pub(crate) fn with_checksum(alloc: Global, lines: Vec<u8>) -> Result<Vec<u8>, AllocError>
    ensures { IfOk result (λ text. text.items ≡ with_checksum lines.items) }
{
    let mut hasher = Sha256::new();
    hasher.update(lines.as_slice());
    let checksum = checksum(alloc, hasher)?;
    let mut text = lines;
    push_text(alloc, &mut text, checksum.as_str())?;
    Ok(text)
}

/// The next value, which is the checksum of the text that a hasher was given.
#[tactic(auto, unfolding(crate::specs::ReadingParts::checksum_at))]
pub(crate) fn next_checksum<S: ValueReader>(
    alloc: Global,
    source: &mut S,
    hasher: TextHasher,
) -> Result<(), PartRefusal>
    ensures known { S.known source.old → OnOk result (S.known source.new) }
    ensures onward { OnOk result ((S.stream source.old).place ≤ (S.stream source.new).place) }
    ensures read { (bytes : List ℕ) → HoldsText hasher bytes → S.known source.old
        → Gives (λ _. (tt, S.stream source.new)) result (checksum_at bytes (S.stream source.old)) }
{
    let text = next_text(source)?;
    let checksum = hasher.checksum(alloc)?;
    check(source, text == checksum, PartsFaultKind::WrongChecksum)
}
