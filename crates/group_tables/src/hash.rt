//! How keys and values are hashed.

ghost use Rattle.std.specs.Prelude.{IfOk};

use std::collections::hash_map::RandomState;
use std::hash::{BuildHasher, DefaultHasher};
use std::io;
use std::random::RandomSource;

/// The seed by which a table hashes its groups' keys and the values that `COUNT(DISTINCT x)`
/// counts: the two keys of SipHash-1-3, of 64 bits each. No bytes make this hash forget those
/// before them. Which groups a table has, and what it gives of them, does not depend on the seed;
/// how long it takes may.
///
/// Example: `Table::new(alloc, HashSeed::Fixed, &[], functions)` has the one group that it has with
/// another seed.
#[derive(Clone, Copy)]
pub enum HashSeed {
    /// The keys 0, as `DefaultHasher::new()` has them. Whoever picks the keys of the groups can
    /// search for many that have one hash, and the table is slow then.
    Fixed,
    /// Keys that are drawn by chance.
    Random(RandomState),
}

impl HashSeed {
    ghost use Rattle.group_tables.specs.Hashing.{IsDrawn};

    /// A seed of 128 random bits of the system. It is drawn once, for all tables of a run.
    ///
    /// Example: `HashSeed::draw(&rt)?` answers a `HashSeed::Random`, of other keys in each run.
    ///
    /// # Errors
    ///
    /// The error of the system where it gives no random bytes.
    pub fn draw<R: RandomSource>(rt: &R) -> io::Result<HashSeed>
        ensures drawn { IfOk result (λ seed. IsDrawn seed) }
    {
        Ok(HashSeed::Random(RandomState::new(rt)?))
    }
}

impl BuildHasher for HashSeed {
    ghost use Rattle.group_tables.specs.Hashing.{initial_hasher};

    type Hasher = DefaultHasher;

    ghost build_hasher = { initial_hasher };

    // For the fixed seed the compiler knows the hasher's first state; `BuildHasherDefault` would
    // read it from the map.
    fn build_hasher(&self) -> DefaultHasher {
        match self {
            HashSeed::Fixed => DefaultHasher::new(),
            HashSeed::Random(state) => state.build_hasher(),
        }
    }
}
