//! The identifiers of a game, which rise with the vertex, so that a vertex is the place of its identifier. Identifiers 0, 1
//! and so on are not stored. Others are in a hash set, whose seed comes from all of them, since texts are untrusted.

ghost use Rattle.std.specs.Prelude.{◌≡◌, ◌<◌, ◌↔◌, ℕ, [], length, slice_index, nat_eq, None, IfOk, IfErr, IfSome, IfNone, IsTrue, OnOk};
ghost use Rattle.std.specs.List.{IsDistinct};
ghost use Rattle.pg_game.specs.Specification.{first_repeated, OrMemory};
ghost use Rattle.pg_game.specs.declared.specification.GameFault.TheVariants.{Memory};
ghost use Rattle.pg_game.specs.private.Identifiers.{twice_of};
ghost use Rattle.pg_game.specs.private.IdentifierList.{AreNames, AreOwnPlaces};
ghost use Rattle.pg_game.specs.private.Seed.{seeded_by};
ghost use Rattle.indexmap.specs.IndexSet.{hasher_of};

use crate::specification::GameFault;
use indexmap::IndexSet;
use std::alloc::Global;
use std::hash::{BuildHasher, DefaultHasher, FoldHasher, Hasher};
use std::marker::Model;

/// Rising identifiers.
#[derive(Drop)]
pub struct Identifiers {
    storage: Storage,
}

impl Model for Identifiers {
    ghost use Rattle.std.specs.Prelude.{List, ℕ};
    ghost use Rattle.pg_game.specs.private.IdentifierList.{AreNames, names_of};

    ghost Value = { List ℕ };

    ghost view = { λ n. names_of n.storage };

    ghost invariant = { λ n. AreNames (names_of n.storage) };
}

impl Identifiers {
    /// The identifiers of a rising list. The only error is `Memory`.
    pub fn of_rising(alloc: Global, ids: &[u32]) -> Result<Identifiers, GameFault>
        requires { AreNames ids.now }
        ensures identifiers { IfOk result (λ n. n ≡ ids.now) }
        ensures memory { IfErr result (λ e. e ≡ Memory) }
    {
        if are_own_places(ids) {
            return Ok(Identifiers {
                storage: Storage::Own(ids.len() as u32),
            });
        }
        let set = index_set(alloc, ids)?;
        Ok(Identifiers {
            storage: Storage::Listed(set),
        })
    }

    /// The number of identifiers.
    #[inline]
    pub fn len(&self) -> u32
        ensures { result ≡ length self.now }
    {
        match &self.storage {
            Storage::Own(count) => *count,
            Storage::Listed(ids) => ids.len() as u32,
        }
    }

    /// The identifier at a place.
    #[inline]
    pub fn id(&self, v: u32) -> u32
        requires { v < length self.now }
        ensures { result ≡ slice_index self.now v }
    {
        match &self.storage {
            Storage::Own(_) => v,
            Storage::Listed(ids) => ids.as_slice()[v as usize],
        }
    }

    /// Whether both are the same identifiers.
    pub fn is_same(&self, other: &Identifiers) -> bool
        ensures { IsTrue result ↔ (self.now ≡ other.now) }
    {
        if self.len() != other.len() {
            return false;
        }
        'ids: for v in 0..self.len() {
            if self.id(v) != other.id(v) {
                return false;
            }
        }
        true
    }

    /// The place of the identifier, or none.
    #[inline(always)]
    pub fn place_of(&self, id: u32) -> Option<u32>
        ensures found { IfSome result (λ v. (v < length self.now) × (slice_index self.now v ≡ id)) }
        ensures missing { IfNone result ((v : ℕ) → v < length self.now → slice_index self.now v ≡ id → ⊥) }
    {
        match &self.storage {
            Storage::Own(count) => { if id < *count { Some(id) } else { None } }
            Storage::Listed(ids) => match ids.get_index_of(&id) {
                Some(v) => Some(v as u32),
                None => None,
            },
        }
    }
}

/// The identifiers in their order. The errors are an identifier that occurs earlier in the list, and `Memory`.
pub fn index_set(alloc: Global, ids: &[u32]) -> Result<IndexSet<u32, Seeded>, GameFault>
    ensures ids { IfOk result (λ set. set.keys ≡ ids.now) }
    ensures distinct { IfOk result (λ set. IsDistinct nat_eq set.keys) }
    ensures seed { IfOk result (λ set. (hasher_of set).start ≡ seeded_by ids.now) }
    ensures once { OnOk result (first_repeated [] ids.now ≡ None) }
    ensures fault { IfErr result (λ e. OrMemory (twice_of ids.now ≡ Some e) e) }
{
    let mut set = IndexSet::with_capacity_and_hasher(alloc, ids.len(), Seeded::by(ids))?;
    'ids: for id in ids {
        if !set.insert(*id)? {
            return Err(GameFault::Twice(*id));
        }
    }
    Ok(set)
}

#[derive(Drop)]
enum Storage {
    /// 0, 1 and so on, this many.
    Own(u32),
    /// Any others, sorted.
    Listed(IndexSet<u32, Seeded>),
}

/// Makes hashers that have read a seed.
#[derive(Clone, Copy)]
pub struct Seeded {
    start: FoldHasher,
}

impl Seeded {
    /// The seed is a hash of all identifiers, in their order. So an identifier that is chosen to collide changes which
    /// identifiers collide.
    fn by(ids: &[u32]) -> Seeded
        ensures { result.start ≡ seeded_by ids.now }
    {
        let mut sum = DefaultHasher::new();
        'ids: for id in ids {
            sum.write_u64(*id as u64);
        }
        let mut start = FoldHasher::default();
        start.write_u64(sum.finish());
        Seeded { start }
    }
}

impl BuildHasher for Seeded {
    type Hasher = FoldHasher;

    ghost build_hasher = { λ s. s.start };

    fn build_hasher(&self) -> FoldHasher {
        self.start
    }
}

/// Whether each identifier is its own place.
fn are_own_places(ids: &[u32]) -> bool
    ensures { IsTrue result → AreOwnPlaces ids.now }
{
    'ids: for v in 0..ids.len() {
        if ids[v] as usize != v {
            return false;
        }
    }
    true
}
