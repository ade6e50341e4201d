//! How specifications become a game, or have a first fault. A `GameBuilder` has specifications, each part in a list of its
//! own, which is the game's where nothing has to be sorted. Its functions stand in the order of their calls. An
//! `IncrementalBuilder` has one more specification that is not complete, so that a reader of texts writes each successor once.

ghost use Rattle.std.specs.Prelude.{◌≡◌, ◌<◌, ◌≤◌, ◌^◌, ◌↔◌, ◌++◌, ◌∷◌, [], ℕ, length, map, slice_index, slice_index_or, All};
ghost use Rattle.std.specs.Prelude.{IfOk, IfErr, OnOk, OnErr, IsTrue, None, Some};
ghost use Rattle.std.specs.List.Sorted.{IsStrictlyIncreasing, IsNonDecreasing, IsPermutation};
ghost use Rattle.pg_game.specs.Flat.{specs_from};
ghost use Rattle.pg_game.specs.private.Stored.{AreParts, AreWithinLimits, IsStored};
ghost use Rattle.pg_game.specs.View.{graph_of};
ghost use Rattle.pg_game.specs.declared.specification.Spec.{Spec};
ghost use Rattle.pg_game.specs.Graph.{IsGame};
ghost use Rattle.pg_game.specs.Specification.{AreNumbers, IsGameOf, OrMemory, max_vertices, max_edges, edges, first_fault, first_repeated, first_without};
ghost use Rattle.pg_game.specs.private.Identifiers.{ids_of, priorities_of, owners_of, successor_lists, twice_of, rows_fault};
ghost use Rattle.pg_game.specs.private.Lines.{AreLines};
ghost use Rattle.pg_game.specs.private.Resolved.{AreResolvedSpecs};

use crate::Memory;
use crate::adjacency::{Adjacency, is_rising, put_rising};
use crate::game::{ForwardGame, Game};
use crate::identifiers::{Identifiers, index_set};
use crate::player::Player;
use crate::specification::{GameFault, MAX_EDGES, MAX_VERTICES, Spec};
use std::alloc::Global;
use std::marker::Model;

/// Specifications in their order, part by part. The successors are identifiers.
#[derive(Drop)]
pub struct GameBuilder {
    ids: Vec<u32>,
    priorities: Vec<u32>,
    owners: Vec<Player>,
    rows: Adjacency,
}

impl Model for GameBuilder {
    ghost use Rattle.std.specs.Prelude.{List};
    ghost use Rattle.pg_game.specs.declared.specification.Spec.{Spec};

    ghost Value = { List Spec };

    ghost use Rattle.pg_game.specs.Flat.{specs_from};
    ghost use Rattle.pg_game.specs.private.Stored.{AreParts};

    ghost view = { λ s. specs_from s.ids.items s.priorities.items s.owners.items s.rows };

    ghost invariant = { λ s. AreParts s.ids.items s.priorities.items s.owners.items s.rows };
}

impl Game {
    /// The game of these specifications, whose vertices go by rising identifier. Refused by the first fault, or by `Memory`.
    pub fn from_specs(alloc: Global, specs: Vec<Spec>) -> Result<Game, GameFault>
        requires { All AreNumbers specs.items }
        ensures game { IfOk result (λ g. IsGame g × IsGameOf specs.items g × (first_fault specs.items ≡ None)) }
        ensures fault { IfErr result (λ e. OrMemory (first_fault specs.items ≡ Some e) e) }
    {
        let flat = GameBuilder::of_list(alloc, specs.as_slice())?;
        drop(specs);
        let forward = ForwardGame::from_builder(alloc, flat)?;
        Ok(Game::of_forward(alloc, forward)?)
    }
}

impl ForwardGame {
    /// The game of these specifications, whose vertices go by rising identifier. Where the identifiers are 0, 1 and so on and
    /// successors rise, the lists are the game's. Refused by the first fault, or by `Memory`.
    pub fn from_builder(alloc: Global, specs: GameBuilder) -> Result<ForwardGame, GameFault>
        requires { All AreNumbers specs }
        ensures game { IfOk result (λ g. IsGame g × IsGameOf specs g × (first_fault specs ≡ None)) }
        ensures fault { IfErr result (λ e. OrMemory (first_fault specs ≡ Some e) e) }
    {
        if specs.ids.is_empty() {
            return Err(GameFault::NoVertex);
        }
        if specs.ids.len() > MAX_VERTICES {
            return Err(GameFault::TooManyVertices);
        }
        if is_rising(specs.ids.as_slice()) {
            return specs.game_in_order(alloc);
        }
        specs.game_by_sorting(alloc)
    }
}

impl GameBuilder {
    /// No specification, with capacity for `n` of them and `edges` successors in all. The only error is `Memory`.
    pub fn with_capacity(alloc: Global, n: usize, edges: usize) -> Result<GameBuilder, Memory>
        ensures { IfOk result (λ s. s ≡ []) }
    {
        Ok(GameBuilder {
            ids: Vec::with_capacity(alloc, n)?,
            priorities: Vec::with_capacity(alloc, n)?,
            owners: Vec::with_capacity(alloc, n)?,
            rows: Adjacency::with_capacity(alloc, n, edges)?,
        })
    }

    /// The specifications of a list. The only error is `Memory`.
    fn of_list(alloc: Global, list: &[Spec]) -> Result<GameBuilder, Memory>
        ensures { IfOk result (λ s. s ≡ list.now) }
    {
        let mut specs = GameBuilder::with_capacity(alloc, list.len(), 0)?;
        'list: for spec in list {
            specs.push(
                spec.id,
                spec.priority,
                spec.owner,
                spec.successors.as_slice(),
            )?;
        }
        Ok(specs)
    }

    /// Adds a specification at the end. The only error is `Memory`, and then nothing has changed.
    pub fn push(
        &mut self,
        id: u32,
        priority: u32,
        owner: Player,
        successors: &[u32],
    ) -> Result<(), Memory>
        ensures pushed { OnOk result (self.new ≡ self.old ++ record { id = id; priority = priority; owner = owner; successors = successors.now } ∷ []) }
        ensures kept { OnErr result (self.new ≡ self.old) }
    {
        self.ids.reserve(1)?;
        self.priorities.reserve(1)?;
        self.owners.reserve(1)?;
        self.rows.push(successors)?;
        self.ids.push_reserved(id);
        self.priorities.push_reserved(priority);
        self.owners.push_reserved(owner);
        Ok(())
    }

    /// The game where identifiers rise. Where they are 0, 1 and so on and each row rises, the lists are used unchanged.
    fn game_in_order(self, alloc: Global) -> Result<ForwardGame, GameFault>
        requires limits { AreWithinLimits self }
        requires rising { IsStrictlyIncreasing (ids_of self) }
        ensures game { IfOk result (λ g. IsGame g × IsGameOf self g × (first_fault self ≡ None)) }
        ensures fault { IfErr result (λ e. OrMemory (first_fault self ≡ Some e) e) }
    {
        let identifiers = Identifiers::of_rising(alloc, self.ids.as_slice())?;
        let resolved = self.resolved(alloc, &identifiers)?;
        Ok(resolved.into_game(identifiers))
    }

    /// The game of specifications in any order, which are sorted by identifier.
    fn game_by_sorting(self, alloc: Global) -> Result<ForwardGame, GameFault>
        requires { AreWithinLimits self }
        ensures game { IfOk result (λ g. IsGame g × IsGameOf self g × (first_fault self ≡ None)) }
        ensures fault { IfErr result (λ e. OrMemory (first_fault self ≡ Some e) e) }
    {
        let list = self.sorted_lines(alloc)?;
        let lines = list.as_slice();
        let identifiers = self.distinct_identifiers(alloc, lines)?;
        let resolved = self.resolved(alloc, &identifiers)?;
        let sorted = resolved.picked(alloc, lines)?;
        Ok(sorted.into_game(identifiers))
    }

    /// A pair of each identifier and its line, by rising identifier. The only error is `Memory`.
    fn sorted_lines(&self, alloc: Global) -> Result<Vec<(u32, u32)>, Memory>
        requires { length self.now ≤ max_vertices }
        ensures { IfOk result (λ lines. AreLines (ids_of self.now) lines.items) }
    {
        let mut lines = numbered(alloc, self.ids.as_slice())?;
        lines.sort_unstable_by_key(|line| line.0);
        Ok(lines)
    }

    /// The identifiers of the lines. Refused by the first identifier that is earlier in the list, or by `Memory`.
    fn distinct_identifiers(
        &self,
        alloc: Global,
        lines: &[(u32, u32)],
    ) -> Result<Identifiers, GameFault>
        requires few { length self.now ≤ max_vertices }
        requires lines { AreLines (ids_of self.now) lines.now }
        ensures identifiers { IfOk result (λ identifiers. identifiers ≡ map (λ line. line.0) lines.now) }
        ensures rising { OnOk result (IsStrictlyIncreasing (map (λ line. line.0) lines.now)) }
        ensures once { OnOk result (first_repeated [] (ids_of self.now) ≡ None) }
        ensures fault { IfErr result (λ e. OrMemory (twice_of (ids_of self.now) ≡ Some e) e) }
    {
        let list = identifiers_of(alloc, lines)?;
        let ids = list.as_slice();
        self.check_distinct(alloc, ids)?;
        Identifiers::of_rising(alloc, ids)
    }

    /// Refuses specifications of which two have one identifier: by the first that is earlier in the list, or by `Memory`. So
    /// the sorted identifiers rise.
    fn check_distinct(&self, alloc: Global, sorted: &[u32]) -> Result<(), GameFault>
        requires moved { IsPermutation (ids_of self.now) sorted.now }
        requires sorted { IsNonDecreasing sorted.now }
        ensures rising { OnOk result (IsStrictlyIncreasing sorted.now) }
        ensures once { OnOk result (first_repeated [] (ids_of self.now) ≡ None) }
        ensures fault { IfErr result (λ e. OrMemory (twice_of (ids_of self.now) ≡ Some e) e) }
    {
        if is_rising(sorted) {
            return Ok(());
        }
        index_set(alloc, self.ids.as_slice())?;
        Ok(())
    }

    /// The specifications with vertices for successors, each once, rising. A vertex is the place of its identifier. Refused by
    /// the first fault of a row, or by `Memory`.
    fn resolved(self, alloc: Global, identifiers: &Identifiers) -> Result<GameBuilder, GameFault>
        requires few { length self ≤ max_vertices }
        requires identifiers { IsPermutation (ids_of self) identifiers.now }
        ensures resolved { IfOk result (λ resolved. AreResolvedSpecs identifiers.now self resolved) }
        ensures sound { OnOk result (rows_fault self ≡ None) }
        ensures fault { IfErr result (λ e. OrMemory (rows_fault self ≡ Some e) e) }
    {
        if let Some(id) = self.first_without_successor() {
            return Err(GameFault::NoSuccessor(id));
        }
        if self.has_too_many_edges(alloc)? {
            return Err(GameFault::TooManyEdges);
        }
        let GameBuilder {
            ids,
            priorities,
            owners,
            mut rows,
        } = self;
        if let Some((v, successor)) = rows.resolve(identifiers) {
            return Err(GameFault::Unknown(ids[v as usize], successor));
        }
        let rows = rows.with_rising_rows(alloc)?;
        Ok(GameBuilder::of_parts(ids, priorities, owners, rows))
    }

    /// The first specification without a successor.
    fn first_without_successor(&self) -> Option<u32>
        requires { length self.now ≤ max_vertices }
        ensures { result ≡ first_without self.now }
    {
        'lines: for v in 0..self.ids.len() as u32 {
            if self.rows.row(v).is_empty() {
                return Some(self.ids[v as usize]);
            }
        }
        None
    }

    /// Whether the sum of distinct successors over the specifications is above the limit. The only error is `Memory`.
    fn has_too_many_edges(&self, alloc: Global) -> Result<bool, Memory>
        requires { length self.now ≤ max_vertices }
        ensures { IfOk result (λ many. IsTrue many ↔ (max_edges < edges self.now)) }
    {
        if self.rows.size() <= MAX_EDGES {
            return Ok(false);
        }
        let mut successors = Vec::new(alloc);
        let mut edges = 0usize;
        'lines: for v in 0..self.ids.len() as u32 {
            put_rising(self.rows.row(v), &mut successors)?;
            edges += successors.len();
            if edges > MAX_EDGES {
                return Ok(true);
            }
        }
        Ok(false)
    }

    /// The specifications with these parts.
    fn of_parts(
        ids: Vec<u32>,
        priorities: Vec<u32>,
        owners: Vec<Player>,
        rows: Adjacency,
    ) -> GameBuilder
        requires { AreParts ids.items priorities.items owners.items rows }
        ensures { result ≡ specs_from ids.items priorities.items owners.items rows }
    {
        GameBuilder {
            ids,
            priorities,
            owners,
            rows,
        }
    }

    /// The specifications of these lines. The only error is `Memory`.
    fn picked(&self, alloc: Global, lines: &[(u32, u32)]) -> Result<GameBuilder, Memory>
        requires { All (λ line. line.1 < length self.now) lines.now }
        ensures { IfOk result (λ specs. (d : Spec) → specs ≡ map (λ line. slice_index_or self.now line.1 d) lines.now) }
    {
        let mut specs = GameBuilder::with_capacity(alloc, lines.len(), self.rows.size())?;
        'lines: for line in lines {
            let i = line.1 as usize;
            let id = self.ids[i];
            let priority = self.priorities[i];
            let owner = self.owners[i];
            let row = self.rows.row(line.1);
            specs.push(id, priority, owner, row)?;
        }
        Ok(specs)
    }

    /// The game whose vertices have these identifiers, and the specifications' successors as vertices.
    fn into_game(self, identifiers: Identifiers) -> ForwardGame
        requires { IsStored identifiers (priorities_of self) (owners_of self) (successor_lists self) }
        ensures { result ≡ graph_of identifiers (priorities_of self) (owners_of self) (successor_lists self) }
    {
        let GameBuilder {
            ids: _ids,
            priorities,
            owners,
            rows,
        } = self;
        ForwardGame::of_parts(identifiers, priorities, owners, rows)
    }
}

/// A pair of each identifier and its line, in order. The only error is `Memory`.
fn numbered(alloc: Global, ids: &[u32]) -> Result<Vec<(u32, u32)>, Memory>
    requires { length ids.now < 2 ^ 32 }
    ensures size { IfOk result (λ lines. length lines.items ≡ length ids.now) }
    ensures each { IfOk result (λ lines. (k : ℕ) (d : ℕ × ℕ) → k < length ids.now → slice_index_or lines.items k d ≡ (slice_index ids.now k, k)) }
{
    let mut lines = Vec::with_capacity(alloc, ids.len())?;
    'lines: for v in 0..ids.len() {
        lines.push((ids[v], v as u32))?;
    }
    Ok(lines)
}

/// The identifiers of the lines. The only error is `Memory`.
fn identifiers_of(alloc: Global, lines: &[(u32, u32)]) -> Result<Vec<u32>, Memory>
    ensures { IfOk result (λ ids. ids.items ≡ map (λ line. line.0) lines.now) }
{
    let mut ids = Vec::with_capacity(alloc, lines.len())?;
    'lines: for line in lines {
        ids.push(line.0)?;
    }
    Ok(ids)
}

/// Specifications in their order, and the successors of an open one.
#[derive(Drop)]
pub struct IncrementalBuilder {
    ids: Vec<u32>,
    priorities: Vec<u32>,
    owners: Vec<Player>,
    offsets: Vec<usize>,
    closed: usize,
    targets: Vec<u32>,
}

impl Model for IncrementalBuilder {
    ghost use Rattle.pg_game.specs.Opened.{Opened, opened_from};
    ghost use Rattle.pg_game.specs.private.Opened.{IsOpened};

    ghost Value = { Opened };

    ghost view = { λ s. opened_from s.ids.items s.priorities.items s.owners.items s.offsets.items s.closed s.targets.items };

    ghost invariant = { λ s. IsOpened s.ids.items s.priorities.items s.owners.items s.offsets.items s.closed s.targets.items };
}

impl IncrementalBuilder {
    /// No specification, and no successor. The only error is `Memory`.
    pub fn new(alloc: Global) -> Result<IncrementalBuilder, Memory>
        ensures specs { IfOk result (λ s. s.specs ≡ []) }
        ensures successors { IfOk result (λ s. s.successors ≡ []) }
    {
        let mut offsets = Vec::new(alloc);
        offsets.push(0)?;
        Ok(IncrementalBuilder {
            ids: Vec::new(alloc),
            priorities: Vec::new(alloc),
            owners: Vec::new(alloc),
            offsets,
            closed: 0,
            targets: Vec::new(alloc),
        })
    }

    /// Adds a successor of the open specification. The only error is `Memory`, and then nothing has changed.
    #[inline]
    pub fn push(&mut self, successor: u32) -> Result<(), Memory>
        ensures specs { self.new.specs ≡ self.old.specs }
        ensures pushed { OnOk result (self.new.successors ≡ self.old.successors ++ successor ∷ []) }
        ensures kept { OnErr result (self.new ≡ self.old) }
    {
        self.targets.push(successor)?;
        Ok(())
    }

    /// Removes the successors of the open specification.
    #[inline]
    pub fn clear(&mut self)
        ensures specs { self.new.specs ≡ self.old.specs }
        ensures successors { self.new.successors ≡ [] }
    {
        self.targets.truncate(self.closed);
    }

    /// Closes the open specification, with these parts and its successors. The only error is `Memory`, and then nothing has changed.
    #[inline]
    pub fn close(&mut self, id: u32, priority: u32, owner: Player) -> Result<(), Memory>
        ensures specs { OnOk result (self.new.specs ≡ self.old.specs
            ++ record { id = id; priority = priority; owner = owner; successors = self.old.successors } ∷ []) }
        ensures successors { OnOk result (self.new.successors ≡ []) }
        ensures kept { OnErr result (self.new ≡ self.old) }
    {
        let end = self.targets.len();
        self.ids.reserve(1)?;
        self.priorities.reserve(1)?;
        self.owners.reserve(1)?;
        self.offsets.reserve(1)?;
        self.ids.push_reserved(id);
        self.priorities.push_reserved(priority);
        self.owners.push_reserved(owner);
        self.offsets.push_reserved(end);
        self.closed = end;
        Ok(())
    }

    /// The specifications, without the successors of the open one.
    pub fn into_builder(self) -> GameBuilder
        ensures { result ≡ self.specs }
    {
        let IncrementalBuilder {
            ids,
            priorities,
            owners,
            offsets,
            closed,
            mut targets,
        } = self;
        targets.truncate(closed);
        GameBuilder::of_parts(
            ids,
            priorities,
            owners,
            Adjacency::of_parts(offsets, targets),
        )
    }
}
