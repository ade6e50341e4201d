//! What a board stores beside its game: the journal, and tables of the journal's state. The calls that write them take no
//! memory, so their callers have it all before the board changes.

ghost use Rattle.std.specs.Prelude.{◌≡◌, ◌≤◌, ◌<◌, ◌↔◌, length, IfOk, IsTrue, vec_capacity, vec_len};
ghost use Rattle.pg_board.specs.State.{rest_of, IsGoodOn};
ghost use Rattle.pg_board.specs.Journal.{state_of};
ghost use Rattle.pg_board.specs.Full.{IsFull};
ghost use Rattle.pg_board.specs.Board.{IsSolutionOf};
ghost use Rattle.pg_board.specs.Post.{Adds};
ghost use Rattle.pg_board.specs.private.Contents.{IsContentsOf, board_record};

use crate::journal::{Entry, Posted};
use crate::regions::Regions;
use pg_game::{Game, Memory, Player, Sequence};
use pg_text::Solution;
use std::alloc::Global;

/// The journal, its tables, and the number of settled vertices.
#[derive(Drop)]
pub struct Contents {
    pub entries: Vec<Entry>,
    pub regions: Regions,
    pub number: u32,
}

impl Contents {
    /// Whether no vertex is unsettled.
    pub fn is_full(&self, game: &Game) -> bool
        requires { IsContentsOf game.now self.now }
        ensures { IsTrue result ↔ IsFull game.now (state_of self.now.entries.items) }
    {
        self.number == game.len()
    }

    /// The solution, exactly where no vertex is unsettled. The only error is `Memory`.
    pub fn solution(&self, alloc: Global, game: &Game) -> Result<Option<Solution>, Memory>
        requires { IsContentsOf game.now self.now }
        ensures { IfOk result (IsSolutionOf (board_record game.now self.now)) }
    {
        if !self.is_full(game) {
            return Ok(None);
        }
        let rows = self.regions.rows(alloc)?;
        Ok(Some(Solution {
            rows: Sequence::new(rows),
        }))
    }

    /// Settles the rest and what it attracts, in one entry. The rows have capacity for every vertex, and the journal for one
    /// more entry.
    pub fn enter(
        &mut self,
        game: &Game,
        worker: u32,
        player: Player,
        mut rows: Vec<(u32, Option<u32>)>,
    ) -> Posted
        requires board { IsContentsOf game.now self.old }
        requires good { IsGoodOn game.now (state_of self.old.entries.items) player rows.items }
        requires unsettled { rest_of (state_of self.old.entries.items) rows.items ≡ rows.items }
        requires spare { (length game.now ≤ vec_capacity rows) × (vec_len self.old.entries < vec_capacity self.old.entries) }
        ensures board { IsContentsOf game.now self.new }
        ensures added { Adds (board_record game.now self.old) (board_record game.now self.new) worker (record { player = player; rows = rows.items }) result }
        ensures spare { vec_capacity self.new.entries ≡ vec_capacity self.old.entries }
    {
        let n = game.len();
        let entry = self.entries.len() as u64;
        let claimed = rows.len() as u32;
        self.regions.write_rows(game, player, rows.as_slice());
        let is_full = self.number + claimed == n;
        self.regions.attract(game, player, &mut rows, is_full);
        rows.shrink_to_fit();
        let settled = rows.len() as u32;
        self.number += settled;
        self.entries.push_reserved(Entry {
            worker,
            player,
            claimed,
            rows: Sequence::new(rows),
        });
        Posted {
            entry,
            claimed,
            settled,
        }
    }
}
