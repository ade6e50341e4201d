//! The active vertices of a subgame during the recursion, and its unfinished plan: the winner of each vertex, and the choices.
//!
//! For each vertex a cursor keeps the place among its successors where the last search for a free one ended. If successors are taken
//! one by one, the searches pass over them once.

ghost use Rattle.std.specs.Prelude.{◌≡◌, ◌<◌, ℕ, length, All, IfOk, ◌≢◌};
ghost use Rattle.pg_game.specs.VertexSet.{members, without};
ghost use Rattle.pg_finders.specs.private.recursion.Subgame.{listed, HasSizes, row_of, winners_of, choices_of, SameAt};

use crate::inside::View;
use pg_dominion::Cursors;
use pg_game::{Mask, Memory, Player};
use std::alloc::Global;

/// The active vertices and the plan.
#[derive(Drop)]
pub struct Subgame {
    pub active: Mask,
    pub plan: Plan,
    pub cursors: Cursors,
}

impl Subgame {
    /// All vertices of the mask are active, and nothing is planned.
    pub fn new(alloc: Global, view: &View) -> Result<Subgame, Memory>
        ensures sizes { IfOk result (λ x. HasSizes (length view.now.game.now) x) }
        ensures active { IfOk result (λ x. x.active ≡ view.now.mask.now) }
    {
        let active = view.mask.copy(alloc)?;
        let plan = Plan::new(alloc, view.game.len())?;
        let cursors = Cursors::new(alloc, view.game.len())?;
        Ok(Subgame {
            active,
            plan,
            cursors,
        })
    }
}

/// For each vertex its winner, and a choice or none, in the shape of a solution's rows.
#[derive(Drop)]
pub struct Plan {
    rows: Vec<(Player, Option<u32>)>,
}

impl Plan {
    /// A plan for so many vertices, which says nothing yet.
    pub fn new(alloc: Global, n: u32) -> Result<Plan, Memory>
        ensures { IfOk result (λ plan. length plan.rows.items ≡ n) }
    {
        Ok(Plan {
            rows: vec![in alloc; (Player::Even, None); n as usize]?,
        })
    }

    /// The winner of the vertex, and the choice if there is one.
    pub fn row(&self, v: u32) -> (Player, Option<u32>)
        requires { v < length self.now.rows.items }
        ensures { result ≡ row_of self.now v }
    {
        self.rows[v as usize]
    }

    /// Writes the winner of the vertex, and the choice.
    pub fn write(&mut self, v: u32, player: Player, choice: Option<u32>)
        requires { v < length self.old.rows.items }
        ensures size { length self.new.rows.items ≡ length self.old.rows.items }
        ensures winner { winners_of self.new v ≡ player }
        ensures choice { choices_of self.new v ≡ choice }
        ensures elsewhere { (w : ℕ) → w ≢ v → SameAt self.old self.new w }
    {
        self.rows[v as usize] = (player, choice);
    }
}

/// Removes the listed vertices from the mask.
pub fn remove_all(mask: &mut Mask, list: &[u32])
    requires { All (λ v. v < length mask.old) list.now }
    ensures length { length mask.new ≡ length mask.old }
    ensures has { (v : ℕ) → members mask.new v ≡ without (members mask.old) (listed list.now) v }
{
    for v in list {
        mask.remove(*v);
    }
}
