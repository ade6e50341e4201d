//! For each vertex a place among its successors, where the last search for one in a set ended. If vertices leave the set one by
//! one, the searches at a vertex pass over its successors twice at most.

ghost use Rattle.std.specs.Prelude.{◌≡◌, ◌<◌, ℕ, length, IfOk, true, false};
ghost use Rattle.pg_game.specs.Graph.{HasEdge};
ghost use Rattle.pg_game.specs.VertexSet.{In, members};

use pg_game::{Game, Mask, Memory};
use std::alloc::Global;

/// The places where searches begin, one for each vertex.
#[derive(Drop)]
pub struct Cursors {
    pub places: Vec<u32>,
}

impl Cursors {
    /// Each search begins at the first successor. The only error is `Memory`.
    pub fn new(alloc: Global, n: u32) -> Result<Cursors, Memory>
        ensures { IfOk result (λ cursors. length cursors.places.items ≡ n) }
    {
        Ok(Cursors {
            places: vec![in alloc; 0u32; n as usize]?,
        })
    }

    /// Whether a successor of the vertex is in the mask. The search begins where the last one ended, and ends there.
    pub fn find_successor(&mut self, game: &Game, mask: &Mask, v: u32) -> bool
        requires places { length self.old.places.items ≡ length game.now }
        requires mask { length mask.now ≡ length game.now }
        requires vertex { v < length game.now }
        ensures places { length self.new.places.items ≡ length game.now }
        ensures found { result ≡ true → (w : ℕ) × HasEdge game.now v w × In (members mask.now) w }
        ensures none { result ≡ false → (w : ℕ) → HasEdge game.now v w → members mask.now w ≡ false }
    {
        let successors = game.successors(v);
        let end = successors.len() as u32;
        let begin = self.places[v as usize].min(end);
        let at = mask.first_of(successors, begin, end);
        if at < end {
            self.places[v as usize] = at;
            return true;
        }
        let at = mask.first_of(successors, 0, begin);
        if at < begin {
            self.places[v as usize] = at;
            return true;
        }
        false
    }
}
