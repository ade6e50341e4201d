//! Zielonka's recursion (1998), which solves a whole subgame by two claims, one for each player, as a loop: no function
//! calls itself. Waiting subgames share three lists and keep places in them: the vertices set aside, and those settled for
//! each player. Where the opponent has won something of the rest of a subgame, what its player had won there stays won unless
//! something has changed on which it rests (Lapauw, Bruynooghe and Denecker 2020). The crate's page has the notions, the five parts of
//! going back with a picture, and why they are right. A caller may bound the number of subgames that are begun.

ghost use Rattle.std.specs.Prelude.{◌≡◌, length, IfOk, ◌≢◌, ◌≤◌, ◌+◌, ◌<◌, ◌^◌, ℕ, All, OnOk, true, false};
ghost use Rattle.std.specs.Prelude.{None, Some, IsNone, IsSome, IfSome};
ghost use Rattle.pg_game.specs.declared.player.Player.TheVariants.{Even, Odd};
ghost use Rattle.pg_game.specs.VertexSet.{In, Within, members, how_many, union};
ghost use Rattle.pg_finders.specs.private.Solved.{won_inside, IsSolvedInside};
ghost use Rattle.pg_finders.specs.private.recursion.Subgame.{winners_of, choices_of, listed, active_of};
ghost use Rattle.pg_finders.specs.Claims.{AreClaims, rows_below};
ghost use Rattle.pg_dominion.specs.KeptEdges.{own_choices};
ghost use Rattle.pg_game.specs.Subgame.{IsSubgame};
ghost use Rattle.pg_game.specs.Player.{opponent};
ghost use Rattle.pg_finders.specs.private.recursion.Settled.{settled_of};
ghost use Rattle.pg_finders.specs.private.recursion.Solver.{count_at, tail_at, IsSolverState, IsAtEnd, how_many_gone, AreFewer, HasStepped, HasStopped, after_step};
ghost use Rattle.pg_finders.specs.private.recursion.Partition.{IsPartition};
ghost use Rattle.pg_finders.specs.private.recursion.GoingBack.{aside_of, greatest_of, Loses, Shrinks, PushesFrameAgain, PushesFrame, WinsBack, KeepsLists};
ghost use Rattle.pg_finders.specs.Recursion.{IfSolved, IfRunning};
ghost use Rattle.pg_finders.specs.Steps.{priority_count, steps as most_steps, work};
ghost use Rattle.std.specs.Arc.{arc_value};

mod order;
mod partition;
mod settled;
mod subgame;

use crate::inside::{Inside, View};
use crate::recursion::order::Order;
use crate::recursion::partition::{Partition, list_active};
use crate::recursion::settled::{Settled, Tail};
use crate::recursion::subgame::{Plan, Subgame};
use pg_dominion::{Claim, own_choice};
use pg_game::{Game, Mask, Memory, Player};
use std::alloc::Global;
use std::marker::Model;
use std::sync::Arc;

/// The two players' claims, which share the subgame out.
#[derive(Drop)]
pub struct Solved {
    pub even: Claim,
    pub odd: Claim,
}

/// A claim for each player, which together have all vertices inside (Zielonka 1998); one may have no rows. The only error
/// is `Memory`.
pub fn zielonka(alloc: Global, inside: &Inside) -> Result<Solved, Memory>
    ensures { IfOk result (λ solved. AreClaims inside.now.graph (members inside.now.mask) solved.even solved.odd) }
{
    Ok(zielonka_within(alloc, inside, None)?.unwrap())
}

/// The same as `zielonka`, unless there is a limit and it needs more steps: then it gives up, and there are no claims. A step begins
/// a subgame that has a vertex. If no vertex is inside, it needs none, and otherwise at least one.
pub fn zielonka_within(
    alloc: Global,
    inside: &Inside,
    limit: Option<u64>,
) -> Result<Option<Solved>, Memory>
    ensures claims { IfOk result (λ found. IfSome found (λ solved. AreClaims inside.now.graph (members inside.now.mask) solved.even solved.odd)) }
    ensures unlimited { IfOk result (λ found. limit ≡ None → IsSome found) }
    ensures enough { IfOk result (λ found. (k : ℕ) → limit ≡ Some k
        → most_steps (priority_count inside.now.graph (members inside.now.mask)) (how_many inside.now.mask) ≤ k → IsSome found) }
    ensures nothing { IfOk result (λ found. ((v : ℕ) → members inside.now.mask v ≡ false) → IsSome found) }
    ensures no_steps { IfOk result (λ found. limit ≡ Some 0 → (v : ℕ) → In (members inside.now.mask) v → IsNone found) }
{
    if inside.mask().is_empty() {
        return Ok(Some(Solved {
            even: Claim::new(Player::Even, Vec::new(alloc)),
            odd: Claim::new(Player::Odd, Vec::new(alloc)),
        }));
    }
    let view = inside.view();
    let mut solver = Solver::new(alloc, &view)?;
    let mut left = limit;
    solver.solve(alloc, &view, &mut left)
}

/// A run of the recursion that can stop between two steps. It shares the game and borrows nothing, so a caller may keep it.
#[derive(Drop)]
pub struct Recursion {
    game: Arc<Game>,
    mask: Mask,
    solver: Solver,
}

impl Model for Recursion {
    ghost use Rattle.std.specs.Prelude.{length};
    ghost use Rattle.std.specs.Arc.{arc_value};
    ghost use Rattle.pg_game.specs.VertexSet.{members};
    ghost use Rattle.pg_game.specs.Subgame.{IsSubgame};
    ghost use Rattle.pg_finders.specs.Run.{Run};
    ghost use Rattle.pg_finders.specs.Steps.{work};
    ghost use Rattle.pg_finders.specs.private.recursion.Solver.{IsSolverState, HasMore};

    ghost Value = { Run };

    ghost view = { λ r. record { graph = arc_value r.game; mask = r.mask; remaining = work (arc_value r.game) r.mask r.solver } };

    ghost invariant = { λ r. IsSubgame (arc_value r.game) (members r.mask)
        × IsSolverState (arc_value r.game) r.mask r.solver
        × HasMore r.mask r.solver };
}

/// What a run of the recursion has come to. It has no `Debug`, since neither a run nor a claim has one.
#[derive(Drop)]
pub enum Advanced {
    /// Steps remain.
    Running(Recursion),
    /// The two players' claims.
    Solved(Solved),
}

impl Recursion {
    /// A run on the subgame in the mask, of which no step is taken. The only error is `Memory`.
    pub fn begin(alloc: Global, game: &Arc<Game>, mask: Mask) -> Result<Recursion, Memory>
        requires size { length mask ≡ length (arc_value game.now) }
        requires subgame { IsSubgame (arc_value game.now) (members mask) }
        ensures graph { IfOk result (λ r. r.graph ≡ arc_value game.now) }
        ensures mask { IfOk result (λ r. r.mask ≡ mask) }
        ensures remaining { IfOk result (λ r. r.remaining ≤ most_steps (priority_count (arc_value game.now) (members mask)) (how_many mask)) }
    {
        let view = View { game, mask: &mask };
        let solver = Solver::new(alloc, &view)?;
        Ok(Recursion {
            game: Arc::try_clone(game)?,
            mask,
            solver,
        })
    }

    /// Takes up to so many steps, and leaves how many of them are left. A step begins a subgame that has a vertex. Returns the claims
    /// of `zielonka` once no step remains to be taken. Else what remains has fallen by as many steps. The only error is `Memory`.
    pub fn advance(self, alloc: Global, steps: &mut u64) -> Result<Advanced, Memory>
        ensures solved { IfOk result (λ a. IfSolved a (λ solved. AreClaims self.graph (members self.mask) solved.even solved.odd)) }
        ensures running { IfOk result (λ a. IfRunning a (λ r. (r.graph ≡ self.graph) × (r.mask ≡ self.mask) × (steps.new ≡ 0))) }
        ensures nearer { IfOk result (λ a. IfRunning a (λ r. r.remaining + steps.old ≤ self.remaining)) }
        ensures steps { steps.new ≤ steps.old }
        ensures charged { IfOk result (λ a. IfSolved a (λ solved. (v : ℕ) → In (members self.mask) v → steps.new < steps.old)) }
    {
        let Recursion { game, mask, solver } = self;
        let mut solver = solver;
        let mut left = Some(*steps);
        let view = View {
            game: &game,
            mask: &mask,
        };
        let found = solver.solve(alloc, &view, &mut left);
        *steps = left.unwrap_or(0);
        match found? {
            Some(solved) => Ok(Advanced::Solved(solved)),
            None => Ok(Advanced::Running(Recursion { game, mask, solver })),
        }
    }
}

/// A run of the loop.
#[derive(Drop)]
struct Solver {
    partition: Partition,
    order: Order,
    set_aside: Vec<u32>,
    frames: Vec<Frame>,
    /// What the last attraction took; at a beginning, after the greatest vertices.
    list: Vec<u32>,
    /// The greatest vertices of a subgame that is begun; in going back D and what is opened, so all active vertices.
    opened: Vec<u32>,
    /// The number of vertices of the mask.
    size: usize,
}

impl Solver {
    /// No vertex is settled yet.
    fn new(alloc: Global, view: &View) -> Result<Solver, Memory>
        ensures running { IfOk result (λ solver. IsSolverState view.now.game.now view.now.mask.now solver) }
        ensures active { IfOk result (λ solver. solver.partition.subgame.active ≡ view.now.mask.now) }
        ensures work { IfOk result (λ solver. work view.now.game.now view.now.mask.now solver
            ≤ most_steps (priority_count view.now.game.now (members view.now.mask.now)) (how_many view.now.mask.now)) }
    {
        // Capacities are for all vertices that a list may get, as far as this is known. If a list outgrows a block below a KiB, the
        // allocator of glibc keeps that block, and does not return the memory below it to the system.
        let n = view.mask.count();
        let frames = Vec::with_capacity(alloc, 64)?;
        // the order first, which frees its temporary memory
        let order = Order::new(alloc, view)?;
        let subgame = Subgame::new(alloc, view)?;
        let settled = Settled::new(alloc, view.game.len(), n)?;
        let set_aside = Vec::with_capacity(alloc, n as usize)?;
        let list = Vec::with_capacity(alloc, n as usize)?;
        let solver = Solver {
            partition: Partition::new(subgame, settled),
            order,
            set_aside,
            frames,
            list,
            opened: Vec::with_capacity(alloc, n as usize)?,
            size: n as usize,
        };
        Ok(solver)
    }

    /// The number of vertices that are settled for the player.
    fn count(&self, player: Player) -> usize
        ensures { result ≡ length (settled_of self.now.partition.settled player) }
    {
        self.partition.settled.count(player)
    }

    /// Takes the steps that are left, or all where there is no limit. Returns the claims once no step remains to be taken.
    fn solve(
        &mut self,
        alloc: Global,
        view: &View,
        left: &mut Option<u64>,
    ) -> Result<Option<Solved>, Memory>
        requires { IsSolverState view.now.game.now view.now.mask.now self.old }
        ensures claims { IfOk result (λ found. IfSome found (λ solved. AreClaims view.now.game.now (members view.now.mask.now) solved.even solved.odd)) }
        ensures stopped { IfOk result (λ found. IsNone found → HasStopped view.now.game.now view.now.mask.now left.old left.new self.old self.new) }
        ensures fewer { AreFewer left.old left.new }
        ensures charged { IfOk result (λ found. IsSome found → (v : ℕ) → In (active_of self.old.partition.subgame) v → HasStepped left.old left.new) }
    {
        if !self.run(view, left)? {
            return Ok(None);
        }
        let for_even = self.count(Player::Even);
        let for_odd = self.count(Player::Odd);
        let plan = &self.partition.subgame.plan;
        let (even, odd) = rows_of(alloc, view, plan, for_even, for_odd)?;
        Ok(Some(Solved {
            even: Claim::new(Player::Even, even),
            odd: Claim::new(Player::Odd, odd),
        }))
    }

    /// Takes the steps that are left, or all where there is no limit. False if one more was needed; if true, the whole mask is settled.
    fn run(&mut self, view: &View, left: &mut Option<u64>) -> Result<bool, Memory>
        requires { IsSolverState view.now.game.now view.now.mask.now self.old }
        ensures solved { IfOk result (λ done. done ≡ true
            → IsSolvedInside view.now.game.now (members view.now.mask.now) (winners_of self.new.partition.subgame.plan) (choices_of self.new.partition.subgame.plan)) }
        ensures size { IfOk result (λ done. done ≡ true → length self.new.partition.subgame.plan.rows.items ≡ length view.now.game.now) }
        ensures stopped { IfOk result (λ done. done ≡ false → HasStopped view.now.game.now view.now.mask.now left.old left.new self.old self.new) }
        ensures fewer { AreFewer left.old left.new }
        ensures charged { IfOk result (λ done. done ≡ true → (v : ℕ) → In (active_of self.old.partition.subgame) v → HasStepped left.old left.new) }
    {
        'steps: loop {
            if self.has_more(view) {
                if !take_step(left) {
                    return Ok(false);
                }
                self.enter(view)?;
                continue;
            }
            let Some(&frame) = self.frames.last() else {
                break;
            };
            self.leave(view, frame)?;
        }
        Ok(true)
    }

    /// Begins the active part: sets aside its vertices of the greatest priority and what they attract.
    fn enter(&mut self, view: &View) -> Result<(), Memory>
        requires running { IsSolverState view.now.game.now view.now.mask.now self.old }
        requires some { (v : ℕ) × In (active_of self.old.partition.subgame) v }
        ensures running { OnOk result (IsSolverState view.now.game.now view.now.mask.now self.new) }
        ensures fewer { OnOk result (work view.now.game.now view.now.mask.now self.new < work view.now.game.now view.now.mask.now self.old) }
    {
        let active = &self.partition.subgame.active;
        let top = self.order.top(view.game, active).unwrap();
        self.order
            .list_greatest(view.game, active, top, &mut self.opened)?;
        let player = Player::of_parity(top);
        let none = self.partition.settled.end(player);
        let tops = self
            .partition
            .begin(view.game, none, &self.opened, &mut self.list)?;
        let even = self.count(Player::Even);
        let odd = self.count(Player::Odd);
        self.push_frame(player, tops, even, odd)
    }

    /// Sets aside the listed vertices, the first `tops` of them the greatest. Their subgame waits, with so many settled vertices of each player.
    fn push_frame(
        &mut self,
        player: Player,
        tops: usize,
        even: usize,
        odd: usize,
    ) -> Result<(), Memory>
        requires { tops ≤ length self.old.list.items }
        ensures pushes { OnOk result (PushesFrame player tops even odd self.old self.new) }
    {
        let set_aside_from = self.set_aside.len();
        self.set_aside.extend_from_slice(&self.list)?;
        self.frames.push(Frame {
            player,
            even,
            odd,
            set_aside_from,
            tops_upto: set_aside_from + tops,
            set_aside_upto: self.set_aside.len(),
        })?;
        Ok(())
    }

    /// Whether a vertex is active: neither settled nor set aside.
    fn has_more(&self, view: &View) -> bool
        requires { IsSolverState view.now.game.now view.now.mask.now self.now }
        ensures some { result ≡ true → (v : ℕ) × In (active_of self.now.partition.subgame) v }
        ensures none { result ≡ false → (v : ℕ) → active_of self.now.partition.subgame v ≡ false }
    {
        self.gone() != self.size
    }

    /// The number of vertices that are settled or set aside. The others are active.
    fn gone(&self) -> usize
        requires { how_many_gone (settled_of self.now.partition.settled) self.now.set_aside.items < 2 ^ 32 }
        ensures { result ≡ how_many_gone (settled_of self.now.partition.settled) self.now.set_aside.items }
    {
        self.count(Player::Even) + self.count(Player::Odd) + self.set_aside.len()
    }

    /// Finishes the subgame that waits last, which has no active vertex.
    fn leave(&mut self, view: &View, frame: Frame) -> Result<(), Memory>
        requires { IsAtEnd view.now.game.now view.now.mask.now self.old frame }
        ensures running { OnOk result (IsSolverState view.now.game.now view.now.mask.now self.new) }
        ensures fewer { OnOk result (work view.now.game.now view.now.mask.now self.new < work view.now.game.now view.now.mask.now self.old) }
    {
        let other = frame.player.other();
        if self.count(other) == frame.count(other) {
            self.settle_aside(view, frame)
        } else {
            self.go_back(view, frame)
        }
    }

    /// Settles for its player what is set aside for the subgame that waits last. He won its whole rest.
    fn settle_aside(&mut self, view: &View, frame: Frame) -> Result<(), Memory>
        requires end { IsAtEnd view.now.game.now view.now.mask.now self.old frame }
        requires all { length (settled_of self.old.partition.settled (opponent frame.player)) ≡ count_at frame (opponent frame.player) }
        ensures running { OnOk result (IsSolverState view.now.game.now view.now.mask.now self.new) }
        ensures fewer { OnOk result (work view.now.game.now view.now.mask.now self.new < work view.now.game.now view.now.mask.now self.old) }
    {
        let aside = frame.aside(&self.set_aside);
        self.partition.settled.add_all(frame.player, aside)?;
        self.set_aside.truncate(frame.set_aside_from);
        self.frames.pop();
        Ok(())
    }

    /// Goes back, in five parts: removes from the subgame that waits last what the opponent won and attracts. It waits again, unless its
    /// greatest vertices are all among them. What its player has won stays won if nothing on which it rests has changed; the others are
    /// active.
    fn go_back(&mut self, view: &View, frame: Frame) -> Result<(), Memory>
        requires end { IsAtEnd view.now.game.now view.now.mask.now self.old frame }
        requires some { length (settled_of self.old.partition.settled (opponent frame.player)) ≢ count_at frame (opponent frame.player) }
        ensures running { OnOk result (IsSolverState view.now.game.now view.now.mask.now self.new) }
        ensures fewer { OnOk result (work view.now.game.now view.now.mask.now self.new < work view.now.game.now view.now.mask.now self.old) }
    {
        let tops = self.shrink(view, frame)?;
        // part 5 begins before part 4, which uses the list anew
        self.push_frame_again(frame, tops)?;
        self.win_back(view, frame)?;
        self.order
            .refill(view.game, &self.partition.subgame.active, &self.opened)
    }

    /// Parts 1 to 3 of going back: settles for the opponent what he attracts, lists what the greatest vertices that are left attract, and
    /// makes active what is neither listed nor still won. The number of these greatest vertices.
    fn shrink(&mut self, view: &View, frame: Frame) -> Result<usize, Memory>
        requires { IsAtEnd view.now.game.now view.now.mask.now self.old frame }
        ensures shrinks { IfOk result (λ k. Shrinks view.now.game.now (members view.now.mask.now) frame self.old self.new k) }
    {
        // what the player has won since a place: W_p, without B after part 1, and X after part 3
        let won = frame.tail(frame.player);
        // what is settled for the opponent from here on is what he newly takes
        let taken = self.partition.settled.end(frame.player.other());
        self.lose(view, frame)?;
        let greatest = frame.greatest(&self.set_aside);
        let tops = self
            .partition
            .begin(view.game, won, greatest, &mut self.list)?;
        self.opened.clear();
        let aside = frame.aside(&self.set_aside);
        list_active(&self.partition.subgame.active, aside, &mut self.opened)?;
        self.partition
            .open(view.game, won, taken, &mut self.opened)?;
        self.set_aside.truncate(frame.set_aside_from);
        self.frames.pop();
        Ok(tops)
    }

    /// Part 1 of going back: makes active what is set aside last, and settles for the opponent what he attracts to what he won (B). What
    /// the player has won is free.
    fn lose(&mut self, view: &View, frame: Frame) -> Result<(), Memory>
        requires { IsAtEnd view.now.game.now view.now.mask.now self.old frame }
        ensures loses { OnOk result (Loses view.now.game.now (members view.now.mask.now) frame self.old self.new) }
    {
        let aside = frame.aside(&self.set_aside);
        insert_all(&mut self.partition.subgame.active, aside);
        let won = frame.tail(frame.player);
        let lost = frame.tail(frame.player.other());
        self.partition
            .attract(view.game, won, lost, aside, &mut self.list)?;
        Ok(())
    }

    /// Part 5 of going back: sets aside the listed vertices, the first `tops` of them the greatest, and their subgame waits; if there is
    /// none, nothing waits. What the player has kept (X) stays in his tail, and what the opponent has (B) is outside from now on.
    fn push_frame_again(&mut self, frame: Frame, tops: usize) -> Result<(), Memory>
        requires { tops ≤ length self.old.list.items }
        ensures pushes { OnOk result (PushesFrameAgain frame tops self.old self.new) }
    {
        if tops == 0 {
            return Ok(());
        }
        let (even, odd) = match frame.player {
            Player::Even => (frame.even, self.count(Player::Odd)),
            Player::Odd => (self.count(Player::Even), frame.odd),
        };
        self.push_frame(frame.player, tops, even, odd)
    }

    /// Part 4 of going back: settles for the player what he attracts to what he has still won since the subgame was begun (X).
    fn win_back(&mut self, view: &View, frame: Frame) -> Result<(), Memory>
        requires partition { IsPartition (length view.now.game.now) self.old.partition }
        requires below { All (λ v. v < length view.now.game.now) self.old.opened.items }
        requires listed { Within (active_of self.old.partition.subgame) (listed self.old.opened.items) }
        requires counts { count_at frame frame.player ≤ length (settled_of self.old.partition.settled frame.player) }
        ensures wins { OnOk result (WinsBack view.now.game.now (tail_at frame frame.player) self.old.partition self.new.partition) }
        ensures partition { OnOk result (IsPartition (length view.now.game.now) self.new.partition) }
        ensures same { OnOk result (KeepsLists self.old self.new) }
    {
        let won = frame.tail(frame.player);
        let none = self.partition.settled.end(frame.player);
        if none.from > won.from {
            self.partition
                .attract(view.game, none, won, &self.opened, &mut self.list)?;
        }
        Ok(())
    }
}

/// A subgame that waits until the rest outside its attractor is solved.
#[derive(Clone, Copy)]
struct Frame {
    /// The player of its attractor.
    player: Player,
    /// From these places on, the players' lists have what is settled of its rest.
    even: usize,
    odd: usize,
    /// The places between which its attractor is set aside, first its greatest vertices.
    set_aside_from: usize,
    tops_upto: usize,
    set_aside_upto: usize,
}

impl Frame {
    /// The number of vertices that were settled for the player.
    fn count(self, player: Player) -> usize
        ensures { result ≡ count_at self player }
    {
        match player {
            Player::Even => self.even,
            Player::Odd => self.odd,
        }
    }

    /// What was settled for the player since.
    fn tail(self, player: Player) -> Tail
        ensures { result ≡ tail_at self player }
    {
        Tail {
            player,
            from: self.count(player),
        }
    }

    /// What is set aside for the frame, of all that is.
    fn aside(self, set_aside: &[u32]) -> &[u32]
        requires { (self.set_aside_from ≤ self.set_aside_upto) × (self.set_aside_upto ≤ length set_aside.now) }
        ensures { result.now ≡ aside_of self set_aside.now }
    {
        &set_aside[self.set_aside_from..self.set_aside_upto]
    }

    /// The greatest vertices of these.
    fn greatest(self, set_aside: &[u32]) -> &[u32]
        requires { (self.set_aside_from ≤ self.tops_upto) × (self.tops_upto ≤ length set_aside.now) }
        ensures { result.now ≡ greatest_of self set_aside.now }
    {
        &set_aside[self.set_aside_from..self.tops_upto]
    }
}

/// Takes one of the steps that are left. False if none is left; without a limit one always is.
fn take_step(left: &mut Option<u64>) -> bool
    ensures one { left.new ≡ after_step left.old }
    ensures none { left.old ≡ Some 0 → result ≡ false }
    ensures all { result ≡ false → left.old ≡ Some 0 }
{
    match *left {
        None => true,
        Some(0) => false,
        Some(steps) => {
            *left = Some(steps - 1);
            true
        }
    }
}

/// Adds the listed vertices to the mask.
fn insert_all(mask: &mut Mask, list: &[u32])
    requires { All (λ v. v < length mask.old) list.now }
    ensures length { length mask.new ≡ length mask.old }
    ensures has { (v : ℕ) → members mask.new v ≡ union (members mask.old) (listed list.now) v }
{
    for v in list {
        mask.insert(*v);
    }
}

/// The rows inside that a plan gives Even, and those that it gives Odd, in lists with these capacities at first.
fn rows_of(
    alloc: Global,
    view: &View,
    plan: &Plan,
    for_even: usize,
    for_odd: usize,
) -> Result<(Vec<(u32, Option<u32>)>, Vec<(u32, Option<u32>)>), Memory>
    requires { length plan.now.rows.items ≡ length view.now.game.now }
    ensures even { IfOk result (λ rows. rows.0.items ≡ rows_below (won_inside (members view.now.mask.now) (winners_of plan.now) Even)
        (own_choices view.now.game.now Even (choices_of plan.now)) (length view.now.game.now)) }
    ensures odd { IfOk result (λ rows. rows.1.items ≡ rows_below (won_inside (members view.now.mask.now) (winners_of plan.now) Odd)
        (own_choices view.now.game.now Odd (choices_of plan.now)) (length view.now.game.now)) }
{
    let mut even = Vec::with_capacity(alloc, for_even)?;
    let mut odd = Vec::with_capacity(alloc, for_odd)?;
    for v in 0..view.game.len() {
        if view.mask.has(v) {
            let (winner, chosen) = plan.row(v);
            let choice = own_choice(view.game.forward(), winner, v, chosen);
            match winner {
                Player::Even => even.push((v, choice))?,
                Player::Odd => odd.push((v, choice))?,
            }
        }
    }
    Ok((even, odd))
}
