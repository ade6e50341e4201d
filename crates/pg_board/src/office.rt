//! One board and the book of its ledger under a lock, and the shares of its users. Each share is a part of the ledger, and its
//! amount is the number of vertices that were settled through it. The ledger keeps the book equal to the sum of all amounts,
//! and the type under the lock keeps it equal to the number settled. It also keeps the game and the entries of the opening.

ghost use Rattle.std.specs.Prelude.{◌≡◌, ◌+◌, ◌-◌, ◌≤◌, ◌<◌, ℕ, ◌∷◌, [], IfOk, sum, replicate, vec_len};
ghost use Rattle.pg_game.specs.Specification.{max_vertices};
ghost use Rattle.pg_board.specs.Journal.{IsLawful, number_settled, BeginsWith};
ghost use Rattle.std.specs.Sync.Mutex.{mutex_guard_value};
ghost use Rattle.pg_board.specs.Office.{AreExact, IsOfOffice, IsCopyOfSome, Through, IsAnswerOfSome, IsCheckedAnswerOfSome, IsRaised};
ghost use Rattle.pg_board.specs.Post.{IsPostAnswer, IsSettleAnswer};

use crate::board::Board;
use crate::journal::{Posted, Refusal};
use pg_dominion::{Checked, Claim};
use pg_finders::Copied;
use pg_game::{Game, Memory};
use std::alloc::Global;
use std::marker::{Brand, Model};
use std::sync::ledger::{Blank, Book, Ledger, Share as Token};
use std::sync::{Mutex, MutexGuard, Wait};

/// The ledger of an office, and the board with which it opens. Each call that opens an office chooses them.
pub trait Opening: Ledger {
    ghost use Rattle.pg_board.specs.BoardRecord.{BoardRecord};

    ghost opened: { BoardRecord };
}

impl Opening for Brand {
    ghost use Rattle.std.specs.Prelude.{[]};

    ghost opened = { record { graph = []; journal = [] } };
}

/// A share of an office: the number of vertices that were settled through it. Contracts see it as that number.
#[derive(Drop)]
pub struct Share<L: Ledger> {
    token: Token<L>,
    amount: u64,
}

impl<L: Ledger> Model for Share<L> {
    ghost Value = { ℕ };

    ghost view = { λ s. s.amount };

    ghost invariant = { λ s. (s.token.parts ≡ 1) × (s.token.amount ≡ s.amount) };
}

impl<L: Ledger> Share<L> {
    /// The number of vertices that were settled through this share.
    pub fn amount(&self) -> u64
        ensures { result ≡ self.now }
    {
        self.amount
    }

    /// Adds the vertices that a post through this share settled, in the book too. Returns their number.
    fn raise(&mut self, book: &mut Book<L>, posted: Posted) -> u32
        requires { self.old + posted.settled ≤ max_vertices }
        ensures settled { result ≡ posted.settled }
        ensures book { book.new.total ≡ book.old.total + posted.settled }
        ensures added { self.new ≡ self.old + posted.settled }
        ensures within { self.new ≤ max_vertices }
    {
        let Share { token, amount } = self;
        let more = u64::from(posted.settled);
        book.add(token, more);
        *amount += more;
        posted.settled
    }
}

/// One board under a lock.
#[derive(Drop)]
pub struct Office<'g, L: Opening> {
    locked: Mutex<LockedBoard<'g, L>>,
}

impl<'g, L: Opening> Office<'g, L> {
    /// Opens an office on a board with nothing settled, with one share of amount 0 for each of 1 to 64 seats. The only
    /// error is `Memory`.
    pub fn open(
        alloc: Global,
        blank: Blank,
        game: &'g Game,
        seats: u32,
    ) -> Result<(Office<'g, L>, Vec<Share<L>>), Memory>
        requires name { blank.name ≡ L.name }
        requires parts { (blank.parts ≡ L.parts) × (blank.parts ≡ seats) }
        requires seats { (1 ≤ seats) × (seats ≤ 64) }
        requires opened { record { graph = game.now; journal = [] } ≡ L.opened }
        ensures shares { IfOk result (λ o. o.1.items ≡ replicate seats 0) }
        ensures exact { IfOk result (λ o. AreExact o.1.items 0 []) }
    {
        let board = Board::open(alloc, game)?;
        Office::open_with(alloc, blank, board, seats)
    }

    /// Opens an office on a board, with one share for each of 1 to 65 seats. The first share's amount is the number settled,
    /// the others are 0. The only error is `Memory`.
    pub fn open_with(
        alloc: Global,
        blank: Blank,
        board: Board<'g>,
        seats: u32,
    ) -> Result<(Office<'g, L>, Vec<Share<L>>), Memory>
        requires name { blank.name ≡ L.name }
        requires parts { (blank.parts ≡ L.parts) × (blank.parts ≡ seats) }
        requires seats { (1 ≤ seats) × (seats ≤ 65) }
        requires opened { board ≡ L.opened }
        ensures shares { IfOk result (λ o. o.1.items ≡ number_settled board.entry.journal ∷ replicate (seats - 1) 0) }
        ensures exact { IfOk result (λ o. AreExact o.1.items (number_settled board.entry.journal) board.entry.journal) }
    {
        let mut shares = Vec::with_capacity(alloc, seats as usize)?;
        let (mut book, mut remaining) = blank.open::<L>();
        let mut token = remaining.split_off(1, 0);
        let amount = board.settled();
        book.add(&mut token, amount);
        shares.push_reserved(Share { token, amount });
        for _i in 0..seats - 1 {
            let token = remaining.split_off(1, 0);
            shares.push_reserved(Share { token, amount: 0 });
        }
        let office = Office {
            locked: Mutex::new(LockedBoard { board, book }),
        };
        Ok((office, shares))
    }

    /// Closes the office: takes back all of its shares and returns the board. The number settled is the sum of their amounts,
    /// and the journal begins with the entries at the opening.
    pub fn close(self, mut shares: Vec<Share<L>>) -> Board<'g>
        requires all { (vec_len shares ≡ L.parts) × (0 < L.parts) }
        ensures exact { number_settled result.journal ≡ sum shares.items }
        ensures lawful { IsLawful result.graph result.journal }
        ensures game { result.graph ≡ L.opened.graph }
        ensures begins { BeginsWith L.opened.journal result.journal }
    {
        let Office { locked } = self;
        let LockedBoard { board, mut book } = locked.into_inner();
        let Some(last) = shares.pop() else {
            unreachable!()
        };
        let Share {
            token: mut all,
            amount: _,
        } = last;
        while let Some(share) = shares.pop() {
            let Share { token, amount: _ } = share;
            all.merge(token);
        }
        book.audit(&mut all);
        board
    }

    /// Waits for the lock and posts the claim on the board. Returns the number of vertices that it settled, and the share's
    /// amount rises by it. After an error the share is unchanged. The result is one of `Board::post` on some lawful board of
    /// the office's game, with the entries of the opening and at least the share's amount settled.
    pub fn post<R: Wait>(
        &self,
        rt: &R,
        alloc: Global,
        share: &mut Share<L>,
        worker: u32,
        claim: &Claim,
    ) -> Result<u32, Refusal>
        ensures answer { IsAnswerOfSome L.opened share.old worker claim.now result }
        ensures raised { IsRaised share.old share.new result }
    {
        self.lock_for(rt, share).post(alloc, share, worker, claim)
    }

    /// The same as `post` for a checked claim: it searches for no closed walk under the lock.
    pub fn settle<R: Wait>(
        &self,
        rt: &R,
        alloc: Global,
        share: &mut Share<L>,
        worker: u32,
        checked: &Checked,
    ) -> Result<u32, Refusal>
        ensures answer { IsCheckedAnswerOfSome L.opened share.old worker checked.now result }
        ensures raised { IsRaised share.old share.new result }
    {
        let mut locked = self.lock_for(rt, share);
        locked.settle(alloc, share, worker, checked)
    }

    /// Waits for the lock and copies the unsettled part of the board, which has the entries of the opening and at least the
    /// share's amount settled. The only error is `Memory`.
    pub fn copy<R: Wait>(
        &self,
        rt: &R,
        alloc: Global,
        share: &Share<L>,
    ) -> Result<Copied<'g>, Memory>
        ensures some { IfOk result (λ c. IsCopyOfSome L.opened share.now c) }
    {
        let locked = self.lock_for(rt, share);
        locked.board.copy(alloc)
    }

    /// Waits for the lock of a board with at least the share's amount settled. If the board has less, it locks anew.
    fn lock_for<'a, R: Wait>(
        &'a self,
        rt: &R,
        share: &Share<L>,
    ) -> MutexGuard<'a, LockedBoard<'g, L>>
        ensures { IsOfOffice L.opened share.now (mutex_guard_value result).board }
    {
        for _ in rt.forever() {
            let locked = self.locked.lock(rt);
            if locked.board.settled() >= share.amount {
                return locked;
            }
        }
        unreachable!()
    }
}

/// The state under the lock: the board, and the book, which is the number settled. The board has the game of the opening, and
/// its journal begins with the entries of the opening.
#[derive(Drop)]
pub(crate) struct LockedBoard<'g, L: Opening> {
    board: Board<'g>,
    book: Book<L>,
    ghost exact: { book.total ≡ number_settled board.journal },
    ghost game: { board.graph ≡ L.opened.graph },
    ghost begins: { BeginsWith L.opened.journal board.journal },
}

impl<'g, L: Opening> LockedBoard<'g, L> {
    /// The call of this board, with this worker's number. The share and the book rise by the number that it settles.
    fn post(
        &mut self,
        alloc: Global,
        share: &mut Share<L>,
        worker: u32,
        claim: &Claim,
    ) -> Result<u32, Refusal>
        requires { IsOfOffice L.opened share.old self.old.board }
        ensures answer { Through (IsPostAnswer self.old.board self.new.board worker claim.now) result }
        ensures raised { IsRaised share.old share.new result }
    {
        let LockedBoard { board, book } = self;
        let posted = board.post(alloc, worker, claim)?;
        Ok(share.raise(book, posted))
    }

    /// The same as `post` for a checked claim.
    fn settle(
        &mut self,
        alloc: Global,
        share: &mut Share<L>,
        worker: u32,
        checked: &Checked,
    ) -> Result<u32, Refusal>
        requires { IsOfOffice L.opened share.old self.old.board }
        ensures answer { Through (IsSettleAnswer self.old.board self.new.board worker checked.now) result }
        ensures raised { IsRaised share.old share.new result }
    {
        let LockedBoard { board, book } = self;
        let posted = board.settle(alloc, worker, checked)?;
        Ok(share.raise(book, posted))
    }
}
