//! The jobs of a run and their numbers, which workers draw from one atomic word. Each worker draws by a ticket of its own, which
//! keeps its numbers. A draw is one step on the word and waits for nobody.

ghost use Rattle.std.specs.Prelude.{◌≡◌, ◌≤◌, ◌<◌, [], true, All, IfOk, IfSome, IfNone, None, if◌then◌else◌, length, map, replicate, vec_len};
ghost use Rattle.pg_workers.specs.private.Drawing.{drawer};
ghost use Rattle.pg_workers.specs.Tickets.{fresh, drew, exhausted, AreDrawn};

use atomic_table::{Join, Play, Seat, Split, Table, TableRule};
use pg_game::Memory;
use std::alloc::Global;
use std::collections::LinkedList;
use std::marker::Model;

/// The numbers of a ticket, and whether a draw found no job left.
#[derive(Drop)]
pub struct Drawn {
    pub numbers: Vec<u64>,
    pub told_none: bool,
}

/// Draws numbers of jobs, and keeps them. Contracts see its jobs, the drawn numbers, and whether a draw found no job left.
#[derive(Drop)]
pub struct Ticket {
    seat: Seat<(), Drawer>,
    numbers: Vec<u64>,
    told_none: bool,
}

impl Model for Ticket {
    ghost use Rattle.pg_workers.specs.Tickets.{HeldTicket};

    ghost Value = { HeldTicket };

    ghost use Rattle.pg_workers.specs.TicketFields.{held_of};
    ghost use Rattle.pg_workers.specs.private.TicketFields.{IsTicket};

    ghost view = { held_of };

    ghost invariant = { IsTicket };
}

impl Ticket {
    /// The drawn numbers, in order.
    pub fn drawn(&self) -> &[u64]
        ensures numbers { result.now ≡ self.now.numbers }
        ensures below { All (λ j. j < self.now.series.total) result.now }
    {
        // for the proof: reading a field gives the invariant of the type, and so the numbers are below the total
        let _told_none = self.told_none;
        self.numbers.as_slice()
    }

    /// A ticket at a seat of its own, with capacity for all numbers.
    fn new(alloc: Global, total: u64, seat: Seat<(), Drawer>) -> Result<Ticket, Memory>
        requires { (seat.me ≡ (drawer total 1 0 [], [])) × (total ≤ 4096) }
        ensures { IfOk result (λ t. t ≡ fresh (record { table = seat.table_id; total = total })) }
    {
        let numbers = Vec::with_capacity(alloc, total as usize)?;
        Ok(Ticket {
            seat,
            numbers,
            told_none: false,
        })
    }
}

/// The numbers below a total, each for one ticket. Contracts see the jobs with their total, and the number of tickets.
#[derive(Drop)]
pub struct Jobs {
    table: Table<(), Drawer, About, Drawing, Global>,
    total: u64,
    seats: u32,
    spare: Vec<Drawn>,
}

impl Model for Jobs {
    ghost use Rattle.pg_workers.specs.Tickets.{JobNumbers};

    ghost Value = { JobNumbers };

    ghost use Rattle.pg_workers.specs.TicketFields.{numbers_of};
    ghost use Rattle.pg_workers.specs.private.TicketFields.{HasTicketCapacity};

    ghost view = { numbers_of };

    ghost invariant = { HasTicketCapacity };
}

impl Jobs {
    /// Jobs numbered from 0, and a ticket for each seat, with capacity for all numbers from the start. The only error is `Memory`.
    #[tactic(auto, using(crate::proofs::jobs::WordSteps::begins))]
    pub fn open(alloc: Global, total: u64, seats: u32) -> Result<(Jobs, Vec<Ticket>), Memory>
        requires total { total ≤ 4096 }
        requires seats { (1 ≤ seats) × (seats ≤ 64) }
        ensures jobs { IfOk result (λ o. (o.0.series.total ≡ total) × (o.0.seats ≡ seats)) }
        ensures tickets { IfOk result (λ o. o.1.items ≡ replicate seats (fresh o.0.series)) }
        ensures own { IfOk result (λ o. (vec_len o.1 ≡ seats) × All (λ t. t.series ≡ o.0.series) o.1.items) }
    {
        let about = About {
            total,
            seats: u64::from(seats),
        };
        let spare = Vec::with_capacity(alloc, seats as usize)?;
        let mut tickets = Vec::with_capacity(alloc, seats as usize)?;
        let (table, mut remaining) = Table::of_words(alloc, &[0], &about)?;
        for _i in 1..seats {
            let seat = table.shared.split_seat::<OneTicket>(&mut remaining);
            tickets.push_reserved(Ticket::new(alloc, total, seat)?);
        }
        tickets.push_reserved(Ticket::new(alloc, total, remaining)?);
        let jobs = Jobs {
            table,
            total,
            seats,
            spare,
        };
        Ok((jobs, tickets))
    }

    /// The next number, which the ticket keeps; None if no job is left, and then in every further draw. Takes no memory.
    pub fn draw(&self, ticket: &mut Ticket) -> Option<u64>
        requires { ticket.old.series ≡ self.now.series }
        ensures some { IfSome result (λ j. (ticket.new ≡ drew ticket.old j) × (j < self.now.series.total)) }
        ensures spare { IfSome result (λ j. length ticket.old.numbers < self.now.series.total) }
        ensures none { IfNone result (ticket.new ≡ exhausted ticket.old) }
        ensures sticky { ticket.old.told_none ≡ true → result ≡ None }
    {
        if ticket.told_none {
            return None;
        }
        let found = self.table.shared.fetch_add::<Draw>(&mut ticket.seat, 0, 1);
        if found < self.total {
            ticket.numbers.push_reserved(found);
            Some(found)
        } else {
            ticket.told_none = true;
            None
        }
    }

    /// The drawn numbers of each ticket, in the order of the tickets. Takes no memory. No number was drawn twice; if a draw
    /// found no job left, each was drawn.
    pub fn close(self, mut tickets: Vec<Ticket>) -> Vec<Drawn>
        requires all { vec_len tickets ≡ self.seats }
        requires own { All (λ t. t.series ≡ self.series) tickets.items }
        ensures numbers { map (λ d. d.numbers.items) result.items ≡ map (λ t. t.numbers) tickets.items }
        ensures told_none { map (λ d. d.told_none) result.items ≡ map (λ t. t.told_none) tickets.items }
        ensures fair { AreDrawn self.series.total tickets.items }
    {
        let Jobs {
            table,
            total: _,
            seats: _,
            mut spare,
        } = self;
        let Ticket {
            mut seat,
            numbers,
            told_none,
        } = tickets.remove(0);
        spare.push_reserved(Drawn { numbers, told_none });
        for ticket in tickets {
            let Ticket {
                seat: other,
                numbers,
                told_none,
            } = ticket;
            table.shared.join_seat::<OneTicket>(&mut seat, other);
            spare.push_reserved(Drawn { numbers, told_none });
        }
        table.close_with(seat).free();
        spare
    }
}

/// The view of a seat. The program makes no value of it.
pub(crate) struct Drawer {
    pub total: u64,
    pub tickets: u64,
    pub told_none: u64,
    pub drawn: LinkedList<u64>,
}

/// The number of numbers, and the number of tickets.
#[derive(Drop)]
pub(crate) struct About {
    pub total: u64,
    pub seats: u64,
}

/// The rule that every step keeps.
pub(crate) struct Drawing;

impl TableRule<(), Drawer, About> for Drawing {
    ghost use Rattle.std.specs.Prelude.{[]};
    ghost use Rattle.pg_workers.specs.private.Drawing.{IsDrawn, drawer};

    ghost holds = { λ about s. IsDrawn about.total about.seats s };

    ghost first = { λ about. drawer about.total about.seats 0 [] };
}

/// One ticket leaves a seat that several share, or comes back.
pub(crate) struct OneTicket;

impl Split<Drawer> for OneTicket {
    ghost use Rattle.pg_workers.specs.private.Drawing.{one_less, one_ticket};

    ghost left = { one_less };

    ghost right = { one_ticket };
}

impl Join<Drawer> for OneTicket {
    ghost use Rattle.pg_workers.specs.private.Drawing.{both_drawers, spent_drawer};

    ghost both = { both_drawers };

    ghost spent = { spent_drawer };
}

/// A draw.
pub(crate) struct Draw;

impl Play<(), Drawer> for Draw {
    ghost use Rattle.pg_workers.specs.private.Drawing.{Draws};

    ghost then = { Draws };
}
