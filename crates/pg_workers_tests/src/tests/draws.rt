//! Tickets: each number is drawn once, by any number of threads.

ghost use Rattle.std.specs.Prelude.{◌≡◌, All, false, true, vec_len};

use pg_test_support::{check, check_eq};
use pg_workers::{Drawn, Jobs, Ticket};
use std::alloc::Global;
use std::process::Abort;
use std::thread;
use std::thread::Threads;

/// Lets other threads run this many times.
fn yield_often(times: u64) {
    for _time in 0..times {
        thread::yield_now();
    }
}

/// Jobs and their tickets, of which a test looks at no more than it needs.
fn opened(rt: &impl Abort, alloc: Global, total: u64, seats: u32) -> (Jobs, Vec<Ticket>)
    ensures seats { vec_len result.1 ≡ result.0.seats }
    ensures own { All (λ t. t.series ≡ result.0.series) result.1.items }
{
    assert!(*rt; total <= 4096);
    assert!(*rt; 1 <= seats && seats <= 64);
    Jobs::open(alloc, total, seats).expect(rt, "memory")
}

/// Jobs with one ticket.
fn one_ticket(rt: &impl Abort, alloc: Global, total: u64) -> (Jobs, Ticket)
    ensures { result.1.series ≡ result.0.series }
{
    let (jobs, mut tickets) = opened(rt, alloc, total, 1);
    match tickets.pop() {
        Some(ticket) => (jobs, ticket),
        None => panic!(*rt; "no ticket"),
    }
}

/// The next number, which a test does not look at.
fn next(jobs: &Jobs, ticket: &mut Ticket) -> Option<u64>
    requires { ticket.old.series ≡ jobs.now.series }
    ensures { ticket.new.series ≡ ticket.old.series }
{
    jobs.draw(ticket)
}

/// Draws, and compares the number.
fn draws(rt: &impl Abort, jobs: &Jobs, ticket: &mut Ticket, want: Option<u64>)
    requires { ticket.old.series ≡ jobs.now.series }
    ensures { ticket.new.series ≡ ticket.old.series }
{
    check_eq!(*rt; next(jobs, ticket), want);
}

/// Compares what a ticket has drawn.
fn has_drawn(rt: &impl Abort, ticket: &Ticket, want: &[u64]) {
    check_eq!(*rt; ticket.drawn(), want);
}

/// Draws until there are no more, and lets other threads run after each draw, by the number drawn.
fn draw_all(jobs: &Jobs, mut ticket: Ticket) -> Ticket
    requires { ticket.series ≡ jobs.now.series }
    ensures { (result.series ≡ ticket.series) × (result.told_none ≡ true) }
{
    while let Some(number) = jobs.draw(&mut ticket) {
        yield_often(number % 4);
    }
    ticket
}

/// Asks once more, where a draw returned that none is left. Says whether a number was drawn.
fn draws_again(jobs: &Jobs, ticket: &mut Ticket) -> bool
    requires series { ticket.old.series ≡ jobs.now.series }
    requires told { ticket.old.told_none ≡ true }
    ensures none { result ≡ false }
    ensures same { ticket.new ≡ ticket.old }
{
    jobs.draw(ticket).is_some()
}

/// Asks this many times more, and says how often a number was drawn.
fn drawn_again(jobs: &Jobs, ticket: &mut Ticket, times: u32) -> u32
    requires series { ticket.old.series ≡ jobs.now.series }
    requires told { ticket.old.told_none ≡ true }
    ensures none { result ≡ 0 }
    ensures same { ticket.new ≡ ticket.old }
{
    let mut drawn = 0u32;
    for _time in 0..times {
        if draws_again(jobs, ticket) {
            drawn = drawn.wrapping_add(1);
        }
    }
    drawn
}

/// Draws until there are no more, and asks a thousand times more.
fn draw_beyond(jobs: &Jobs, ticket: Ticket) -> Ticket
    requires { ticket.series ≡ jobs.now.series }
    ensures { (result.series ≡ ticket.series) × (result.told_none ≡ true) }
{
    let mut ticket = draw_all(jobs, ticket);
    let _none = drawn_again(jobs, &mut ticket, 1_000);
    ticket
}

/// Each ticket on a thread of its own is drawn on until none is left, and asks a thousand times more.
fn drawn_by_many<R: Threads + Abort + Sync>(
    rt: &R,
    alloc: Global,
    total: u64,
    seats: u32,
) -> Vec<Drawn> {
    let (jobs, tickets) = opened(rt, alloc, total, seats);
    let shared = &jobs;
    let draw = |ticket: Ticket| -> Ticket
        requires { ticket.series ≡ shared.now.series }
        ensures { (result.series ≡ ticket.series) × (result.told_none ≡ true) }
    { draw_beyond(shared, ticket) };
    let tickets = thread::map_vec(rt, tickets, &draw).expect(rt, "memory");
    jobs.close(tickets)
}

/// How often each number below 4096 was drawn. A draw on each ticket returned that none is left.
fn counts_of(rt: &impl Abort, alloc: Global, all: &[Drawn]) -> Vec<u8> {
    let mut counts = vec![in alloc; 0u8; 4096].expect(rt, "memory");
    for drawn in all {
        check!(*rt; drawn.told_none);
        count(rt, counts.as_mut_slice(), drawn.numbers.as_slice());
    }
    counts
}

fn count(rt: &impl Abort, counts: &mut [u8], numbers: &[u64]) {
    for number in numbers {
        let Some(count) = counts.get_mut(*number as usize) else {
            panic!(*rt; "too large")
        };
        *count = count.wrapping_add(1);
    }
}

/// Each number below the total was drawn once, and no other.
fn compare_counts(rt: &impl Abort, counts: &[u8], total: u64) {
    let mut number = 0u64;
    for count in counts {
        check_eq!(*rt; *count, u8::from(number < total), number);
        number = number.wrapping_add(1);
    }
}

fn each_is_drawn_once<R: Threads + Abort + Sync>(rt: &R, alloc: Global, total: u64, seats: u32) {
    let drawn = drawn_by_many(rt, alloc, total, seats);
    compare_counts(rt, counts_of(rt, alloc, drawn.as_slice()).as_slice(), total);
}

/// How many numbers there are, and how many threads.
const TOTALS: &[(u64, u32)] = &[(3, 2), (4096, 64), (1, 64), (0, 2)];

#[test]
fn each_number_is_drawn_once_by_however_many_threads(rt: HostRuntime) {
    for (total, seats) in TOTALS {
        each_is_drawn_once(&rt, rt.alloc(), *total, *seats);
    }
}

fn draws_no_more(rt: &impl Abort, jobs: &Jobs, mut ticket: Ticket)
    requires series { ticket.series ≡ jobs.now.series }
    requires told { ticket.told_none ≡ true }
{
    check_eq!(*rt; drawn_again(jobs, &mut ticket, 1_000), 0);
    has_drawn(rt, &ticket, &[0, 1, 2]);
}

#[test]
fn a_ticket_that_drew_none_draws_none_a_thousand_times_more(rt: HostRuntime) {
    let (jobs, ticket) = one_ticket(&rt, rt.alloc(), 3);
    draws_no_more(&rt, &jobs, draw_all(&jobs, ticket));
}
