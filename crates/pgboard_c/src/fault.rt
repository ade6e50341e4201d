//! The answers of the exports: why a call has no result, or the fault of winners and choices, with a number and a report for C.

ghost use Rattle.std.specs.Prelude.{◌≡◌, ◌<◌};
ghost use Rattle.pgboard_c.specs.Numbers.{answer, array_number, structure_number, structure_size, answer_of, IsAnswerTo};
ghost use Rattle.pgboard_c.specs.Numbers.{game_answer, verdict_answer, known_answer, text_answer, solution_answer, board_answer, post_answer};

use pg_dominion::SolutionFault;
use pg_game::GameFault;
use pg_text::{SolutionTextFault, TextFault};
use pg_workers::KnownFault;
use std::alloc::{AllocError, AllocFailed};

/// An array with a length that does not fit the others.
#[derive(Clone, Copy, Drop)]
pub enum ArrayName {
    Priorities,
    Starts,
    Targets,
    Winners,
    Choices,
}

impl ArrayName {
    /// The number of the array in a report.
    fn number(self) -> u64
        ensures { result ≡ array_number self }
    {
        match self {
            ArrayName::Priorities => 1,
            ArrayName::Starts => 2,
            ArrayName::Targets => 3,
            ArrayName::Winners => 4,
            ArrayName::Choices => 5,
        }
    }
}

/// A struct of the C interface, which begins with its own size.
#[derive(Clone, Copy, Drop)]
pub enum Structure {
    Game,
    Solution,
    Results,
    Claim,
}

impl Structure {
    /// The size of the struct in bytes: a size, of a claim also two numbers of half that size, and some slices, each a pointer
    /// and a length.
    pub fn size(self) -> usize
        ensures { result ≡ structure_size self }
    {
        match self {
            Structure::Game => 72,
            Structure::Solution | Structure::Results => 40,
            Structure::Claim => 48,
        }
    }

    /// The number of the struct in a report.
    fn number(self) -> u64
        ensures { result ≡ structure_number self }
    {
        match self {
            Structure::Game => 1,
            Structure::Solution => 2,
            Structure::Results => 3,
            Structure::Claim => 4,
        }
    }
}

/// Why a call on a board has no result.
#[derive(Clone, Copy, Drop)]
pub enum BoardFault {
    /// The board is open already.
    Open,
    /// The board is not open.
    Closed,
    /// No entry has the number; this is the number of entries.
    Entry(usize),
    /// The board is not full; this is the number of unsettled vertices.
    Unsettled(u64),
    /// No vertex has the number; this is the number of vertices.
    Vertex(u32),
}

/// Why a claim is not posted. Faults have vertices, but for those of the claim's own arrays.
#[derive(Clone, Copy, Drop)]
pub enum PostFault {
    /// The player is neither 0 nor 1.
    Player(u32),
    /// The arrays have different lengths, which are these.
    Lengths(usize, usize),
    /// The first wrong row.
    Shape(u32),
    /// The vertex has the opponent's parity and is the greatest on a closed walk of kept edges in the claim.
    Cycle(u32),
    /// The least vertex of the claim that is settled for the opponent.
    Lost(u32),
    /// All vertices of the claim are settled for the player.
    Stale,
    /// The first kept edge of the rest that ends neither in the rest nor at the player's vertices.
    Open(u32, u32),
}

/// Why a call has no result, or the fault of winners and choices. Faults have the numbers of vertices.
#[derive(Clone, Copy, Drop)]
pub enum Fault {
    /// Memory was refused.
    Memory,
    /// The struct has another size than in this version.
    Size(Structure),
    /// The array of a game does not fit those before it.
    Lengths(ArrayName),
    /// The first vertex whose row is not a part of the targets.
    Row(usize),
    /// The first vertex whose owner is neither 0 nor 1.
    Owner(usize),
    /// The first vertex whose priority is above 2,147,483,647.
    Priority(usize),
    /// The array for results does not have one entry for each vertex.
    Results(ArrayName),
    /// The array of a solution does not have one entry for each vertex.
    Solution(ArrayName),
    /// The first vertex whose winner is neither 0 nor 1.
    Winner(usize),
    /// The arrays or the text make no game. Never `GameFault::Memory`.
    Game(GameFault),
    /// The winners and choices are no solution. Never `SolutionFault::Memory`.
    Verdict(SolutionFault),
    /// What is known does not hold.
    Known(KnownFault),
    /// The game's text is longer than 268,435,456 bytes.
    GameTooLong,
    /// The text is none of a game. Never `TextFault::Memory`.
    GameText(TextFault),
    /// The solution's text is longer than 268,435,456 bytes.
    SolutionTooLong,
    /// The text is no solution text of the game. Never `SolutionTextFault::Memory`.
    SolutionText(SolutionTextFault),
    /// The buffer is smaller than the text, or an array than what it is to have; this is the size of the text, or the number of rows
    /// or of successors.
    Capacity(usize),
    /// The board has no answer.
    Board(BoardFault),
    /// The claim is not posted.
    Post(PostFault),
    /// The recursion needs more steps than the caller's bound.
    GaveUp,
}

impl From<AllocError> for Fault {
    ghost use Rattle.std.specs.Prelude.{◌≡◌};
    ghost use Rattle.pgboard_c.specs.declared.fault.Fault.TheVariants.{Memory};

    ghost from_gives = { λ _ fault. fault ≡ Memory };

    fn from(_fault: AllocError) -> Fault {
        Fault::Memory
    }
}

impl<T: Drop> From<AllocFailed<T>> for Fault {
    ghost use Rattle.std.specs.Prelude.{◌≡◌};
    ghost use Rattle.pgboard_c.specs.declared.fault.Fault.TheVariants.{Memory};

    ghost from_gives = { λ _ fault. fault ≡ Memory };

    fn from(_fault: AllocFailed<T>) -> Fault {
        Fault::Memory
    }
}

/// What a call reports beside its answer.
#[repr(C)]
#[derive(Clone, Copy)]
pub struct Report {
    /// The vertex, the place in a text or the size that the answer is about.
    pub at: u64,
    /// The second vertex.
    pub to: u64,
}

/// Reports what a call comes to, and returns its answer: 0, or the number of the fault.
pub fn reported(report: &mut Report, outcome: Result<(), Fault>) -> u32
    ensures { IsAnswerTo outcome result report.new }
{
    match outcome {
        Ok(()) => {
            *report = Report { at: 0, to: 0 };
            0
        }
        Err(fault) => {
            let Answer { number, at, to } = Answer::of(fault);
            *report = Report { at, to };
            number
        }
    }
}

/// The report of a fault: the number of the answer, and its two places. A place that the fault does not have is 0.
#[derive(Clone, Copy)]
pub struct Answer {
    pub number: u32,
    pub at: u64,
    pub to: u64,
}

impl Answer {
    /// An answer of these numbers.
    fn new(number: u32, at: u64, to: u64) -> Answer
        ensures { result ≡ answer number at to }
    {
        Answer { number, at, to }
    }

    /// The answer to a game that specifications do not make.
    fn of_game(fault: GameFault) -> Answer
        ensures answer { result ≡ game_answer fault }
        ensures above { 0 < result.number }
    {
        match fault {
            GameFault::Memory => Answer::new(1, 0, 0),
            GameFault::NoVertex => Answer::new(10, 0, 0),
            GameFault::TooManyVertices => Answer::new(11, 0, 0),
            GameFault::Twice(id) => Answer::new(12, u64::from(id), 0),
            GameFault::NoSuccessor(id) => Answer::new(13, u64::from(id), 0),
            GameFault::TooManyEdges => Answer::new(14, 0, 0),
            GameFault::Unknown(id, to) => Answer::new(15, u64::from(id), u64::from(to)),
        }
    }

    /// The answer to winners and choices that are no solution.
    fn of_verdict(fault: SolutionFault) -> Answer
        ensures answer { result ≡ verdict_answer fault }
        ensures above { 0 < result.number }
    {
        match fault {
            SolutionFault::Memory => Answer::new(1, 0, 0),
            SolutionFault::NoChoice(id) => Answer::new(20, u64::from(id), 0),
            SolutionFault::BadChoice(id) => Answer::new(21, u64::from(id), 0),
            SolutionFault::Leaves(id, to) => Answer::new(22, u64::from(id), u64::from(to)),
            SolutionFault::Cycle(id) => Answer::new(23, u64::from(id), 0),
        }
    }

    /// The answer to known sets that a board does not take.
    fn of_known(fault: KnownFault) -> Answer
        ensures answer { result ≡ known_answer fault }
        ensures above { 0 < result.number }
    {
        match fault {
            KnownFault::Choice(v) => Answer::new(60, u64::from(v), 0),
            KnownFault::Cycle(v) => Answer::new(61, u64::from(v), 0),
            KnownFault::Lost(v) => Answer::new(62, u64::from(v), 0),
            KnownFault::Open(v, w) => Answer::new(63, u64::from(v), u64::from(w)),
        }
    }

    /// The answer to a text that is no game.
    fn of_text(fault: TextFault) -> Answer
        ensures answer { result ≡ text_answer fault }
        ensures above { 0 < result.number }
    {
        match fault {
            TextFault::Memory => Answer::new(1, 0, 0),
            TextFault::Lexical(at) => Answer::new(31, u64::from(at), 0),
            TextFault::Syntax(at) => Answer::new(32, u64::from(at), 0),
            TextFault::Number(at) => Answer::new(33, u64::from(at), 0),
            TextFault::Owner(at) => Answer::new(34, u64::from(at), 0),
            TextFault::Game(fault) => Answer::of_game(fault),
        }
    }

    /// The answer to a text that is no solution.
    fn of_solution(fault: SolutionTextFault) -> Answer
        ensures answer { result ≡ solution_answer fault }
        ensures above { 0 < result.number }
    {
        match fault {
            SolutionTextFault::Memory => Answer::new(1, 0, 0),
            SolutionTextFault::Lexical(at) => Answer::new(41, u64::from(at), 0),
            SolutionTextFault::Syntax(at) => Answer::new(42, u64::from(at), 0),
            SolutionTextFault::Number(at) => Answer::new(43, u64::from(at), 0),
            SolutionTextFault::Winner(at) => Answer::new(44, u64::from(at), 0),
            SolutionTextFault::Stranger(id) => Answer::new(45, u64::from(id), 0),
            SolutionTextFault::Twice(id) => Answer::new(46, u64::from(id), 0),
            SolutionTextFault::Missing(id) => Answer::new(47, u64::from(id), 0),
        }
    }

    /// The answer to a call that the board of the handle does not take.
    fn of_board(fault: BoardFault) -> Answer
        ensures answer { result ≡ board_answer fault }
        ensures above { 0 < result.number }
    {
        match fault {
            BoardFault::Open => Answer::new(70, 0, 0),
            BoardFault::Closed => Answer::new(71, 0, 0),
            BoardFault::Entry(count) => Answer::new(72, count as u64, 0),
            BoardFault::Unsettled(count) => Answer::new(73, count, 0),
            BoardFault::Vertex(count) => Answer::new(74, u64::from(count), 0),
        }
    }

    /// The answer to a claim that the board does not take.
    fn of_post(fault: PostFault) -> Answer
        ensures answer { result ≡ post_answer fault }
        ensures above { 0 < result.number }
    {
        match fault {
            PostFault::Player(player) => Answer::new(80, u64::from(player), 0),
            PostFault::Lengths(m, n) => Answer::new(81, m as u64, n as u64),
            PostFault::Shape(row) => Answer::new(82, u64::from(row), 0),
            PostFault::Cycle(v) => Answer::new(83, u64::from(v), 0),
            PostFault::Lost(v) => Answer::new(84, u64::from(v), 0),
            PostFault::Stale => Answer::new(85, 0, 0),
            PostFault::Open(v, w) => Answer::new(86, u64::from(v), u64::from(w)),
        }
    }

    /// The report of each fault, with its number and its places.
    fn of(fault: Fault) -> Answer
        ensures answer { result ≡ answer_of fault }
        ensures above { 0 < result.number }
    {
        match fault {
            Fault::Memory => Answer::new(1, 0, 0),
            Fault::Lengths(array) => Answer::new(2, array.number(), 0),
            Fault::Row(v) => Answer::new(3, v as u64, 0),
            Fault::Owner(v) => Answer::new(4, v as u64, 0),
            Fault::Priority(v) => Answer::new(5, v as u64, 0),
            Fault::Results(array) => Answer::new(6, array.number(), 0),
            Fault::Winner(v) => Answer::new(7, v as u64, 0),
            Fault::Solution(array) => Answer::new(8, array.number(), 0),
            Fault::Size(it) => Answer::new(9, it.number(), it.size() as u64),
            Fault::GameTooLong => Answer::new(30, 0, 0),
            Fault::SolutionTooLong => Answer::new(40, 0, 0),
            Fault::Capacity(size) => Answer::new(50, size as u64, 0),
            Fault::GaveUp => Answer::new(90, 0, 0),
            Fault::Game(fault) => Answer::of_game(fault),
            Fault::Verdict(fault) => Answer::of_verdict(fault),
            Fault::Known(fault) => Answer::of_known(fault),
            Fault::GameText(fault) => Answer::of_text(fault),
            Fault::SolutionText(fault) => Answer::of_solution(fault),
            Fault::Board(fault) => Answer::of_board(fault),
            Fault::Post(fault) => Answer::of_post(fault),
        }
    }
}
