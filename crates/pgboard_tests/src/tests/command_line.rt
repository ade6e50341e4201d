//! What lines of words ask for, and which are refused. The whole texts of refusals and of help are cases of the built program.
use super::asserting::made;
use pg_test_support::{check, check_eq};
use pgboard::{Asked, AskedFault, asked};
use std::alloc::{AllocError, Global};
use std::process::Abort;

/// What a line asks for, with its paths.
enum Line {
    Joined,
    Verify(&'static str, &'static str),
    Tidy(Option<&'static str>),
    Solve {
        workers: u32,
        bound: u32,
        winners: bool,
        known: Option<&'static str>,
        game: Option<&'static str>,
    },
    Trace(u32, Option<&'static str>),
}

/// What `solve` asks for by itself.
const SOLVE: Line = Line::Solve {
    workers: 4,
    bound: 4,
    winners: false,
    known: None,
    game: None,
};

const LINES: &[(&[&str], Line)] = &[
    (&[], Line::Joined),
    (&["verify", "a", "b"], Line::Verify("a", "b")),
    (&["tidy"], Line::Tidy(None)),
    (&["tidy", "a"], Line::Tidy(Some("a"))),
    (&["solve"], SOLVE),
    // the path may be first, and options in any order
    (
        &[
            "solve",
            "a",
            "--known",
            "k",
            "--winners",
            "--bound",
            "2",
            "--workers=64",
        ],
        Line::Solve {
            workers: 64,
            bound: 2,
            winners: true,
            known: Some("k"),
            game: Some("a"),
        },
    ),
    // what follows `--` is a path, also where an option has that name
    (
        &["solve", "--known=", "--", "--winners"],
        Line::Solve {
            workers: 4,
            bound: 4,
            winners: false,
            known: Some(""),
            game: Some("--winners"),
        },
    ),
    (&["trace"], Line::Trace(4, None)),
    (&["trace", "--workers", "2"], Line::Trace(2, None)),
    (&["trace", "a"], Line::Trace(4, Some("a"))),
];

/// Lines that are refused.
const REFUSED: &[&[&str]] = &[
    &["verify", "a"],
    &["tidy", "a", "b"],
    &["tidy", "--x"],
    &["x"],
    &["solve", "--workers", "0"],
    &["solve", "--workers", "65"],
    &["solve", "--bound", "9"],
    &["solve", "--bound", "18446744073709551616"],
    &["solve", "--version"],
    &["--"],
];

/// A path of one's own, where there is one.
fn owned(alloc: Global, path: Option<&str>) -> Result<Option<String>, AllocError> {
    match path {
        Some(path) => Ok(Some(String::from_str(alloc, path)?)),
        None => Ok(None),
    }
}

fn wanted(alloc: Global, line: &Line) -> Result<Asked, AllocError> {
    Ok(match line {
        Line::Joined => Asked::Joined,
        Line::Verify(game, solution) => Asked::Verify {
            game: String::from_str(alloc, game)?,
            solution: String::from_str(alloc, solution)?,
        },
        Line::Tidy(game) => Asked::Tidy {
            game: owned(alloc, *game)?,
        },
        Line::Solve {
            workers,
            bound,
            winners,
            known,
            game,
        } => Asked::Solve {
            workers: *workers,
            bound: *bound,
            winners: *winners,
            known: owned(alloc, *known)?,
            game: owned(alloc, *game)?,
        },
        Line::Trace(workers, game) => Asked::Trace {
            workers: *workers,
            game: owned(alloc, *game)?,
        },
    })
}

/// The path of the game and that of the second file.
fn paths(line: &Line) -> (Option<&str>, Option<&str>) {
    match line {
        Line::Verify(game, solution) => (Some(game), Some(solution)),
        Line::Tidy(game) | Line::Trace(_, game) => (*game, None),
        Line::Solve { known, game, .. } => (*game, *known),
        Line::Joined => (None, None),
    }
}

fn assert_line(rt: &impl Abort, alloc: Global, words: &[&str], line: &Line) {
    let found = made(rt, asked(alloc, words));
    let want = made(rt, wanted(alloc, line));
    check_eq!(*rt; &found, &want, words);
    check_eq!(*rt; (found.path(), found.second_path()), paths(line), words);
}

#[test]
fn each_line_asks_for_what_it_says(rt: HostRuntime) {
    for (words, line) in LINES {
        assert_line(&rt, rt.alloc(), words, line);
    }
}

/// The status with which the words are refused by an error's text, which ends with its line, and none where they are not.
fn refused_with(alloc: Global, words: &[&str]) -> Option<u8> {
    let Err(fault) = asked(alloc, words) else {
        return None;
    };
    match &fault {
        AskedFault::Words(text) if text.starts_with("error: ") && text.ends_with('\n') => {
            Some(fault.status())
        }
        _ => None,
    }
}

#[test]
fn what_a_line_does_not_allow_is_refused(rt: HostRuntime) {
    for words in REFUSED {
        check_eq!(rt; refused_with(rt.alloc(), words), Some(2), *words);
    }
}

/// Whether the words ask for help that says how the program is called.
fn is_helped(alloc: Global, words: &[&str]) -> bool {
    match asked(alloc, words) {
        Ok(Asked::Help(text)) => text.contains("Usage: pgboard") && text.ends_with('\n'),
        _ => false,
    }
}

#[test]
fn help_is_asked_for(rt: HostRuntime) {
    const HELP: &[&[&str]] = &[&["--help"], &["help", "solve"], &["verify", "-h"]];
    for words in HELP {
        check!(rt; is_helped(rt.alloc(), words), *words);
    }
}
