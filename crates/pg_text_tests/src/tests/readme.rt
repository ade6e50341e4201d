//! The code of README.md, which `tests/pages/pages.py` of the repository looks for here.

ghost use Rattle.std.specs.Prelude.{◌≤◌, length};
ghost use Rattle.pg_text.specs.Reading.{max_text};

use pg_test_support::check_eq;
use pg_text::{TextFault, read_game, write_game};
use std::alloc::Global;

/// The one spelling of the game that a text spells.
fn tidied(alloc: Global, text: &[u8]) -> Result<Vec<u8>, TextFault>
    requires { length text.now ≤ max_text }
{
    let game = read_game(alloc, text)?;
    Ok(write_game(alloc, &game)?)
}

const WRITTEN: &[u8] = b"parity 1;\n0 2 0 0,1;\n1 1 1 1;\n";

#[test]
fn a_text_is_tidied(rt: HostRuntime) {
    let text = tidied(rt.alloc(), b"1 1 1 1; 0 2 0 1,0;").expect(&rt, "a game");
    check_eq!(rt; text.as_slice(), WRITTEN);
}
