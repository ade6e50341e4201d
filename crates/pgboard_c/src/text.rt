//! What the library says of itself: the text of each answer, and its version. An export cannot return a pointer, so a text goes
//! out through a struct of the caller, or is copied into a buffer. The bytes are constants, and stay as long as the program.

ghost use Rattle.std.specs.Prelude.{◌≡◌};
ghost use Rattle.pgboard_c.specs.Numbers.{version};
ghost use Rattle.pgboard_c.specs.Text.{answer_text, reading_text, board_text, version_text, IsCopied};

/// A text of the library, with a zero byte at its end.
#[repr(C)]
pub struct Text<'a> {
    pub bytes: &'a [u8],
}

/// Writes the text of an answer, in English. A number that is no answer has a text of its own.
#[unsafe(no_mangle)]
pub extern "C" fn pgboard_answer_text(answer: u32, text: &mut Text<'static>)
    ensures { text.new.bytes.now ≡ answer_text answer }
{
    text.bytes = answer_text(answer);
}

/// Copies the text of an answer to the front of the buffer, if it fits, and returns its size with the zero byte.
#[unsafe(no_mangle)]
pub extern "C" fn pgboard_copy_answer_text(answer: u32, into: &mut [u8]) -> usize
    ensures { IsCopied (answer_text answer) into.old into.new result }
{
    copy_if_it_fits(answer_text(answer), into)
}

/// Copies a text to the front of the buffer, if it fits, and returns its size.
pub fn copy_if_it_fits(text: &[u8], into: &mut [u8]) -> usize
    ensures { IsCopied text.now into.old into.new result }
{
    let size = text.len();
    if size <= into.len() {
        into[..size].copy_from_slice(text);
    }
    size
}

/// The texts of the answers on arrays, games and solutions, and of the others.
fn answer_text(answer: u32) -> &'static [u8]
    ensures { result.now ≡ answer_text answer }
{
    match answer {
        0 => b"no fault\0",
        1 => b"memory was refused\0",
        2 => b"the arrays of the game do not fit one another\0",
        3 => b"the row of a vertex is no part of the targets\0",
        4 => b"an owner is neither 0 nor 1\0",
        5 => b"a priority is above 2147483647\0",
        6 => b"an array for results does not have one entry for each vertex\0",
        7 => b"a winner is neither 0 nor 1\0",
        8 => b"an array of the solution does not have one entry for each vertex\0",
        9 => b"the size of a struct is not the one that this library takes\0",
        10 => b"the game has no vertex\0",
        11 => b"the game has more than 1048576 vertices\0",
        12 => b"a vertex is specified twice\0",
        13 => b"a vertex has no successor\0",
        14 => b"the game has more than 16777216 edges\0",
        15 => b"a successor is no vertex\0",
        20 => b"the winner owns a vertex and has no choice there\0",
        21 => b"a winner's choice is no successor\0",
        22 => b"a kept edge leads to a vertex that its winner does not win\0",
        23 => b"the greatest priority on a closed walk is the loser's\0",
        _ => reading_text(answer),
    }
}

/// The texts of the answers on texts, buffers and what is known.
fn reading_text(answer: u32) -> &'static [u8]
    ensures { result.now ≡ reading_text answer }
{
    match answer {
        30 => b"the game's text is longer than 268435456 bytes\0",
        31 => b"the game's text has a byte that begins no token, or a quote that is never closed\0",
        32 => b"the game's text has a token that is not expected, or ends too early\0",
        33 => b"the game's text has a number above 2147483647\0",
        34 => b"the game's text has an owner that is neither 0 nor 1\0",
        40 => b"the solution's text is longer than 268435456 bytes\0",
        41 =>
            b"the solution's text has a byte that begins no token, or a quote that is never closed\0",
        42 => b"the solution's text has a token that is not expected, or ends too early\0",
        43 => b"the solution's text has a number above 2147483647\0",
        44 => b"the solution's text has a winner that is neither 0 nor 1\0",
        45 => b"the solution's text has a vertex that is not in the game\0",
        46 => b"the solution's text has two lines for a vertex\0",
        47 => b"the solution's text has no line for a vertex\0",
        50 => b"the buffer is smaller than the text, or an array than what it is to have\0",
        60 => b"a vertex that its owner is known to win has no choice that is a successor\0",
        61 =>
            b"the greatest priority on a closed walk in what a player is known to win is the other's\0",
        62 => b"Even attracts a vertex that is known for Odd to what is known for Even\0",
        63 => b"a kept edge leads out of what a player is known to win\0",
        _ => board_text(answer),
    }
}

/// The texts of the answers on boards and on a bound.
fn board_text(answer: u32) -> &'static [u8]
    ensures { result.now ≡ board_text answer }
{
    match answer {
        70 => b"the board is open already\0",
        71 => b"the board is not open\0",
        72 => b"the board has no entry of this number\0",
        73 => b"the board has unsettled vertices\0",
        74 => b"the board has no vertex of this number\0",
        80 => b"the claim's player is neither 0 nor 1\0",
        81 => b"the claim's arrays have different lengths\0",
        82 => b"a row of the claim is wrong\0",
        83 => b"the greatest priority on a closed walk in the claim is the opponent's\0",
        84 => b"a vertex of the claim is settled for the opponent\0",
        85 => b"all vertices of the claim are settled for the player\0",
        86 => b"a kept edge leads out of the claim and of what is settled for the player\0",
        90 => b"the recursion needs more steps than the call allows\0",
        _ => b"no answer of this library\0",
    }
}

/// The version as one number: major * 10,000 + minor * 100 + patch.
#[unsafe(no_mangle)]
pub extern "C" fn pgboard_version() -> u32
    ensures { result ≡ version }
{
    100
}

/// Writes the version as text: "0.1.0".
#[unsafe(no_mangle)]
pub extern "C" fn pgboard_version_text(text: &mut Text<'static>)
    ensures { text.new.bytes.now ≡ version_text }
{
    text.bytes = version_text();
}

/// Copies the version as text to the front of the buffer, if it fits, and returns its size with the zero byte.
#[unsafe(no_mangle)]
pub extern "C" fn pgboard_copy_version_text(into: &mut [u8]) -> usize
    ensures { IsCopied version_text into.old into.new result }
{
    copy_if_it_fits(version_text(), into)
}

/// The version as text, with a zero byte at its end.
fn version_text() -> &'static [u8]
    ensures { result.now ≡ version_text }
{
    b"0.1.0\0"
}
