// What a line asks.
ghost use Rattle.lines.specs.Grammar.{IsCommandResult, Says, Asks, AsksAtMostOne, SayableIsAskable};

use crate::number::{after_space, numbers, three_bytes};
use forms::Refusal;

// The most bytes that a line has, its line feed apart.
const LONGEST: usize = 100;

/// What a line asks for, with its numbers. A set has 64 bits, bit f for form f; book lines and states count from 0.
/// `Read` has the bytes of a file's name, which may be any.
#[derive(Clone, Copy, PartialEq, Eq, Debug)]
pub enum Command<'a> {
    Form { kind: u8, a: u8, b: u8 },
    Open(u64),
    Node { number: u8, a: u8, b: u8 },
    Enter,
    Abandon,
    Strike(u64),
    Clear,
    Stands(u64),
    Read(&'a [u8]),
    Show { set: u64, state: u64 },
}

/// The command of a line, which has at most one. The line is without its line feed.
/// Refused with `BadLine` (20) where it has over 100 bytes or asks for nothing.
pub fn read_command(line: &[u8]) -> Result<Command<'_>, Refusal>
    ensures command { IsCommandResult (Asks line.now) result }
    ensures alone { AsksAtMostOne line.now }
    ensures all { SayableIsAskable }
{
    if line.len() > LONGEST {
        return Err(Refusal::BadLine);
    }
    match line {
        [letter, rest @ ..] => lettered(char::from(*letter), rest),
        [] => Err(Refusal::BadLine),
    }
}

// The command of a letter and what follows it.
fn lettered(letter: char, rest: &[u8]) -> Result<Command<'_>, Refusal>
    ensures { IsCommandResult (Says letter rest.now) result }
{
    match letter {
        'F' => {
            let [kind, a, b] = three_bytes(rest)?;
            Ok(Command::Form { kind, a, b })
        }
        'O' => {
            let [set] = numbers::<1>(rest)?;
            Ok(Command::Open(set))
        }
        'N' => {
            let [number, a, b] = three_bytes(rest)?;
            Ok(Command::Node { number, a, b })
        }
        'E' => {
            let [] = numbers::<0>(rest)?;
            Ok(Command::Enter)
        }
        'A' => {
            let [] = numbers::<0>(rest)?;
            Ok(Command::Abandon)
        }
        'S' => {
            let [at] = numbers::<1>(rest)?;
            Ok(Command::Strike(at))
        }
        'C' => {
            let [] = numbers::<0>(rest)?;
            Ok(Command::Clear)
        }
        'Q' => {
            let [set] = numbers::<1>(rest)?;
            Ok(Command::Stands(set))
        }
        'R' => Ok(Command::Read(after_space(rest)?)),
        'H' => {
            let [set, state] = numbers::<2>(rest)?;
            Ok(Command::Show { set, state })
        }
        _ => Err(Refusal::BadLine),
    }
}
