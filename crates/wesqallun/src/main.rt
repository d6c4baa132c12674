// Reads lines from standard input, and replies to each before it reads the next.
#![tactic(auto)]

mod disk;

ghost use Rattle.std.specs.Prelude.{◌≡◌, ◌⊎◌, [], string_bytes};
ghost use Rattle.service.specs.View.{kept_of};
ghost use Rattle.wesqallun.specs.Answer.{AnsweredFromDisk, IsToRead};

use disk::read_file;
use forms::Refusal;
use lines::{Command, next_line, read_command};
use service::Service;
use std::alloc::AllocError;
use std::io;
use std::io::{BufReader, Write};
use std::rt::Files;

// One byte more than the largest file has: a larger one is refused, and never read whole.
const FILE_BYTES: usize = 65537;

fn main(rt: HostRuntime) -> io::Result<()> {
    let heap = rt.alloc();
    let mut input = BufReader::new(heap, rt.stdin())?;
    let mut output = rt.stdout();
    let mut service = Service::new(heap);
    let mut line = Vec::new(heap);
    // a rule of this project: the memory for a file is had once, and fixed
    let mut buffer = vec![in heap; 0u8; FILE_BYTES]?;
    let mut reply = String::new(heap);
    // Nothing says that an input ends, and a loop has to: this one does after 2^64 - 1 lines.
    for _ in 0..u64::MAX {
        if !next_line(&mut input, &mut line)? {
            break;
        }
        answer(&rt, &mut service, &line, &mut buffer, &mut reply)?;
        output.write_all(reply.as_bytes())?;
    }
    Ok(())
}

// Does what the line asks for, over the file that it names, if any, which is read into `buffer`; the line of the reply
// comes in place of what `reply` holds. The only error is out of memory.
fn answer<R: Files>(
    rt: &R,
    service: &mut Service,
    line: &[u8],
    buffer: &mut [u8],
    reply: &mut String,
) -> Result<(), AllocError>
    ensures { AnsweredFromDisk line.now (kept_of service.old) result
        (string_bytes reply.new) (kept_of service.new) }
{
    let asked = read_command(line);
    let file = file_of(rt, asked, buffer);
    service.reply(asked, file, reply)
}

// The bytes of the file that a command names, read into `buffer`; none where it names none.
fn file_of<'a, R: Files>(
    rt: &R,
    asked: Result<Command<'_>, Refusal>,
    buffer: &'a mut [u8],
) -> &'a [u8]
    ensures { (result.now ≡ []) ⊎ IsToRead asked.entry }
{
    match asked {
        Ok(Command::Read(name)) => read_file(rt, name, buffer),
        _ => &[],
    }
}
