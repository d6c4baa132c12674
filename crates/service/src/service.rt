// The service: what it keeps from line to line, and what it does with a line.
// Numbers of lines and replies are of 64 bits, those of the register `usize`: they are cast, since there is no `From` between the two.
ghost use Rattle.std.specs.Prelude.{◌≡◌};
ghost use Rattle.register.specs.Answers.{number_answer};
ghost use Rattle.service.specs.Meaning.{reply_of, standing_number};

use forms::Refusal;
use lines::{Command, Reply, put_reply, read_command};
use machine::{MOST_STATES, Masked, Sheet};
use protocol::Standing;
use register::Register;
use std::alloc::{AllocError, Global};

// Clauses see it by `kept_of` and not by a model (tried): what is kept has the machine, thus a function, and the value
// of a model may hold none.
/// The register, and the last sheet taken of the file that was read last, if any, under a mask that lets every atom show.
#[derive(Drop)]
pub struct Service {
    pub(crate) register: Register,
    pub(crate) sheet: Option<Masked<Sheet>>,
    pub(crate) heap: Global,
}

impl Service {
    ghost use Rattle.std.specs.Prelude.{◌≡◌, string_bytes};
    ghost use Rattle.service.specs.Kept.{new_kept};
    ghost use Rattle.service.specs.Meaning.{reply_to, on_sheet, WantsSheet, Performed, Replied, Answered};
    ghost use Rattle.service.specs.View.{kept_of};

    /// A service over an empty register, with no sheet. `heap` has the memory of the sheets to come.
    pub fn new(heap: Global) -> Service
        ensures { kept_of result ≡ new_kept }
    {
        Service {
            register: Register::new(),
            sheet: None,
            heap,
        }
    }

    /// Does what the line, without its line feed, asks for, and puts the line of its reply in place of what `out` holds;
    /// a refusal is a reply, 20 where the line asks for nothing. `file` has the bytes of the file that a line to read
    /// names, none where it cannot be read. The only error is out of memory: for the reply's text, after all was
    /// done, or for a sheet of `file`, where what is kept is left open. What `out` holds is then left open too.
    pub fn answer(&mut self, line: &[u8], file: &[u8], out: &mut String) -> Result<(), AllocError>
        ensures { Answered line.now file.now (kept_of self.old) result
            (string_bytes out.new) (kept_of self.new) }
    {
        self.reply(read_command(line), file, out)
    }

    /// The same for a line that was read: its command, or the refusal of a line that has none.
    pub fn reply(
        &mut self,
        asked: Result<Command<'_>, Refusal>,
        file: &[u8],
        out: &mut String,
    ) -> Result<(), AllocError>
        ensures { Replied asked.entry file.now (kept_of self.old) result
            (string_bytes out.new) (kept_of self.new) }
    {
        let reply = match asked {
            Ok(command) => self.perform(command, file)?,
            Err(refusal) => Reply::Refused(refusal),
        };
        put_reply(out, reply)
    }

    // Does what the command asks for.
    fn perform(&mut self, command: Command<'_>, file: &[u8]) -> Result<Reply, AllocError>
        ensures { Performed (reply_to (kept_of self.old) file.now command.entry)
            (WantsSheet file.now command.entry) result (kept_of self.new) }
    {
        Ok(match command {
            Command::Form { kind, a, b } => number_reply(self.register.form(kind, a, b)),
            Command::Open(set) => number_reply(self.register.open(set)),
            Command::Node { number, a, b } => number_reply(self.register.node(number, a, b)),
            Command::Enter => number_reply(self.register.enter()),
            Command::Abandon => number_reply(self.register.abandon()),
            Command::Strike(line) => number_reply(self.register.strike(line as usize)),
            Command::Clear => {
                self.register.clear();
                Reply::Number(0)
            }
            Command::Stands(set) => Reply::Number(standing_number(self.register.stands(set))),
            Command::Show { set, state } => self.show(set, state as usize),
            Command::Read(_) => self.read(file)?,
        })
    }

    // Shows the sheet that is kept.
    fn show(&mut self, set: u64, state: usize) -> Reply
        ensures reply { result
            ≡ (on_sheet (kept_of self.old) set state (kept_of self.old).sheet).0 }
        ensures after { kept_of self.new
            ≡ (on_sheet (kept_of self.old) set state (kept_of self.old).sheet).1 }
    {
        let Some(machine) = &self.sheet else {
            return Reply::Refused(Refusal::NoSheet);
        };
        // a rule of this project: fixed memory, lent for the show
        let mut marks = [0; MOST_STATES];
        let mut scratch = [0; MOST_STATES];
        self.register
            .show(set, state, machine, &mut marks, &mut scratch)
            .map_or_else(
                Reply::Refused,
                |shown| Reply::Numbers(shown.held, shown.rounds as u64),
            )
    }
}

// The reply to a call that answers one number.
fn number_reply(answer: Result<usize, Refusal>) -> Reply
    ensures { result ≡ reply_of (number_answer answer) }
{
    answer.map_or_else(Reply::Refused, |n| Reply::Number(n as u64))
}

// How a set stands, as a number: 0 where it does not stand.
fn standing_number(standing: Option<Standing>) -> u64
    ensures { result ≡ standing_number standing }
{
    standing.map_or(0, |standing| standing as u64)
}
