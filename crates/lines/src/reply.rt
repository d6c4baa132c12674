// What the service answers, and the line that tells it.
ghost use Rattle.std.specs.Prelude.{◌≡◌, Some, string_bytes, OnOk};
ghost use Rattle.forms.specs.Refusals.{NumbersDiffer};
ghost use Rattle.lines.specs.Replies.{reply_line, reply_text, LineDeterminesReply, ReadsBack};

use forms::Refusal;
use std::alloc::AllocError;
use std::fmt;

/// What the service answers to a line: `ok` and numbers where it was taken, `no` and the number of the refusal where not.
#[derive(Clone, Copy, PartialEq, Eq, Debug)]
pub enum Reply {
    /// A call was taken, and answers one number.
    Number(u64),
    /// A call was taken, and answers two numbers: of a show, the part of the set that holds, and the rounds.
    Numbers(u64, u64),
    /// A call or a line was refused.
    Refused(Refusal),
    /// The reading of a file stopped at a refusal, at a record of a part, both counted from 0, and 0 where there is none.
    /// At `PartKind` (15) the part is the contents line.
    RefusedAt {
        refusal: Refusal,
        part: u64,
        record: u64,
    },
}

impl fmt::Display for Reply {
    ghost output = { λ reply. Some (reply_text reply) };

    fn fmt<W: fmt::Write>(&self, f: &mut fmt::Formatter<W>) -> fmt::Result {
        match *self {
            Reply::Number(n) => write!(f, "ok {n}"),
            Reply::Numbers(n, m) => write!(f, "ok {n} {m}"),
            Reply::Refused(refusal) => write!(f, "no {}", refusal.number()),
            Reply::RefusedAt {
                refusal,
                part,
                record,
            } => write!(f, "no {} {part} {record}", refusal.number()),
        }
    }
}

/// Puts the reply's line, with its line feed, in place of what `line` holds, whose memory is used again.
/// It can run out of memory; what `line` holds then is left open.
pub fn put_reply(line: &mut String, reply: Reply) -> Result<(), AllocError>
    ensures bytes { OnOk result (string_bytes line.new ≡ reply_line reply) }
    ensures determined { LineDeterminesReply }
    ensures numbers_differ { NumbersDiffer }
    ensures read_back { ReadsBack }
{
    line.clear();
    write!(line, "{reply}\n")
}
