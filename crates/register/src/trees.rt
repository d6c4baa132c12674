// Loading a tree body: open at its set, its steps and enter.
ghost use Rattle.std.specs.Prelude.{◌≡◌, map, MatchResult};
ghost use Rattle.protocol.specs.Bodies.{tree_body};
ghost use Rattle.protocol.specs.Calls.{load as load_call, answer as answer_to, state_after};
ghost use Rattle.register.specs.Loads.{loaded_answer, record_of, IsTreeBody, IsNoTreeBody, Stepped, Finished};

use crate::register::Register;
use forms::{Refusal, Rejected};

impl Register {
    // Takes the tree of a body whole, and answers the line of its set; after a refusal walk and
    // book are as before.
    pub(crate) fn load_tree(&mut self, body: &[u8]) -> Result<usize, Rejected>
        ensures answer { loaded_answer result ≡ answer_to self.old
            (load_call (tree_body body.now)) }
        ensures after { self.new ≡ state_after self.old (load_call (tree_body body.now)) }
    {
        let (set, steps) = set_and_steps(body)?;
        self.open(set).map_err(|refusal| refusal.at(0))?;
        // A match, since the walk has to end before its refusal is handed on.
        match self.finish_tree(steps) {
            Ok(line) => Ok(line),
            Err(rejected) => {
                let _ = self.abandon();
                Err(rejected)
            }
        }
    }

    // Takes the steps at the walk under way, and enters its set.
    fn finish_tree(&mut self, steps: &[[u8; 3]]) -> Result<usize, Rejected>
        ensures { Finished self.old (map record_of steps.now) result self.new }
    {
        self.take_steps(steps)?;
        self.enter().map_err(|refusal| refusal.at(steps.len()))
    }

    // Takes the steps in turn.
    fn take_steps(&mut self, steps: &[[u8; 3]]) -> Result<(), Rejected>
        ensures { Stepped self.old (map record_of steps.now) result self.new }
    {
        for (at, step) in steps.iter().enumerate() {
            let [number, a, b] = *step;
            // Not by `map_err` and `?`: tried, and two goals of the loop stayed open.
            if let Err(refusal) = self.node(number, a, b) {
                return Err(refusal.at(at));
            }
        }
        Ok(())
    }
}

// The set of a tree body, low byte first, and its steps of three bytes; or why it is no tree body.
fn set_and_steps(body: &[u8]) -> Result<(u64, &[[u8; 3]]), Rejected>
    ensures { MatchResult result
        (λ parts. IsTreeBody body.now parts.0 (map record_of parts.1.now))
        (λ why. IsNoTreeBody body.now why) }
{
    let rejected = Refusal::BodyLength.at(0);
    let (set, rest) = body.split_first_chunk::<8>().ok_or(rejected)?;
    let (steps, []) = rest.as_chunks::<3>() else {
        return Err(rejected);
    };
    Ok((u64::from_le_bytes(*set), steps))
}
