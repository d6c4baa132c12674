// A table of at most 64 forms, whose operands are numbers of earlier forms.
ghost use Rattle.std.specs.Prelude.{◌≡◌, ◌<◌, ◌≤◌, [], length, take, IfOk, MatchResult};
ghost use Rattle.forms.specs.Forms.{form, Earlier, IsLawfulTable, IsNotTruth};
ghost use Rattle.forms.specs.Sets.{is_within};
ghost use Rattle.forms.specs.Tables.{accepted_form, add_answer, forms_after_add};
ghost use Rattle.forms.specs.Loading.{load_answer, forms_after_load};
ghost use Rattle.forms.specs.Places.{with_free_places};

use crate::form::Form;
use crate::guard::Restore;
use crate::refusal::{Refusal, Rejected};
use std::marker::Model;

// A set of forms is a number of 64 bits.
const MOST_FORMS: usize = 64;

// How many forms of a table count, apart from the forms themselves, so that a guard can restore it.
#[derive(Clone, Copy)]
pub(crate) struct Count {
    pub(crate) len: usize,
}

// Only the counted forms are in the table. They keep their array and their count apart, which is a rule of this project:
// a guard holds the count alone while a body is read. The places behind the count hold `Truth`, so that the forms tell the fields.
/// Up to 64 forms, numbered from 0 in the order in which they came. An operand is always the number of an earlier form.
/// All its memory is in it, so no call of it runs out of memory.
#[derive(Clone, Copy)]
pub struct Table {
    forms: [Form; MOST_FORMS],
    count: Count,
}

// Clauses see the forms, in the order in which they came.
impl Model for Table {
    ghost use Rattle.std.specs.Prelude.{◌≡◌, ◌≤◌, List, length, take};
    ghost use Rattle.std.proofs.Common.{sym};
    ghost use Rattle.forms.specs.declared.form.Form.{Form};
    ghost use Rattle.forms.specs.Forms.{IsWellFormed};
    ghost use Rattle.forms.specs.Places.{with_free_places, taken_places};

    ghost Value = { List Form };

    ghost view = { λ t. take t.count.len t.forms };

    ghost invariant = { λ t. (t.count.len ≤ 64) × IsWellFormed (take t.count.len t.forms)
        × (t.forms ≡ with_free_places (take t.count.len t.forms)) };

    ghost inverse = { λ T. record {
      forms = with_free_places T;
      count = record { len = length T };
    } };

    ghost inverse_ok = { λ t h i. record {
      forms = sym h.2 i;
      count = record { len = taken_places t.count.len t.forms h.0 h.2 i };
    } };
}

impl Table {
    /// A table with no form.
    pub fn new() -> Table
        ensures { result ≡ [] }
    {
        Table {
            forms: [Form::Truth; MOST_FORMS],
            count: Count { len: 0 },
        }
    }

    /// The forms in their order, form f at place f.
    pub fn as_slice(&self) -> &[Form]
        ensures items { result.now ≡ self.now }
        ensures lawful { IsLawfulTable result.now }
    {
        &self.forms[..self.count.len]
    }

    /// Form f, whose operands are then below 64. f may be any byte: past the end there is nothing to hold, so `Truth`.
    pub fn form(&self, f: u8) -> Form
        ensures value { result ≡ form self.now f }
        ensures small { Earlier 64 result }
        ensures placed { IsNotTruth result → f < 64 }
    {
        self.as_slice()
            .get(usize::from(f))
            .map_or(Form::Truth, |form| *form)
    }

    /// Whether each form of the set, 64 bits with bit f for form f, is in the table.
    pub fn has_all(&self, set: u64) -> bool
        ensures { result ≡ is_within self.now set }
    {
        let count = self.as_slice().len();
        count >= MOST_FORMS || set < 1 << count
    }

    /// Adds the form of a kind, 0 to 11, at the end, and answers its number.
    /// Refused, in this order, with `KindAbove11` (1), `AtomAbove31` (2), `OperandNotEarlier` (3) or `TableFull` (21);
    /// then the table is as before.
    pub fn add(&mut self, kind: u8, a: u8, b: u8) -> Result<usize, Refusal>
        ensures number { result ≡ add_answer self.old kind a b }
        ensures after { self.new ≡ forms_after_add self.old kind a b }
    {
        append(&mut self.forms, &mut self.count, kind, a, b)
    }

    /// Adds the form of each record of the body, or none, and answers how many forms the table has then.
    /// A record is three bytes: kind, a, b. Refused with `BodyLength` (17) where the length is no multiple of 3, else as
    /// `add` at the first record that is refused, counted from 0; then the table is as before.
    pub fn load(&mut self, body: &[u8]) -> Result<usize, Rejected>
        ensures answer { result ≡ load_answer self.old body.now }
        ensures after { self.new ≡ forms_after_load self.old body.now }
        ensures restored { MatchResult result (λ n. n ≡ length self.new)
            (λ _. self.new ≡ self.old) }
    {
        if body.len() % 3 != 0 {
            return Err(Refusal::BodyLength.at(0));
        }
        let before = self.count.len;
        let guard = Restore {
            count: &mut self.count,
            before,
        };
        // A rule of this project: records of a forms body are taken by a slice pattern of kind, a, b and the rest. Their
        // number is counted beside it.
        let mut rest = body;
        let mut record = 0usize;
        while let [kind, a, b, tail @ ..] = rest {
            // Not by `?`: through `map_err` and its closure the proof did not close.
            if let Err(refusal) = append(&mut self.forms, guard.count, *kind, *a, *b) {
                free_places(&mut self.forms, guard.before);
                return Err(refusal.at(record));
            }
            rest = tail;
            record += 1;
        }
        Ok(guard.commit())
    }
}

// Writes the form of a kind behind the counted ones, and counts it. Kind, a and b stay three bytes here and in `add`:
// a call and a record bring them so, and no function keeps them.
fn append(
    forms: &mut [Form; MOST_FORMS],
    count: &mut Count,
    kind: u8,
    a: u8,
    b: u8,
) -> Result<usize, Refusal>
    requires { count.old.len ≤ 64 }
    ensures number { result ≡ add_answer (take count.old.len forms.old) kind a b }
    ensures after { take count.new.len forms.new
        ≡ forms_after_add (take count.old.len forms.old) kind a b }
    ensures grown { count.old.len ≤ count.new.len }
    ensures few { count.new.len ≤ 64 }
    ensures before { take count.old.len forms.new ≡ take count.old.len forms.old }
    ensures sized { length forms.new ≡ 64 }
    ensures free { forms.old ≡ with_free_places (take count.old.len forms.old)
        → forms.new ≡ with_free_places (take count.new.len forms.new) }
{
    let at = count.len;
    let form = acceptable(at, kind, a, b)?;
    forms[at] = form;
    count.len = at + 1;
    Ok(at)
}

// Frees the places of all forms but the first n.
fn free_places(forms: &mut [Form; MOST_FORMS], n: usize)
    requires { n ≤ 64 }
    ensures { forms.new ≡ with_free_places (take n forms.old) }
{
    forms[n..].fill(Form::Truth);
}

// The form of a kind, if a table of n forms takes it.
fn acceptable(n: usize, kind: u8, a: u8, b: u8) -> Result<Form, Refusal>
    ensures value { result ≡ accepted_form n kind a b }
    ensures fits { IfOk result (λ _. n < 64) }
    ensures earlier { IfOk result (Earlier n) }
{
    let form = Form::of_kind(kind, a, b).ok_or(Refusal::KindAbove11)?;
    if !form.atom_fits() {
        return Err(Refusal::AtomAbove31);
    }
    if !form.operands_below(n) {
        return Err(Refusal::OperandNotEarlier);
    }
    if n >= MOST_FORMS {
        return Err(Refusal::TableFull);
    }
    Ok(form)
}
