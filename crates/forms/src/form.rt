// A form: a CTL formula in negation normal form, whose operands are numbers of earlier forms of a table.
ghost use Rattle.std.specs.Prelude.{◌≡◌, true};
ghost use Rattle.forms.specs.Forms.{form_of, atom_fits, operands_below, Earlier};

/// On some path or successor (E), or on all of them (A).
#[derive(Clone, Copy, PartialEq, Eq, Debug)]
pub enum Quantifier {
    Exists,
    Every,
}

/// A CTL formula in negation normal form; an atom is named by its number, an operand by that of an earlier form.
/// `Next(Exists, a)` is EX a, `Until(Every, a, b)` is A(a U b), `Release(Exists, a, b)` is E(a R b).
/// A form by itself may have any numbers; a table takes only atoms 0 to 31 and earlier operands.
/// `Truth` is also what a read past a table's end gives.
#[derive(Clone, Copy, PartialEq, Eq, Debug)]
pub enum Form {
    Truth,
    Falsity,
    Atom(u8),
    Absent(u8),
    And(u8, u8),
    Or(u8, u8),
    Next(Quantifier, u8),
    Until(Quantifier, u8, u8),
    Release(Quantifier, u8, u8),
}

impl Form {
    // No `TryFrom`: the operands come with the kind, and a triple of bytes would say no more.
    /// The form of a kind, by the kind's number 0 to 11, or none above that.
    /// Operands that the kind does not use are ignored, and those that it uses are not checked.
    pub fn of_kind(kind: u8, a: u8, b: u8) -> Option<Form>
        ensures { result ≡ form_of kind a b }
    {
        match kind {
            0 => Some(Form::Truth),
            1 => Some(Form::Falsity),
            2 => Some(Form::Atom(a)),
            3 => Some(Form::Absent(a)),
            4 => Some(Form::And(a, b)),
            5 => Some(Form::Or(a, b)),
            6 => Some(Form::Next(Quantifier::Exists, a)),
            7 => Some(Form::Next(Quantifier::Every, a)),
            8 => Some(Form::Until(Quantifier::Exists, a, b)),
            9 => Some(Form::Until(Quantifier::Every, a, b)),
            10 => Some(Form::Release(Quantifier::Exists, a, b)),
            11 => Some(Form::Release(Quantifier::Every, a, b)),
            _ => None,
        }
    }

    // Whether the atom that it names, if it names one, is one of the 32.
    pub(crate) fn atom_fits(self) -> bool
        ensures { result ≡ atom_fits self }
    {
        match self {
            Form::Atom(p) | Form::Absent(p) => p <= 31,
            _ => true,
        }
    }

    // Whether its operands are numbers below n.
    pub(crate) fn operands_below(self, n: usize) -> bool
        ensures value { result ≡ operands_below n self }
        ensures earlier { result ≡ true → Earlier n self }
    {
        match self {
            Form::And(i, j) | Form::Or(i, j) | Form::Until(_, i, j) | Form::Release(_, i, j) => {
                usize::from(i) < n && usize::from(j) < n
            }
            Form::Next(_, i) => usize::from(i) < n,
            Form::Truth | Form::Falsity | Form::Atom(_) | Form::Absent(_) => true,
        }
    }
}
