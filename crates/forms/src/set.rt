// Sets of forms as numbers: form f is in the set when bit f is set. A form's number is a byte, and below 64 where a bit is written.
ghost use Rattle.std.specs.Prelude.{◌≡◌, ◌<◌, true};
ghost use Rattle.forms.specs.Sets.{member, set_insert, set_remove, is_subset};

/// Whether form f is in the set. It may be any byte: one above 63 is in no set.
#[tactic(auto, using(crate::proofs::SetsWithin::past_the_last))]
pub fn contains(set: u64, f: u8) -> bool
    ensures value { result ≡ member set f }
    ensures small { result ≡ true → f < 64 }
{
    f < 64 && (set >> f) % 2 == 1
}

/// The set with form f, which may be in it already.
#[tactic(auto, using(std::proofs::lemmas::Nat::one_shl), unfolding(crate::specs::Sets::set_insert))]
pub fn with(set: u64, f: u8) -> u64
    requires { f < 64 }
    ensures { result ≡ set_insert set f }
{
    set | (1 << f)
}

/// The set without form f, which need not be in it.
#[tactic(auto, using(std::proofs::lemmas::Nat::one_shl), unfolding(crate::specs::Sets::set_remove))]
pub fn without(set: u64, f: u8) -> u64
    requires { f < 64 }
    ensures { result ≡ set_remove set f }
{
    set ^ (set & (1 << f))
}

/// Whether each form of `part` is in `whole`.
#[tactic(auto, unfolding(crate::specs::Sets::is_subset))]
pub fn is_subset(part: u64, whole: u64) -> bool
    ensures { result ≡ is_subset part whole }
{
    part & whole == part
}
