// The synchronous product: any two machines, stepping together.
ghost use Rattle.std.specs.Prelude.{◌≡◌};
ghost use Rattle.machine.specs.Product.{product, limited_pairs, pair_count, ProductIsPairwise};
ghost use Rattle.machine.specs.ProductSound.{IsSoundMachine-product};

use crate::interface::{MOST_STATES, Machine};
use forms::Refusal;

/// The number of pairs of states; refused with `ProductSize` (18) where there are over 1,024.
/// Ask it before a product is made.
#[tactic(auto, using(crate::specs::ProductSound::product_is_pairwise))]
pub fn pair_count<L: Machine, R: Machine>(left: &L, right: &R) -> Result<usize, Refusal>
    ensures answer { result ≡ pair_count (L.Machine.model left.now) (R.Machine.model right.now) }
    ensures pairwise { ProductIsPairwise }
{
    limited(left.count() * right.count())
}

// A number of pairs, if a machine has so many states.
fn limited(pairs: usize) -> Result<usize, Refusal>
    ensures { result ≡ limited_pairs pairs }
{
    if pairs <= MOST_STATES {
        Ok(pairs)
    } else {
        Err(Refusal::ProductSize)
    }
}

/// `left` and `right` together: both sides step at once, and an atom holds where it holds on either.
/// Where `right` has n states, state p × n + q stands for p on the left and q on the right.
/// With over 1,024 pairs of states it means `left` alone.
#[derive(Drop)]
pub struct Product<L, R> {
    pub left: L,
    pub right: R,
}

impl<L: Machine, R: Machine> Machine for Product<L, R> {
    ghost model = { λ x. product (L.Machine.model x.left) (R.Machine.model x.right) };

    ghost sound = { λ x.
        IsSoundMachine-product (L.Machine.model x.left) (R.Machine.model x.right)
        (L.Machine.sound x.left) (R.Machine.sound x.right) };

    fn count(&self) -> usize {
        pair_count(&self.left, &self.right).unwrap_or_else(|_| self.left.count())
    }

    fn atoms(&self, s: usize) -> u32 {
        let Ok(pairs) = pair_count(&self.left, &self.right) else {
            return self.left.atoms(s);
        };
        if s >= pairs {
            return 0;
        }
        let n = self.right.count();
        self.left.atoms(s / n) | self.right.atoms(s % n)
    }

    fn leads(&self, s: usize, t: usize) -> bool {
        let Ok(pairs) = pair_count(&self.left, &self.right) else {
            return self.left.leads(s, t);
        };
        if s >= pairs || t >= pairs {
            return false;
        }
        let n = self.right.count();
        self.left.leads(s / n, t / n) && self.right.leads(s % n, t % n)
    }
}
