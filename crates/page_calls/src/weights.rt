// Weights as the bare numbers of a page's array, and back. Named for tree/specs/Sum's tables.
// Serves demands 1 to 3: a page's numbers make up a tree, and a tree's weights are laid in them.
ghost use Rattle.std.specs.Prelude.{◌≡◌, get_or};
ghost use Rattle.tree.specs.Class.{no_weight};
ghost use Rattle.tree.specs.Sum.{table};

use tree::Tree;
use units::Weight;

// Weights as bare numbers.
pub(crate) fn weight_numbers(weights: [Weight; Tree::CLASSES]) -> [u32; 64]
    ensures { result ≡ table (λ p. (get_or weights p no_weight).0) 64 }
{
    weights.map(|weight| weight.0)
}

// And the weights of these numbers.
pub(crate) fn weights_of(numbers: &[u32; 64]) -> [Weight; Tree::CLASSES]
    ensures { result ≡ table (λ p. record { 0 = get_or numbers.now p 0 }) 64 }
{
    numbers.map(|number| Weight(number))
}
