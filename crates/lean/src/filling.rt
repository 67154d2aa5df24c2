// An array filled from another, place by place.
ghost use Rattle.std.specs.Prelude.{◌≤◌, ◌≡◌, slice_index_or};
ghost use Rattle.lean_words.specs.Filled.{filled};

// The first n places of `to`, each what f gives of the same place of `from`: by g, where f gives g of each value.
#[inline(never)]
pub(crate) fn fill<A: Copy, B: Copy, const N: usize, F: Fn(A) -> B>(
    from: &[A; N],
    n: usize,
    to: &mut [B; N],
    f: F,
)
    requires room { n ≤ N }
    requires callable { F.IsAlwaysCallable f }
    ensures { (d : A) (g : A → B) → ((x : A) (y : B) → F.post f x y → y ≡ g x) → to.new ≡ filled n (λ i. g (slice_index_or from.now i d)) to.old }
{
    for i in 0..n {
        to[i] = f(from[i]);
    }
}
