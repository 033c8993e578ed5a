// The order of a pile.
ghost use Rattle.std.specs.Prelude.{◌≡◌, Bool};
ghost use Rattle.pile.specs.Order.{Total};

// A kind of element with a total order. `before` is strict, and the law is part of the trait: any two compare, both ways
// only if they are equal, and the order carries over. It is not `Ord`, which has no law that two elements that compare
// equal are equal: without that law a bag could not be told by the list of its elements in order.
pub trait Ranked: Copy {
    ghost before: { Self → Self → Bool };

    fn is_before(&self, other: &Self) -> bool
        ensures { result ≡ before self.now other.now };

    ghost total: { Total before };
}
