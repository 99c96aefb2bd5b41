// What a search looks for.
ghost use Rattle.std.specs.Prelude.{◌≡◌, Bool};

/// A place in a list with rising items, told by a test: whether an item stands before it.
pub trait Probe<T> {
    ghost is_below: { Self → T → Bool };

    /// Whether the item stands before the place.
    fn is_below(&self, item: &T) -> bool
        ensures { result ≡ is_below self.now item.now };
}
