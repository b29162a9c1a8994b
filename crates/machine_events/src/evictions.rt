//! Evictions that are made beside a machine's own events.
ghost use Rattle.std.specs.Prelude.{◌≡◌, ◌+◌, ℕ};

/// Evictions, one after another, without end.
pub trait Evictions {
    /// The line and the mask of each of those that are still to come, the next one first.
    ghost coming: { Self → ℕ → ℕ × ℕ };

    /// The line and the mask of the next one.
    fn now(&self) -> (u32, u32)
        ensures { result ≡ coming self.now 0 };

    /// The next one is over, and the one after it comes.
    fn advance(&mut self)
        ensures { (n : ℕ) → coming self.new n ≡ coming self.old (n + 1) };
}
