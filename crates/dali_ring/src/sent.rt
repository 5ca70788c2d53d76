ghost use Rattle.std.specs.Prelude.{◌≡◌, ℕ};

/// What waits in a ring: each item has a sender.
pub trait Sent {
    /// The sender, as contracts see it.
    ghost from: { Self → ℕ };

    /// Who sent the item.
    fn sender(&self) -> u8
        ensures { result ≡ from self.now };
}
