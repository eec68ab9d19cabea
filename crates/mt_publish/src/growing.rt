//! What can be published.
ghost use Rattle.std.specs.Prelude.{◌≡◌, List, [], ◌∷◌, ◌++◌, length};

/// A value that stands for a list of entries over a base. `fits` says of a base and a list which
/// entries can be appended.
pub trait Growing<E>: Drop {
    /// What never changes of a value.
    type Base;

    ghost base: { Self → Self.Base };

    ghost listed: { Self → List E };

    ghost fits: { Self.Base → List E → E → Type 0 };

    /// Appends an entry that fits, and leaves the list as it is for another. It takes no memory.
    fn grow(&mut self, entry: &E)
        ensures base { base self.new ≡ base self.old }
        ensures fitting { fits (base self.old) (listed self.old) entry.now
            → listed self.new ≡ listed self.old ++ entry.now ∷ [] }
        ensures other { ¬ fits (base self.old) (listed self.old) entry.now
            → listed self.new ≡ listed self.old };

    /// The number of entries.
    fn entries(&self) -> u32
        ensures { result ≡ length (listed self.now) };
}
