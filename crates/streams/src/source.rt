ghost use Rattle.std.specs.Prelude.{ℕ, List};
ghost use Rattle.streams.specs.Sources.{Handed};

/// Bytes that are still to come.
pub trait Source {
    /// The bytes still to come.
    ghost ahead: { Self → List ℕ };

    /// Hands out the next bytes at the front of `buf`, and says how many.
    fn read(&mut self, buf: &mut [u8]) -> usize
        ensures { Handed (ahead self.old) (ahead self.new) buf.old buf.new result };
}
