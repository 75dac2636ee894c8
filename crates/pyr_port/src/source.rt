// A source of bytes.
ghost use Rattle.std.specs.Prelude.{ℕ, List, Option};
ghost use Rattle.std.specs.Io.{ReadsAtMost};
ghost use Rattle.std.specs.Io.KnownBytes.{ReadConsumes};
ghost use Rattle.pyr_port.specs.Causes.{HasCause};

/// A call of a source or a sink failed, and moved no byte.
#[derive(Clone, Copy, Debug, PartialEq, Eq)]
pub struct Failed;

/// Where bytes come from.
pub trait Source {
    /// The bytes still to come, where the source tells them.
    ghost left: { Self → Option (List ℕ) };

    /// How often the source has failed, as far as its counter goes.
    ghost faults: { Self → ℕ };

    /// Moves bytes from the front of those that are left to the front of `into`, and answers how many.
    /// No byte into a piece that isn't empty is the end. It fails only where the count of faults rose in
    /// this call, or stands at its last value, and then no byte is moved.
    fn take(&mut self, into: &mut [u8]) -> Result<usize, Failed>
        ensures bound { ReadsAtMost result into.new }
        ensures bytes { ReadConsumes (left self.old) (left self.new) result into.new }
        ensures cause { HasCause (faults self.old) (faults self.new) result };
}
