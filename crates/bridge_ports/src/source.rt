//! Where bytes come from: the trait of an input.
ghost use Rattle.std.specs.Prelude.{◌≡◌, ℕ, ◌<◌, List, Option, is_some, length};
ghost use Rattle.std.specs.Io.{ReadsAtMost};
ghost use Rattle.std.specs.Io.KnownBytes.{ReadConsumes};
ghost use Rattle.bridge_ports.specs.Causes.{HasCause};

use crate::Failed;

/// Bytes that come in order, until their end.
pub trait Source {
    /// The bytes still to come, where the source tells them.
    ghost left: { Self → Option (List ℕ) };

    /// How many reads failed.
    ghost read_faults: { Self → ℕ };

    /// Reads at least one byte into the front of `into` and answers how many; 0 exactly at the end.
    /// [`Failed`] only where the count of faults rose.
    ///
    /// # Example
    ///
    /// ```rust
    /// let mut source = SureSource::new(Bytes::from_slice(alloc, b"ab")?);
    /// let mut into = [0u8; 3];
    /// assert_eq!(rt; source.read(&mut into), Ok(2));
    /// assert_eq!(rt; source.read(&mut into), Ok(0));
    /// ```
    fn read(&mut self, into: &mut [u8]) -> Result<u32, Failed>
        requires { 0 < length into.old }
        ensures bound { ReadsAtMost result into.new }
        ensures bytes { ReadConsumes (left self.old) (left self.new) result into.new }
        ensures told { is_some (left self.new) ≡ is_some (left self.old) }
        ensures cause { HasCause (read_faults self.old) (read_faults self.new) result };
}
