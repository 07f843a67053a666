//! Where bytes go: the trait of an output.
ghost use Rattle.std.specs.Prelude.{◌≡◌, ℕ, List, [], Option, is_some, IfOk};
ghost use Rattle.std.specs.Io.{WritesAtMost};
ghost use Rattle.std.specs.Io.KnownBytes.{WriteAppends};
ghost use Rattle.bridge_ports.specs.Causes.{HasCause};

use crate::Failed;

/// A place for bytes, in order.
pub trait Sink {
    /// The bytes that were written, where the sink tells them.
    ghost held: { Self → Option (List ℕ) };

    /// How many writes failed.
    ghost write_faults: { Self → ℕ };

    /// Takes bytes from the front of `piece` and answers how many; 0 only for an empty piece.
    /// [`Failed`] only where the count of faults rose.
    fn write(&mut self, piece: &[u8]) -> Result<u32, Failed>
        ensures bound { WritesAtMost result piece.now }
        ensures bytes { WriteAppends (held self.old) (held self.new) result piece.now }
        ensures progress { IfOk result (λ count. count ≡ 0 → piece.now ≡ []) }
        ensures told { is_some (held self.new) ≡ is_some (held self.old) }
        ensures cause { HasCause (write_faults self.old) (write_faults self.new) result };
}
