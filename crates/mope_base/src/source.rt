//! What every source promises.
ghost use Rattle.std.specs.Prelude.{ℕ, ◌<◌, List, Option, length};
ghost use Rattle.std.specs.Io.{ReadsAtMost};
ghost use Rattle.std.specs.Io.KnownBytes.{ReadConsumes};
ghost use Rattle.mope_base.specs.Faults.{HasCause};

use crate::Failed;

/// A stream of bytes that is read in pieces.
pub trait Source {
    // The bytes that are left, where they are known.
    ghost left: { Self → Option (List ℕ) };

    // How many reads failed, as far as 64 bits count them.
    ghost faults: { Self → ℕ };

    /// Gives the next bytes, as many as it likes and `into` holds, and says how many: 0 only at
    /// the end of the stream. Where it fails it gives none.
    fn read(&mut self, into: &mut [u8]) -> Result<usize, Failed>
        requires { 0 < length into.old }
        ensures bound { ReadsAtMost result into.new }
        ensures bytes { ReadConsumes (left self.old) (left self.new) result into.new }
        ensures cause { HasCause (faults self.old) (faults self.new) result };
}
