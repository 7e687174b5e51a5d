//! What a command reads and what it prints: a source of bytes and a sink of bytes.

use thiserror::Error;

/// A read of a source failed. The count of the source's faults rose in that call.
#[derive(Clone, Copy, Debug, PartialEq, Eq, Error)]
#[error("the input failed")]
pub struct ReadFailed;

/// A write to a sink failed. The count of the sink's faults rose in that call.
#[derive(Clone, Copy, Debug, PartialEq, Eq, Error)]
#[error("the output failed")]
pub struct WriteFailed;

/// Bytes that are read from front to end.
///
/// The count of faults is one of a `u64` that stays at 2^64 - 1, its last value.
pub trait Source {
    ghost use Rattle.std.specs.Prelude.{◌≡◌, ◌≤◌, ◌<◌, ◌++◌, ℕ, List, []};
    ghost use Rattle.std.specs.Prelude.{length, take, OnErr, IfOk};
    ghost use Rattle.world_traits.specs.Calls.{Rose};

    /// Whether sources of this type tell what is still to be read.
    ghost tells: { Type 0 };

    /// What is still to be read.
    ghost rest: { Self → List ℕ };

    /// How often the source has failed, up to the last value of the count.
    ghost source_faults: { Self → ℕ };

    /// Takes bytes off the front of what is still to be read, into the buffer's front, and answers
    /// how many. It may take fewer than fit; none into a buffer that isn't empty is the end of
    /// input. After an error all that was still to be read is still to be read.
    fn read(&mut self, into: &mut [u8]) -> Result<usize, ReadFailed>
        ensures fits { IfOk result (λ n. n ≤ length into.old) }
        ensures bytes { tells → IfOk result (λ n.
            rest self.old ≡ take n into.new ++ rest self.new) }
        ensures end { tells → IfOk result (λ n. n ≡ 0 → 0 < length into.old → rest self.old ≡ []) }
        ensures kept { tells → OnErr result (rest self.new ≡ rest self.old) }
        ensures count { source_faults self.old ≤ source_faults self.new }
        ensures cause { OnErr result (Rose (source_faults self.old) (source_faults self.new)) };
}

/// A place to print bytes to.
///
/// The count of faults is one of a `u64` that stays at 2^64 - 1, its last value.
pub trait Sink {
    ghost use Rattle.std.specs.Prelude.{◌≡◌, ◌≤◌, ◌++◌, ℕ, List, take, OnOk, OnErr};
    ghost use Rattle.world_traits.specs.Calls.{Rose};

    /// Whether sinks of this type tell what was written.
    ghost tells: { Type 0 };

    /// All that was written so far.
    ghost written: { Self → List ℕ };

    /// How often the sink has failed, up to the last value of the count.
    ghost sink_faults: { Self → ℕ };

    /// Writes all the bytes behind what was written. After an error some front of them was written,
    /// or none.
    fn write(&mut self, bytes: &[u8]) -> Result<(), WriteFailed>
        ensures done { tells → OnOk result (written self.new ≡ written self.old ++ bytes.now) }
        ensures part { tells → OnErr result ((n : ℕ)
            × (written self.new ≡ written self.old ++ take n bytes.now)) }
        ensures count { sink_faults self.old ≤ sink_faults self.new }
        ensures cause { OnErr result (Rose (sink_faults self.old) (sink_faults self.new)) };
}
