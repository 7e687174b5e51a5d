//! What a contract knows of an object of the outside: its moments, its faults and its link.

ghost use Rattle.std.specs.Prelude.{ℕ};
ghost use Rattle.world_traits.specs.LinkState.{LinkState};
ghost use Rattle.world_traits.specs.Moments.{Clock};

/// An object that may tell its moments. It has no calls.
///
/// What a disk and a link must say of each other stands here, so that each call of the one can say
/// that it leaves the other as it was. A clause on the files holds where the object tells its
/// files, one on the server where it tells its server. At the real edge neither is told, and the
/// clauses on faults alone hold.
///
/// A count of faults is one of a `u64` that stays at 2^64 - 1, its last value. A clause that a call
/// fails only where the count rose, or that no count rises, speaks of counts below that value.
pub trait Clocked {
    /// Whether objects of this type tell their files.
    ghost tells_files: { Type 0 };

    /// Whether objects of this type tell their server.
    ghost tells_server: { Type 0 };

    /// Who tells the server tells the files too.
    ghost server_with_files: { tells_server → tells_files };

    /// The moment now and all those before it.
    ghost clock: { Self → Clock };

    /// How often the disk has failed, up to the last value of the count.
    ghost disk_faults: { Self → ℕ };

    /// How often the link has failed, up to the last value of the count, and its connection.
    ghost link: { Self → LinkState };
}
