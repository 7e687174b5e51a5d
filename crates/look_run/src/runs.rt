//! What holds of looks between runs.

ghost use Rattle.std.specs.Prelude.{[], ◌∷◌, codes};
ghost use Rattle.world_traits.specs.Files.{Files};
ghost use Rattle.world_traits.specs.Moments.{Clock};
ghost use Rattle.store_core.specs.Mail.{mail};
ghost use Rattle.play_driver.specs.Joining.{AllFair, Grows};
ghost use Rattle.play_driver.specs.Played.{played};
ghost use Rattle.mail_top.specs.FairRuns.{FairRun};
ghost use Rattle.mail_top.specs.Runs.{CutOff};
ghost use Rattle.mail_top.specs.Showing.{OnlyReads};

/// To what is promised over many runs (`mail_top::runs_one_behind_another`) a look is a run of `queue`, which may be cut off at each
/// of its moments too; and to what is promised over many runs at a server that others change fairly, it is one up to each moment to
/// which they were fair.
pub fn looks_are_runs()
    ensures cut { (seen : Files) → (old at new : Clock) → OnlyReads old new → Grows old at → Grows at new →
        CutOff (codes "queue" ∷ []) [] seen old at new }
    ensures fair { (seen : Files) → (old at new : Clock) → OnlyReads old new → Grows old at → Grows at new → AllFair mail played old at →
        FairRun (codes "queue" ∷ []) [] seen old at new }
{}
