//! What a drill is asked for.

ghost use Rattle.std.specs.Prelude.{IsNone, IfSome, map, string_bytes};
ghost use Rattle.mail_drill.specs.Tasks.{WritesTask};
ghost use Rattle.mail_drill.specs.declared.task.Task.{Task as AnyTask};

use mail_base::number_of;

/// The most messages of a drill.
pub const MAX_SIZE: u32 = 2_000;

/// Where the draws begin, and how many messages INBOX has: from 1 to `MAX_SIZE`.
#[derive(Clone, Copy, Debug, PartialEq, Eq)]
pub struct Task {
    /// Where the draws begin.
    pub seed: u32,
    /// How many messages INBOX has.
    pub size: u32,
}

/// The drill that words ask for: a seed below 2^32 and a size from 1 to 2,000, both without leading zeros.
pub fn task_of(words: &[String]) -> Option<Task>
    ensures some { IfSome result (λ task. WritesTask (map string_bytes words.now) task) }
    ensures none { IsNone result → (task : AnyTask) → WritesTask (map string_bytes words.now) task → ⊥ }
{
    let [seed, size] = words else {
        return None;
    };
    let seed = number_of(seed)?;
    let size = number_of(size)?;
    if size == 0 || size > MAX_SIZE {
        return None;
    }
    Some(Task { seed, size })
}
