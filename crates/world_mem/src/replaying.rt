//! The files as they were at a moment.

ghost use Rattle.std.specs.Prelude.{◌≡◌, length, slice_get, OnOk, IfOk};
ghost use Rattle.world_traits.specs.Moments.{Moment, MayLeave};
ghost use Rattle.world_mem.specs.Both.{torn_at};
ghost use Rattle.world_mem.specs.Image.{image_of, bytes_of};
ghost use Rattle.world_mem.specs.Memory.{run_of};
ghost use Rattle.world_mem.specs.Numbered.{moments_of, added_by, files_of};
ghost use Rattle.world_mem.specs.Running.{Run, step};

use crate::course::Course;
use crate::torn_files::TornFiles;
use crate::{Did, Files};
use std::alloc::AllocError;

impl Did {
    // How many moments it added.
    fn moments(&self) -> u64
        ensures { result ≡ added_by self.now }
    {
        match self {
            Did::Heard { .. } => 2,
            Did::Wrote { .. }
            | Did::Synced { .. }
            | Did::Changed { .. }
            | Did::Greeted
            | Did::Began
            | Did::Waited { .. }
            | Did::Settled
            | Did::Ended => 1,
        }
    }
}

// Does to files what was done.
fn redo(files: &mut TornFiles, did: &Did) -> Result<(), AllocError>
    ensures { (s : Run) → files.old ≡ torn_at s.clock.now s.seen
        → OnOk result (files.new ≡ torn_at (step did.now s).clock.now (step did.now s).seen) }
{
    match did {
        Did::Wrote { side, at, bytes } => files.write(*side, *at as usize, bytes),
        Did::Synced { side } => {
            files.sync(*side);
            Ok(())
        }
        Did::Changed { .. }
        | Did::Greeted
        | Did::Heard { .. }
        | Did::Began
        | Did::Waited { .. }
        | Did::Settled
        | Did::Ended => Ok(()),
    }
}

impl Course {
    /// How many moments there are.
    pub fn moments(&self) -> u64
        ensures { result ≡ length (moments_of self.now) }
    {
        let mut count: u64 = 1;
        for did in &self.log {
            count += did.moments();
        }
        count
    }

    /// The files' image by a pick, as they are now.
    pub fn image(&self, pick: u64) -> Result<Files, AllocError>
        ensures value { IfOk result (λ files. bytes_of files
            ≡ image_of pick (torn_at (run_of self.now).clock.now (run_of self.now).seen)) }
        ensures lawful { IfOk result (λ files.
            MayLeave (run_of self.now).clock.now (bytes_of files)) }
    {
        self.files.image(pick)
    }

    /// The same, as they were at a moment.
    pub fn image_at(&self, moment: u64, pick: u64) -> Result<Files, AllocError>
        ensures value { IfOk result (λ files. bytes_of files
            ≡ image_of pick (files_of self.now moment)) }
        ensures lawful { (m : Moment) → slice_get (moments_of self.now) moment ≡ Some m
            → IfOk result (λ files. MayLeave m (bytes_of files)) }
    {
        let files = self.files_at(moment)?;
        files.image(pick)
    }

    // The files at a moment.
    fn files_at(&self, moment: u64) -> Result<TornFiles, AllocError>
        ensures { IfOk result (λ files. files ≡ files_of self.now moment) }
    {
        let mut files = TornFiles::new(self.alloc, self.given.copy()?);
        let mut left = moment;
        for did in &self.log {
            let added = did.moments();
            if left < added {
                return Ok(files);
            }
            redo(&mut files, did)?;
            left -= added;
        }
        Ok(files)
    }
}
