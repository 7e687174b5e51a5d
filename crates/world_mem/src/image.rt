//! Images: what a stop may leave of files that are between two syncs, one for each number.

ghost use Rattle.std.specs.Prelude.{◌≡◌, ◌<◌, length, slice_index, cond, OnOk, IfOk};
ghost use Rattle.world_traits.specs.Files.{Files as FilesOf, MayHold};
ghost use Rattle.world_traits.specs.Moments.{Moment, MayLeave};
ghost use Rattle.world_mem.specs.Draws.{next};
ghost use Rattle.world_mem.specs.Unsynced.{is_unsynced};
ghost use Rattle.world_mem.specs.Both.{torn_at};
ghost use Rattle.world_mem.specs.Image.{chosen, byte_by, drawn_image, drawn_images, behind};
ghost use Rattle.world_mem.specs.Image.{image_of, bytes_of};

use crate::torn_file::TornFile;
use crate::torn_files::TornFiles;
use crate::{Draws, Files};
use mail_base::Bytes;
use std::alloc::{AllocError, Global};

impl TornFiles {
    /// The image of both files by a pick. Pick 0 keeps no unsynced byte, pick 1 all of them. By any
    /// other the files have their furthest length, and a draw below 3 for each unsynced byte, for the
    /// left file first, keeps the synced byte (0 past the synced end), takes the written one, or makes
    /// it 1; the draws begin at the pick.
    pub fn image(&self, pick: u64) -> Result<Files, AllocError>
        ensures value { IfOk result (λ files. bytes_of files ≡ image_of pick self.now) }
        ensures lawful { (m : Moment) (seen : FilesOf) → self.now ≡ torn_at m seen
            → IfOk result (λ files. MayLeave m (bytes_of files)) }
    {
        match pick {
            0 => copies(self.left.alloc(), self.left.synced(), self.right.synced()),
            1 => copies(self.left.alloc(), self.left.bytes(), self.right.bytes()),
            _ => self.drawn_image(Draws::new(pick)),
        }
    }

    // Both as the draws have it.
    fn drawn_image(&self, mut draws: Draws) -> Result<Files, AllocError>
        ensures value { IfOk result (λ files. bytes_of files ≡ drawn_images draws self.now) }
        ensures left { IfOk result (λ files. MayHold self.now.left.stored files.left) }
        ensures right { IfOk result (λ files. MayHold self.now.right.stored files.right) }
    {
        let left = self.left.drawn(&mut draws)?;
        let right = self.right.drawn(&mut draws)?;
        Ok(Files {
            left: Bytes::of(left),
            right: Bytes::of(right),
        })
    }
}

// Files of these bytes.
fn copies(alloc: Global, left: &[u8], right: &[u8]) -> Result<Files, AllocError>
    ensures { IfOk result (λ files. bytes_of files ≡ record { left = left.now; right = right.now }) }
{
    Ok(Files {
        left: Bytes::of(left.to_vec(alloc)?),
        right: Bytes::of(right.to_vec(alloc)?),
    })
}

impl TornFile {
    // As long as it can be, with a draw for each unsynced byte.
    fn drawn(&self, draws: &mut Draws) -> Result<Vec<u8>, AllocError>
        ensures value { IfOk result (λ image. image.items ≡ drawn_image draws.old self.now) }
        ensures draws { OnOk result (draws.new ≡ behind draws.old self.now) }
        ensures lawful { IfOk result (λ image. MayHold self.now.stored image.items) }
    {
        let end = self.bytes().len();
        let mut image = Vec::with_capacity(self.alloc(), end)?;
        for at in 0..end {
            image.push(self.byte_at(at, draws))?;
        }
        Ok(image)
    }

    // The byte at a place of the image. Only an unsynced one takes a draw.
    #[tactic(auto, unfolding(crate::specs::Image::byte_by))]
    fn byte_at(&self, at: usize, draws: &mut Draws) -> u8
        requires { at < length self.now.reads }
        ensures value { result ≡ byte_by (next draws.old) self.now at }
        ensures draws { draws.new
            ≡ cond (is_unsynced self.now.stored at) (next draws.old) draws.old }
    {
        if !self.is_unsynced(at) {
            return self.synced_at(at);
        }
        chosen(draws.below(3), self.synced_at(at), self.bytes()[at])
    }

    // The synced byte at a place, or 0 where there is none.
    fn synced_at(&self, at: usize) -> u8
        ensures { result ≡ slice_index self.now.stored.synced at }
    {
        self.synced().get(at).copied().unwrap_or(0)
    }
}

// What a draw makes of an unsynced byte.
fn chosen(draw: u32, kept: u8, written: u8) -> u8
    ensures { result ≡ chosen draw kept written }
{
    match draw {
        0 => kept,
        1 => written,
        _ => 1,
    }
}
