//! A world that stands, who logs in there, and the texts that are kept beside it.

use crate::any_world::AnyWorld;
use crate::fault::LineFault;
use crate::silent_world::SilentWorld;
use body_cache::FaultyShelf;
use mail_base::Account;
use std::alloc::Global;
use world_mem::Plan;

/// A world that stands, who logs in there, and the texts that are kept beside it.
#[derive(Drop)]
pub struct Stand {
    pub world: SilentWorld,
    pub account: Account,
    pub shelf: FaultyShelf,
}

impl Stand {
    /// This world, between runs, and no text.
    pub fn new(alloc: Global, world: AnyWorld, account: Account) -> Stand {
        Stand {
            world: SilentWorld::new(world),
            account,
            shelf: FaultyShelf::new(alloc, Vec::new(alloc)),
        }
    }

    /// Goes on from the image of the last moment that the pick takes. The texts stay.
    ///
    /// # Errors
    /// `Unfit` where its moments aren't shown, and `Memory`.
    pub fn restarted(self, alloc: Global, pick: u64, plan: Plan) -> Result<Stand, LineFault> {
        let Stand {
            world,
            account,
            shelf,
        } = self;
        let world = world.into_world().restarted(alloc, pick, plan)?;
        Ok(Stand {
            world: SilentWorld::new(world),
            account,
            shelf,
        })
    }
}
