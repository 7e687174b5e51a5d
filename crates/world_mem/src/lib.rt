//! A world in memory: a disk of two files, a link and a server, with one list of moments and the images that a
//! stop may leave at each of them.
#![tactic(auto)]

mod arriving;
mod course;
mod did;
mod draws;
mod files;
mod image;
mod mem_world;
mod plan;
mod replaying;
mod schedule;
mod script;
mod script_link;
mod script_rest;
mod script_world;
mod torn_file;
mod torn_files;

pub use did::{Did, Held};
pub use draws::Draws;
pub use files::Files;
pub use mem_world::{ImageFault, MemWorld};
pub use plan::{Loss, Plan};
pub use script::Script;
pub use script_world::ScriptWorld;
