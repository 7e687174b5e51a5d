//! The outside as the client sees it: a disk of two files, a link to a server, input, output, and
//! the moments of a world.
#![tactic(auto)]

mod call;
mod clocked;
mod disk;
mod fail_plan;
mod faulty_disk;
mod faulty_streams;
mod link;
mod mem_file;
mod mem_files;
mod mem_streams;
mod memory;
mod no_link;
mod putting;
mod streams;
mod world;

pub use clocked::Clocked;
pub use disk::{Disk, DiskFailed, Side};
pub use faulty_disk::FaultyDisk;
pub use faulty_streams::{FaultySink, FaultySource};
pub use link::{Link, LinkFailed};
pub use mem_streams::{MemSink, MemSource};
pub use memory::MemDisk;
pub use no_link::NoLink;
pub use putting::put_in;
pub use streams::{ReadFailed, Sink, Source, WriteFailed};
pub use world::World;
