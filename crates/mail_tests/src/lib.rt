//! Tests of what a line of data can't say: copies, limits that need a large value, callers that
//! know no more than a trait, and real files and streams.
#![tactic(auto)]

#[cfg(test)]
mod any_world;
#[cfg(test)]
mod books;
#[cfg(test)]
mod carried;
#[cfg(test)]
mod large_texts;
#[cfg(test)]
mod real_files;
#[cfg(test)]
mod real_peers;
#[cfg(test)]
mod real_run;
#[cfg(test)]
mod real_shelf;
#[cfg(test)]
mod response_copies;
#[cfg(test)]
mod server_copies;
#[cfg(test)]
mod silent;
#[cfg(test)]
mod small_sets;
#[cfg(test)]
mod whole_session;
#[cfg(test)]
mod worlds;
