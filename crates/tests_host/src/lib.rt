//! Tests of the outside: files and streams of the host, in memory, and those that never fail.
//!
//! `host` has calls over readers, writers and folders of the tests' own (`fake_streams`,
//! `fake_files`), some of which fail, and over real files; `memory` the objects in memory and the
//! quiet ones. Nothing here is used by another crate.
#![tactic(auto)]

#[cfg(test)]
mod fake_files;
#[cfg(test)]
mod fake_streams;
#[cfg(test)]
mod host;
#[cfg(test)]
mod memory;
