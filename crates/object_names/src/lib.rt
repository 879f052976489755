//! The handles that a page's objects have, their marks and their holds, and the names that the driver knows
//! them by (WebGL 1.0 sections 5.14.5 to 5.14.9, OpenGL ES 2.0 sections 2.10.1 and 2.10.3 and appendix C). The
//! contract in one sentence: handles are 1, 2, 3, .. over all kinds, an object is gone where it is marked and
//! nothing holds it, and each call does to the plain list of objects what its name says.
#![tactic(auto)]

mod entry;
mod names;

pub use entry::Find;
pub use names::{Create, Names};

#[cfg(test)]
mod tests;
