//! The renderbuffers and framebuffers of a page (OpenGL ES 2.0 section 4.4, WebGL 1.0 sections 5.14.6 and 5.14.7): what is
//! stored in each renderbuffer, which images are attached at each point, and when a framebuffer is complete. `Targets` is
//! seen as two finite maps by handle, and `status` is the table of section 4.4.5.
#![tactic(auto)]

mod images;
mod targets;

pub use images::{Image, ImageInfo, status};
pub use targets::Targets;

#[cfg(test)]
mod tests;
