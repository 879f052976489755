//! Texels: how a page's bytes are taken apart into channels, multiplied by their alpha and packed again, row by row
//! (OpenGL ES 2.0 section 3.6.2, WebGL 1.0 section 5.14.8). The contract of `plain_row` is that it writes each texel of a
//! row converted, in order, and nothing else; that of `upload_row` is that it writes the texels of one row of an image. The
//! rules of completeness of textures and framebuffers (OpenGL ES 2.0 sections 3.7.10 and 4.4.5) stand in `specs/` for the
//! crates that keep these.
#![tactic(auto)]

mod layouts;
mod rows;
mod texels;
mod uploads;

pub use layouts::{LEVEL_COUNT, Layout, LevelInfo, Texel};
pub use rows::{plain_row, row_place};
pub use texels::{pack_texel, premultiply, read_texel};
pub use uploads::{Upload, upload_row};

#[cfg(test)]
mod tests;
#[cfg(test)]
mod upload_tests;
