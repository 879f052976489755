//! The textures of a page (OpenGL ES 2.0 section 3.7, WebGL 1.0 section 5.14.8): the target that each first took, its four
//! parameters and what each level of each face is, without texels. `Textures` is seen as a finite map by handle, and
//! `complete` is the rule of completeness over it; nothing is remembered that could be stale.
#![tactic(auto)]

mod held;
mod levels;
mod parameters;
mod textures;

pub use textures::Textures;

#[cfg(test)]
mod completeness_tests;
#[cfg(test)]
mod tests;
