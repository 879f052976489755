//! The placing of varyings and uniforms into rows of four cells (GLSL ES 1.00.17 appendix A section 7). `pack` returns the
//! place of each item by the rule of that section, and `NoRoom` exactly where the rule finds one of them no place.
#![tactic(auto)]

#[cfg(test)]
mod cases;
mod errors;
mod items;
mod order;
mod packing;
mod sheet;
#[cfg(test)]
mod tests;

pub use errors::Pack;
pub use items::PackItem;
pub use packing::pack;
