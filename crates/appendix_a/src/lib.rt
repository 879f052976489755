//! The limits that GLSL ES 1.00.17 appendix A puts on shaders: loops are `for` loops whose number of turns is known (section
//! 4), and indices are made of constants and loop indices (section 5). `check_limits` returns the first rule that a shader
//! breaks in source order, which is `limits` of `specs/Limits.antt`. It takes no memory.
#![tactic(auto)]

mod ahead;
#[cfg(test)]
mod building;
#[cfg(test)]
mod building_statements;
mod calls;
#[cfg(test)]
mod cases;
mod declarations;
mod declared_names;
mod expressions;
mod findings;
mod headers;
mod limits;
mod loops;
mod names;
mod numbering;
mod parameters;
mod rule;
#[cfg(test)]
mod shaders;
mod site;
mod statement_names;
mod statements;
mod structures;
mod table;
#[cfg(test)]
mod tests;
mod types;

pub use limits::check_limits;
pub use rule::Rule;
