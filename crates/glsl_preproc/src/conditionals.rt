/// A part of a conditional (GLSL ES 1.00.17 section 3.4).
#[derive(Clone, Copy, Debug)]
pub enum Part {
    /// It is read.
    Taken,
    /// It is not read, as no part before it was.
    Waiting,
    /// It is not read, as a part before it was.
    Passed,
}

/// A conditional that is open.
#[derive(Clone, Copy, Debug)]
pub struct Conditional {
    /// The part that its lines belong to.
    pub part: Part,
    /// Whether its `#else` has come.
    pub closing: bool,
    /// The line of its `#if`, `#ifdef` or `#ifndef`.
    pub line: u32,
}
