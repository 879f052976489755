/// What a directive is (GLSL ES 1.00.17 section 3.4).
#[derive(Clone, Copy, Debug)]
pub enum Kind {
    /// A `#` alone.
    Empty,
    /// `#define`
    Define,
    /// `#undef`
    Undef,
    /// `#if`
    If,
    /// `#ifdef`
    Ifdef,
    /// `#ifndef`
    Ifndef,
    /// `#elif`
    Elif,
    /// `#else`
    Else,
    /// `#endif`
    Endif,
    /// `#error`
    Error,
    /// `#pragma`
    Pragma,
    /// `#extension`
    Extension,
    /// `#version`
    Version,
    /// `#line`
    Line,
    /// Any other.
    Unknown,
}
