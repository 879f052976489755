//! The definitions of the two machines and of what passes between them: the page's state (WebGL 1.0 section
//! 5, OpenGL ES 2.0 chapters 2 and 6), the driver's machine and the replay of a stream of commands, and the
//! Shot, which is all that one accepted draw, clear or mipmap build sees. It has no code; contracts of the crates
//! above cite its definitions.
#![tactic(auto)]
