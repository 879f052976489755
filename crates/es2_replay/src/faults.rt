/// Why a command stops the driver. The machine is as it was before the command.
#[derive(Clone, Copy, Debug, PartialEq, Eq)]
pub enum Fault {
    /// The command raises this GL error code (OpenGL ES 2.0 section 2.5).
    Gl(u32),
    /// A draw would fetch a byte outside a buffer.
    Outside,
    /// An allocation was refused; the command may be tried again.
    Memory,
}

/// The kind of what the driver makes at a command: all of it is a function of the state before (OpenGL ES 2.0 sections
/// 2.8, 3.7.11 and 4.2.3).
#[derive(Clone, Copy, Debug, PartialEq, Eq)]
pub enum Shot {
    /// A draw of arrays or elements.
    Draw,
    /// A clear of the bound framebuffer.
    Clear,
    /// A build of a texture's smaller levels.
    Mipmap,
}
