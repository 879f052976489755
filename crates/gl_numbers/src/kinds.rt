/// The page's name of an object: 1, 2, 3, .. in the order of creation, and 0 for null.
pub type Handle = u32;

/// The kinds of object that a page makes (WebGL 1.0 section 5.4 and those after it).
#[derive(Clone, Copy, Debug, PartialEq, Eq)]
pub enum Kind {
    Buffer,
    Texture,
    Renderbuffer,
    Framebuffer,
    Shader,
    Program,
}

/// The stage that a shader is for (OpenGL ES 2.0 section 2.10.1).
#[derive(Clone, Copy, Debug, PartialEq, Eq)]
pub enum Stage {
    Vertex,
    Fragment,
}
