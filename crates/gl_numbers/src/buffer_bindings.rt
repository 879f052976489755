ghost use Rattle.std.specs.Prelude.{◌≡◌, Some};
ghost use Rattle.gl_numbers.specs.BufferBindings.{no_bindings, binding, bind, unbind, without};

use crate::buffer_words::BufferTarget;
use std::marker::Model;

/// What is bound to the two buffer targets (OpenGL ES 2.0 section 2.9): each buffer is a number, a page's handle or a
/// driver's name.
#[derive(Clone, Copy, Debug)]
pub struct BufferBindings {
    array: Option<u32>,
    element_array: Option<u32>,
}

impl Model for BufferBindings {
    ghost use Rattle.gl_numbers.specs.BufferBindings.{Bindings};

    ghost Value = { Bindings };

    ghost view = { λ b. record { array = b.array; element_array = b.element_array } };

    ghost inverse = { λ d. record { array = d.array; element_array = d.element_array } };
}

impl BufferBindings {
    /// Nothing is bound.
    pub fn new() -> Self
        ensures { result ≡ no_bindings }
    {
        BufferBindings {
            array: None,
            element_array: None,
        }
    }

    /// What is bound to a target.
    pub fn get(&self, target: BufferTarget) -> Option<u32>
        ensures { result ≡ binding self.now target }
    {
        match target {
            BufferTarget::Array => self.array,
            BufferTarget::ElementArray => self.element_array,
        }
    }

    /// Binds a buffer, or none, to a target.
    pub fn set(&mut self, target: BufferTarget, buffer: Option<u32>)
        ensures { self.new ≡ bind (Some target) buffer self.old }
    {
        match target {
            BufferTarget::Array => self.array = buffer,
            BufferTarget::ElementArray => self.element_array = buffer,
        }
    }

    /// Binds the buffer to neither target.
    pub fn unbind(&mut self, buffer: u32)
        ensures { self.new ≡ unbind buffer self.old }
    {
        self.array = without_buffer(buffer, self.array);
        self.element_array = without_buffer(buffer, self.element_array);
    }
}

/// What is bound, unless it is this buffer: then none (OpenGL ES 2.0 section 2.9).
pub fn without_buffer(buffer: u32, bound: Option<u32>) -> Option<u32>
    ensures { result ≡ without buffer bound }
{
    match bound {
        Some(other) if other != buffer => Some(other),
        _ => None,
    }
}
