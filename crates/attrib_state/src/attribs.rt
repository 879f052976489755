ghost use Rattle.std.specs.Prelude.{◌≡◌, ◌≤◌, ◌↔◌, IsNone, OnOk, OnErr, slice_get};
ghost use Rattle.std.specs.Option.{option_copied};
ghost use Rattle.gl_numbers.specs.Limits.{vertex_attribs_max};
ghost use Rattle.gl_numbers.specs.Refusals.{Judged};
ghost use Rattle.attrib_state.specs.Attributes.{first_attributes};
ghost use Rattle.attrib_state.specs.Rules.{bad_index, index_rules, pointer_rules};
ghost use Rattle.attrib_state.specs.Effects.{changed, with_constant, with_enabled, with_pointer, without_buffer};

use crate::attrib::Attrib;
use crate::pointer::{Pointer, element_count, is_aligned, offset_bytes, stride_bytes};
use gl_numbers::{AttribType, GlError, Handle, VERTEX_ATTRIBS_MAX, without_buffer};
use std::marker::Model;

/// The word of the float 1.0.
const ONE: u32 = 0x3F80_0000;

/// The vertex attributes of a page, seen as the list of them.
#[derive(Drop)]
pub struct Attribs {
    attributes: [Attrib; 16],
}

impl Model for Attribs {
    ghost use Rattle.attrib_state.specs.Attributes.{Attributes};
    ghost use Rattle.attrib_state.specs.Codes.{attributes_code};

    ghost Value = { Attributes };

    ghost coded = { attributes_code };

    ghost view = { λ a. a.attributes };
}

impl Attribs {
    /// The attributes at the start: each array is disabled and in no buffer, of four floats a vertex from offset 0 on, and each
    /// constant is 0, 0, 0, 1 (OpenGL ES 2.0 section 6.2). Takes no memory.
    pub fn new() -> Attribs
        ensures { result ≡ first_attributes }
    {
        let first = Attrib {
            enabled: false,
            buffer: None,
            size: 4,
            kind: AttribType::Float,
            normalized: false,
            stride: 0,
            offset: 0,
            constant: [0, 0, 0, ONE],
        };
        Attribs {
            attributes: [first; 16],
        }
    }

    /// The attribute of this index; None exactly from 16 on.
    pub fn at(&self, index: u32) -> Option<&Attrib>
        ensures value { option_copied result ≡ slice_get self.now index }
        ensures none { IsNone result ↔ vertex_attribs_max ≤ index }
    {
        self.attributes.get(index as usize)
    }

    /// Enables or disables the array of an attribute (enableVertexAttribArray, disableVertexAttribArray, OpenGL ES 2.0 section
    /// 2.8). Value from index 16 on, and then nothing changes.
    pub fn enable(&mut self, index: u32, on: bool) -> Result<(), GlError>
        ensures judged { Judged (index_rules index) result }
        ensures ok { OnOk result (self.new ≡ changed self.old index (with_enabled on)) }
        ensures err { OnErr result (self.new ≡ self.old) }
    {
        if is_past(index) {
            return Err(GlError::Value);
        }
        let attribute = &mut self.attributes[index as usize];
        attribute.enabled = on;
        Ok(())
    }

    /// Says where the array of an attribute lies in `bound`, the buffer that is bound to ARRAY_BUFFER (vertexAttribPointer,
    /// OpenGL ES 2.0 section 2.8). By the first that applies: Value from index 16 on; Value where the size isn't 1 to 4; Enum
    /// where the type is none of the five; Value where the stride isn't 0 to 255, or the offset is negative; Operation where
    /// the offset isn't 0 and no buffer is bound; Operation where the stride or the offset is no multiple of the type's size.
    /// Then nothing changes.
    pub fn pointer(
        &mut self,
        bound: Option<Handle>,
        index: u32,
        pointer: Pointer,
    ) -> Result<(), GlError>
        ensures judged { Judged (pointer_rules bound index pointer) result }
        ensures ok { OnOk result (self.new ≡ changed self.old index (with_pointer bound pointer)) }
        ensures err { OnErr result (self.new ≡ self.old) }
    {
        if is_past(index) {
            return Err(GlError::Value);
        }
        let Some(size) = element_count(pointer.size) else {
            return Err(GlError::Value);
        };
        let Some(kind) = AttribType::from_u32(pointer.kind) else {
            return Err(GlError::Enum);
        };
        let (Some(stride), Some(offset)) = (
            stride_bytes(pointer.stride),
            offset_bytes(pointer.offset),
        ) else {
            return Err(GlError::Value);
        };
        if offset != 0 && bound.is_none() {
            return Err(GlError::Operation);
        }
        if !is_aligned(kind, stride, offset) {
            return Err(GlError::Operation);
        }
        let attribute = self.attributes[index as usize];
        self.attributes[index as usize] = Attrib {
            buffer: bound,
            size,
            kind,
            normalized: pointer.normalized,
            stride,
            offset,
            ..attribute
        };
        Ok(())
    }

    /// Gives an attribute a constant, as the words of its four floats, kept as they are (vertexAttrib4f, OpenGL ES 2.0 section
    /// 2.7). Value from index 16 on, and then nothing changes.
    pub fn constant(&mut self, index: u32, words: [u32; 4]) -> Result<(), GlError>
        ensures judged { Judged (index_rules index) result }
        ensures ok { OnOk result (self.new ≡ changed self.old index (with_constant words)) }
        ensures err { OnErr result (self.new ≡ self.old) }
    {
        if is_past(index) {
            return Err(GlError::Value);
        }
        let attribute = &mut self.attributes[index as usize];
        attribute.constant = words;
        Ok(())
    }

    /// Forgets the buffer `h`: the array of no attribute lies in it any more, and all else of each stays (deleteBuffer, OpenGL
    /// ES 2.0 section 2.9).
    pub fn buffer_gone(&mut self, h: Handle)
        ensures { self.new ≡ without_buffer self.old h }
    {
        release(&mut self.attributes, h);
    }
}

/// Whether there is no attribute of this index.
fn is_past(index: u32) -> bool
    ensures { result ≡ (bad_index index).applies }
{
    index >= VERTEX_ATTRIBS_MAX
}

/// Takes the buffer `h` from each attribute that has it.
fn release(attributes: &mut [Attrib], h: Handle)
    ensures { attributes.new ≡ without_buffer attributes.old h }
{
    for attribute in attributes.iter_mut() {
        attribute.buffer = without_buffer(h, attribute.buffer);
    }
}
