ghost use Rattle.std.specs.Prelude.{◌≡◌};
ghost use Rattle.gl_model.specs.PageState.{PageState};
ghost use Rattle.gl_context.specs.AttribRows.{array_row, attrib_row, constant_row, offset_of, offset_row, parameter_of, parameter_row, pointer_row};
ghost use Rattle.gl_context.specs.Stands.{Keeps};
ghost use Rattle.gl_context.specs.Deeds.{ReturnsBy, value_in};

use crate::context::Context;
use crate::deed::Told;
use crate::values::truth;
use attrib_state::{Attrib, Pointer};
use call_records::AttribCall;
use gl_numbers::{AttribParameter, BufferTarget, GlError, VERTEX_ATTRIB_ARRAY_POINTER};

/// A parameter of an attribute; no buffer is 0.
#[inline(always)]
fn parameter_of(attribute: &Attrib, parameter: AttribParameter) -> Told
    ensures { value_in result ≡ parameter_of parameter attribute.now }
{
    match parameter {
        AttribParameter::Enabled => truth(attribute.enabled),
        AttribParameter::Size => Told::Number(attribute.size),
        AttribParameter::Stride => Told::Number(attribute.stride),
        AttribParameter::ElementType => Told::Number(attribute.kind.word()),
        AttribParameter::Current => Told::Four(attribute.constant),
        AttribParameter::Normalized => truth(attribute.normalized),
        AttribParameter::BufferBinding => Told::Number(attribute.buffer.unwrap_or(0)),
    }
}

/// The offset of an attribute's array in its buffer: its low word, and its high word.
#[inline(always)]
fn offset_of(attribute: &Attrib) -> Told
    ensures { value_in result ≡ offset_of attribute.now }
{
    let low = attribute.offset % 0x1_0000_0000;
    let high = attribute.offset / 0x1_0000_0000;
    Told::Two([low as u32, high as u32])
}

impl Context {
    /// The calls on vertex attributes.
    pub(crate) fn attrib(&mut self, call: &AttribCall) -> Result<Told, GlError>
        ensures acts { (w : PageState) → Keeps self.old w → ReturnsBy (attrib_row w call.now) w self.new result }
        ensures failed { self.new.failed ≡ self.old.failed }
    {
        match *call {
            AttribCall::AttribArray { index, on } => self.attrib_array(index, on),
            AttribCall::VertexAttribPointer {
                index,
                size,
                kind,
                normalized,
                stride,
                offset,
            } => {
                self.attrib_pointer(
                    index,
                    Pointer {
                        size,
                        kind,
                        normalized: normalized != 0,
                        stride,
                        offset,
                    },
                )
            }
            AttribCall::VertexAttrib { index, x, y, z, w } => {
                self.attrib_constant(index, [x, y, z, w])
            }
            AttribCall::GetVertexAttrib { index, name } => self.attrib_parameter(index, name),
            AttribCall::GetVertexAttribOffset { index, name } => self.attrib_offset(index, name),
        }
    }

    /// enableVertexAttribArray and disableVertexAttribArray (WebGL 1.0 section 5.14.10)
    fn attrib_array(&mut self, index: u32, on: bool) -> Result<Told, GlError>
        ensures acts { (w : PageState) → Keeps self.old w → ReturnsBy (array_row w index on) w self.new result }
        ensures failed { self.new.failed ≡ self.old.failed }
    {
        if let Err(error) = self.attributes.enable(index, on) {
            return Err(error);
        }
        Ok(Told::Nothing)
    }

    /// vertexAttribPointer (WebGL 1.0 section 5.14.10)
    fn attrib_pointer(&mut self, index: u32, pointer: Pointer) -> Result<Told, GlError>
        ensures acts { (w : PageState) → Keeps self.old w → ReturnsBy (pointer_row w index pointer) w self.new result }
        ensures failed { self.new.failed ≡ self.old.failed }
    {
        let bound = self.buffers.bound(BufferTarget::Array);
        if let Err(error) = self.attributes.pointer(bound, index, pointer) {
            return Err(error);
        }
        Ok(Told::Nothing)
    }

    /// vertexAttrib1f and its kin (WebGL 1.0 section 5.14.10)
    fn attrib_constant(&mut self, index: u32, words: [u32; 4]) -> Result<Told, GlError>
        ensures acts { (w : PageState) → Keeps self.old w → ReturnsBy (constant_row w index words) w self.new result }
        ensures failed { self.new.failed ≡ self.old.failed }
    {
        if let Err(error) = self.attributes.constant(index, words) {
            return Err(error);
        }
        Ok(Told::Nothing)
    }

    /// getVertexAttrib (WebGL 1.0 section 5.14.10)
    fn attrib_parameter(&self, index: u32, name: u32) -> Result<Told, GlError>
        ensures acts { (w : PageState) → Keeps self.now w → ReturnsBy (parameter_row w index name) w self.now result }
    {
        let Some(attribute) = self.attributes.at(index) else {
            return Err(GlError::Value);
        };
        let Some(parameter) = AttribParameter::from_u32(name) else {
            return Err(GlError::Enum);
        };
        Ok(parameter_of(attribute, parameter))
    }

    /// getVertexAttribOffset (WebGL 1.0 section 5.14.10)
    fn attrib_offset(&self, index: u32, name: u32) -> Result<Told, GlError>
        ensures acts { (w : PageState) → Keeps self.now w → ReturnsBy (offset_row w index name) w self.now result }
    {
        let Some(attribute) = self.attributes.at(index) else {
            return Err(GlError::Value);
        };
        if name != VERTEX_ATTRIB_ARRAY_POINTER {
            return Err(GlError::Enum);
        }
        Ok(offset_of(attribute))
    }
}
