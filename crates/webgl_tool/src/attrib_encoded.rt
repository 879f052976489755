//! The records of calls about vertex attributes, for the tests.

ghost use Rattle.std.specs.Prelude.{◌≡◌, FitsSigned};
ghost use Rattle.std.specs.Int.{w32};

use crate::encoded::{long, word};
use call_records::{AttribCall, Call, write_call};
use wire_io::{Failed, MemSink};

/// A number of 32 bits with a sign.
fn int(n: i32) -> i32
    ensures same { result ≡ n }
    ensures int { FitsSigned w32 result }
{
    n
}

/// Writes the record of a call about a vertex attribute.
#[tactic(auto, using(call_records::proofs::Lengths::lengths))]
pub fn write_attrib_record(call: AttribCall, out: &mut MemSink) -> Result<(), Failed> {
    match call {
        AttribCall::AttribArray { index, on } => write_array_record(index, on, out),
        AttribCall::VertexAttribPointer {
            index,
            size,
            kind,
            normalized,
            stride,
            offset,
        } => {
            let (index, size, kind) = (word(index), int(size), word(kind));
            let (normalized, stride, offset) = (word(normalized), int(stride), long(offset));
            write_call(
                &Call::Attrib(AttribCall::VertexAttribPointer {
                    index,
                    size,
                    kind,
                    normalized,
                    stride,
                    offset,
                }),
                out,
            )
        }
        AttribCall::VertexAttrib { index, x, y, z, w } => {
            let (index, x, y, z, w) = (word(index), word(x), word(y), word(z), word(w));
            write_call(
                &Call::Attrib(AttribCall::VertexAttrib { index, x, y, z, w }),
                out,
            )
        }
        AttribCall::GetVertexAttrib { index, name } => {
            let (index, name) = (word(index), word(name));
            write_call(
                &Call::Attrib(AttribCall::GetVertexAttrib { index, name }),
                out,
            )
        }
        AttribCall::GetVertexAttribOffset { index, name } => {
            let (index, name) = (word(index), word(name));
            write_call(
                &Call::Attrib(AttribCall::GetVertexAttribOffset { index, name }),
                out,
            )
        }
    }
}

/// The same of a call that enables or disables an array.
#[tactic(auto, using(call_records::proofs::Lengths::lengths))]
fn write_array_record(index: u32, on: bool, out: &mut MemSink) -> Result<(), Failed> {
    let index = word(index);
    if on {
        write_call(
            &Call::Attrib(AttribCall::AttribArray { index, on: true }),
            out,
        )
    } else {
        write_call(
            &Call::Attrib(AttribCall::AttribArray { index, on: false }),
            out,
        )
    }
}
