ghost use Rattle.std.specs.Prelude.{◌+◌, ◌<◌, ◌^◌, ◌++◌, length};
ghost use Rattle.gl_numbers.specs.Bytes.{le32};
ghost use Rattle.wire_io.specs.Faults.{HasCause};
ghost use Rattle.wire_io.specs.Sinks.{Sends};
ghost use Rattle.call_records.specs.Records.{Fits, encoding};

use crate::calls::Call;
use gl_numbers::two_words;
use wire_io::{Failed, Sink, write_all};

/// Writes the fields' bytes, and then the tail, which is not copied.
#[tactic(auto, using(wire_io::proofs::Known::sends_then, wire_io::proofs::Known::sends_stop))]
fn write_body<O: Sink>(fields: &[u8], tail: &[u8], out: &mut O) -> Result<(), Failed>
    ensures bytes { Sends (O.held out.old) (O.held out.new) result (fields.now ++ tail.now) }
    ensures cause { HasCause (O.faults out.old) (O.faults out.new) result }
{
    let Ok(()) = write_all(fields, out) else {
        return Err(Failed);
    };
    write_all(tail, out)
}

/// Writes a record of this number: its header, its fields' bytes and its tail.
#[tactic(auto, using(crate::proofs::Sending::two_then, crate::proofs::Sending::two_stop))]
fn write_record<O: Sink>(number: u32, fields: &[u8], tail: &[u8], out: &mut O) -> Result<(), Failed>
    requires { length fields.now + length tail.now < 2 ^ 32 }
    ensures bytes { Sends (O.held out.old) (O.held out.new) result
        (le32 number ++ (le32 (length fields.now + length tail.now) ++ (fields.now ++ tail.now))) }
    ensures cause { HasCause (O.faults out.old) (O.faults out.new) result }
{
    let len = fields.len() + tail.len();
    let Ok(()) = write_all(&two_words(number, len as u32), out) else {
        return Err(Failed);
    };
    write_body(fields, tail, out)
}

/// Writes a call's record, header and body (this project's own format). Failed comes only where the sink's
/// number of faults rose; then a prefix of the record was written. The tail's bytes are not copied.
#[tactic(auto, using(crate::proofs::Lengths::in_parts))]
pub fn write_call<O: Sink>(call: &Call<'_>, out: &mut O) -> Result<(), Failed>
    requires { Fits call.now }
    ensures bytes { Sends (O.held out.old) (O.held out.new) result (encoding call.now) }
    ensures cause { HasCause (O.faults out.old) (O.faults out.new) result }
{
    let fields = call.fields();
    write_record(
        call.operation().row().number(),
        fields.as_slice(),
        call.tail(),
        out,
    )
}
