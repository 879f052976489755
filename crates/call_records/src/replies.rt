ghost use Rattle.std.specs.Prelude.{◌≡◌, ◌*◌, ◌≤◌, ◌++◌, length, take};
ghost use Rattle.std.specs.List.{flat_map};
ghost use Rattle.gl_numbers.specs.Bytes.{le32};
ghost use Rattle.wire_io.specs.Faults.{HasCause};
ghost use Rattle.wire_io.specs.Sinks.{Sends};
ghost use Rattle.call_records.specs.declared.replies.Value.TheVariants as Values;
ghost use Rattle.call_records.specs.Replies.{reply_encoding};

use gl_numbers::{Name, Words, three_words, two_words, word_bytes};
use wire_io::{Failed, Sink, write_all};

/// The tag of a reply without a value.
pub const TAG_NOTHING: u32 = 0;
/// The tag of a reply whose value is a number.
pub const TAG_NUMBER: u32 = 1;
/// The tag of a reply whose value is a list of words.
pub const TAG_LIST: u32 = 2;
/// The tag of a reply whose value is a text.
pub const TAG_TEXT: u32 = 3;
/// The tag of a reply whose value is an active attribute or uniform.
pub const TAG_ACTIVE: u32 = 4;

/// What a call returns (WebGL 1.0 section 5.14).
#[derive(Clone, Copy, Debug, PartialEq, Eq)]
pub enum Value {
    /// No value, as for every call that raises an error.
    Nothing,
    /// A handle, a parameter, or 0 or 1 for false and true.
    Number(u32),
    /// A parameter of several words.
    List(Words),
    /// An information log or a source.
    Text(Name),
    /// An active attribute or uniform (OpenGL ES 2.0 sections 2.10.4 and 6.1.8): its elements, its type's
    /// word, and its name.
    Active { size: u32, kind: u32, name: Name },
}

/// The reply to one call.
#[derive(Clone, Copy, Debug, PartialEq, Eq)]
pub struct Reply {
    /// The code of the error that the call raised, or 0.
    pub raised: u32,
    /// What it returned.
    pub value: Value,
}

/// Writes the words' bytes to the prefix of `into`, and returns how many they are.
fn fill_words(words: &[u32], into: &mut [u8; 64]) -> usize
    requires { length words.now ≤ 16 }
    ensures count { result ≡ 4 * length words.now }
    ensures bytes { take result into.new ≡ flat_map le32 words.now }
{
    let mut filled = 0;
    for word in words {
        into[filled..filled + 4].copy_from_slice(&word_bytes(*word));
        filled += 4;
    }
    filled
}

/// Writes three words, and then the bytes.
#[inline(never)]
#[tactic(auto, using(crate::proofs::Sending::three_then, crate::proofs::Sending::three_stop))]
fn write_after_words<O: Sink>(
    first: u32,
    second: u32,
    third: u32,
    bytes: &[u8],
    out: &mut O,
) -> Result<(), Failed>
    ensures bytes { Sends (O.held out.old) (O.held out.new) result (le32 first ++ (le32 second ++ (le32 third ++ bytes.now))) }
    ensures cause { HasCause (O.faults out.old) (O.faults out.new) result }
{
    let Ok(()) = write_all(&three_words(first, second, third), out) else {
        return Err(Failed);
    };
    write_all(bytes, out)
}

/// Writes an active attribute or uniform: three words, two words, and the name.
#[inline(never)]
#[tactic(auto, using(crate::proofs::Sending::two_then, crate::proofs::Sending::two_stop))]
fn write_active<O: Sink>(
    raised: u32,
    size: u32,
    kind: u32,
    name: &[u8],
    out: &mut O,
) -> Result<(), Failed>
    requires { length name.now ≤ 256 }
    ensures bytes { Sends (O.held out.old) (O.held out.new) result
        (le32 raised ++ (le32 TAG_ACTIVE ++ (le32 size ++ (le32 kind ++ (le32 (length name.now) ++ name.now))))) }
    ensures cause { HasCause (O.faults out.old) (O.faults out.new) result }
{
    let Ok(()) = write_all(&two_words(raised, TAG_ACTIVE), out) else {
        return Err(Failed);
    };
    write_after_words(size, kind, name.len() as u32, name, out)
}

/// Writes the reply to a call that returns nothing, or that raised an error.
#[inline(always)]
#[tactic(auto, using(crate::proofs::Sending::two_whole))]
pub fn write_nothing<O: Sink>(raised: u32, out: &mut O) -> Result<(), Failed>
    ensures bytes { Sends (O.held out.old) (O.held out.new) result (reply_encoding (record { raised = raised; value = Values.Nothing })) }
    ensures cause { HasCause (O.faults out.old) (O.faults out.new) result }
{
    write_all(&two_words(raised, TAG_NOTHING), out)
}

/// Writes the reply to a call that returns a number.
#[inline(always)]
pub fn write_number<O: Sink>(raised: u32, n: u32, out: &mut O) -> Result<(), Failed>
    ensures bytes { Sends (O.held out.old) (O.held out.new) result (reply_encoding (record { raised = raised; value = Values.Number n })) }
    ensures cause { HasCause (O.faults out.old) (O.faults out.new) result }
{
    write_all(&three_words(raised, TAG_NUMBER, n), out)
}

/// Writes the reply to a call that returns a list of at most 16 words.
#[inline(never)]
pub fn write_list<O: Sink>(raised: u32, words: &[u32], out: &mut O) -> Result<(), Failed>
    requires { length words.now ≤ 16 }
    ensures bytes { Sends (O.held out.old) (O.held out.new) result
        (reply_encoding (record { raised = raised; value = Values.List words.now })) }
    ensures cause { HasCause (O.faults out.old) (O.faults out.new) result }
{
    let mut bytes = [0u8; 64];
    let n = fill_words(words, &mut bytes);
    write_after_words(raised, TAG_LIST, words.len() as u32, &bytes[..n], out)
}

/// Writes a reply's bytes: the code raised, the value's tag, and the value (this project's own format). Failed
/// comes only where the sink's number of faults rose; then a prefix of the bytes was written.
pub fn write_reply<O: Sink>(reply: &Reply, out: &mut O) -> Result<(), Failed>
    ensures bytes { Sends (O.held out.old) (O.held out.new) result (reply_encoding reply.now) }
    ensures cause { HasCause (O.faults out.old) (O.faults out.new) result }
{
    let raised = reply.raised;
    match reply.value {
        Value::Nothing => write_nothing(raised, out),
        Value::Number(n) => write_number(raised, n, out),
        Value::List(list) => write_list(raised, list.as_slice(), out),
        Value::Text(name) => {
            let bytes = name.as_slice();
            write_after_words(raised, TAG_TEXT, bytes.len() as u32, bytes, out)
        }
        Value::Active { size, kind, name } => write_active(
            raised,
            size,
            kind,
            name.as_slice(),
            out,
        ),
    }
}
