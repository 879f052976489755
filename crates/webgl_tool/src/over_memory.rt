//! Runs of the tool over memory, for the tests.

use crate::encoded::{replies, session, stream};
use crate::tool::run_tool;
use call_records::{Call, Reply};
use command_stream::Command;
use std::alloc::{AllocError, Global};
use std::test::Fail;
use wire_io::{MemSink, MemSource, Status};

/// How a run over memory ended, and what it left.
#[derive(Drop)]
pub struct Ran {
    pub status: Status,
    pub out: MemSink,
    pub stream: MemSink,
}

impl Ran {
    /// Whether the status is this one, and `out` and the stream hold these bytes.
    pub fn gave(&self, status: Status, out: &[u8], stream: &[u8]) -> bool {
        self.status == status && self.out.bytes() == out && self.stream.bytes() == stream
    }
}

/// The words of a command line.
pub fn words_of(alloc: Global, texts: &[&str]) -> Result<Vec<String>, AllocError> {
    let mut words = Vec::new(alloc);
    for text in texts {
        words.push(String::from_str(alloc, text)?)?;
    }
    Ok(words)
}

/// Runs the tool on this input, with room for so many bytes in each sink. Of the calls on the input, on `out` and on
/// the stream, these fail, counted from 0.
fn run_over(
    alloc: Global,
    texts: &[&str],
    bytes: &[u8],
    room: usize,
    failing: [&[u64]; 3],
) -> Result<Ran, AllocError> {
    let [reads, replies, commands] = failing;
    let words = words_of(alloc, texts)?;
    let mut input = MemSource::new(bytes.to_vec(alloc)?, reads.to_vec(alloc)?);
    let mut out = MemSink::new(vec![in alloc; 0; room]?, replies.to_vec(alloc)?);
    let mut stream = MemSink::new(vec![in alloc; 0; room]?, commands.to_vec(alloc)?);
    let status = run_tool(alloc, words.as_slice(), &mut input, &mut out, &mut stream);
    Ok(Ran {
        status,
        out,
        stream,
    })
}

/// Runs a session, with room for so many bytes in each sink; these calls on the three ends fail.
pub fn run(
    alloc: Global,
    bytes: &[u8],
    room: usize,
    failing: [&[u64]; 3],
) -> Result<Ran, AllocError> {
    run_over(alloc, &["run", "out.bin"], bytes, room, failing)
}

/// Replays a stream; these reads of the input and these calls on `out` fail, and every call on the second sink.
pub fn replay(
    alloc: Global,
    bytes: &[u8],
    reads: &[u64],
    calls: &[u64],
) -> Result<Ran, AllocError> {
    run_over(alloc, &["replay"], bytes, 64, [reads, calls, &[0]])
}

/// Whether these calls are answered by these replies and send these commands.
pub fn is_served(
    alloc: Global,
    calls: &[Call<'_>],
    answers: &[Reply],
    commands: &[Command<'_>],
) -> Result<bool, Fail> {
    let ran = run(
        alloc,
        session(alloc, calls)?.as_slice(),
        1024,
        [&[], &[], &[]],
    )?;
    let out = replies(alloc, answers)?;
    let sent = stream(alloc, commands)?;
    Ok(ran.gave(Status::Ok, out.as_slice(), sent.as_slice()))
}

/// A call, as its operation and the words of its body, and its reply.
pub type Answered<'a> = (u32, &'a [u32], Reply);

/// Whether these calls are answered so, one after another, and send nothing.
pub fn are_answered(alloc: Global, calls: &[Answered<'_>]) -> Result<bool, Fail> {
    let mut bytes = [0x57, 0x47, 0x4C, 0x52, 1, 0, 0, 0].to_vec(alloc)?;
    let mut answers = Vec::new(alloc);
    for (operation, words, reply) in calls {
        let size = u32::try_from(words.len()).unwrap_or(0).wrapping_mul(4);
        bytes.extend_from_slice(&operation.to_le_bytes())?;
        bytes.extend_from_slice(&size.to_le_bytes())?;
        for word in words.iter() {
            bytes.extend_from_slice(&word.to_le_bytes())?;
        }
        answers.push(*reply)?;
    }
    bytes.extend_from_slice(&[0; 8])?;
    let ran = run(alloc, bytes.as_slice(), 2048, [&[], &[], &[]])?;
    let out = replies(alloc, answers.as_slice())?;
    let sent = stream(alloc, &[])?;
    Ok(ran.gave(Status::Ok, out.as_slice(), sent.as_slice()))
}
