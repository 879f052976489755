ghost use Rattle.std.specs.Prelude.{◌≡◌, ◌+◌, ◌^◌, ◌<◌, ◌≤◌, ◌++◌, length, None, IfOk, OnOk, IfErr};
ghost use Rattle.std.specs.Io.KnownBytes.{prepend_known};
ghost use Rattle.gl_numbers.specs.Bytes.{le32};
ghost use Rattle.wire_io.specs.Faults.{HasCause};
ghost use Rattle.wire_io.specs.Sources.{Fills, WhereTold};
ghost use Rattle.call_records.specs.Operations.{operation_numbered};
ghost use Rattle.call_records.specs.Records.{session_start};
ghost use Rattle.call_records.specs.Reading.{StartAnswers, Answers, AnswersUnread, AnswersNext, Refuses, ReadCause, step_encoding, unread_encoding, HasFits, IsAllowed, IsStartEnd, IsRecordEnd, HasRoom};
ghost use Rattle.call_records.specs.Parts.{EndsShort, Judges, TakesHead, TakesNext, EndsClosed};

use crate::calls::Call;
use crate::operations::{BODY_MAX, CLOSE, HEADER_BYTES, Operation};
use crate::record_buf::RecordBuf;
use gl_numbers::u32_at;
use wire_io::{Failed, Source, read_full};

/// The first word of a session: the text `WGLR`.
pub const SESSION_MAGIC: u32 = 0x524C_4757;
/// The second word of a session: its version.
pub const SESSION_VERSION: u32 = 1;
/// The most bytes of a session up to its last header's end.
pub const INPUT_MAX: u64 = 0x4000_0000_0000_0000;

/// What the next record of a session is.
#[derive(Clone, Copy, Debug, PartialEq, Eq)]
pub enum Step<'a> {
    /// A call.
    Call(Call<'a>),
    /// The closing record, with nothing after it.
    End,
}

/// What the next record of a session is, before a call's fields are read.
#[derive(Clone, Copy)]
pub enum Unread<'a> {
    /// A call: its operation, and its body of a length that the operation allows.
    Call {
        operation: Operation,
        body: &'a [u8],
    },
    /// The closing record, with nothing after it.
    End,
}

/// What the next record of a session is, before a call's body is read.
#[derive(Clone, Copy)]
pub enum Next {
    /// A call: its operation, and its body's length, which the operation allows.
    Call { operation: Operation, len: usize },
    /// The closing record, with nothing after it.
    End,
}

/// Why no record was read. Each offset counts bytes from the session's first.
#[derive(Clone, Copy, Debug, PartialEq, Eq)]
pub enum ReadEnd {
    /// The input ended inside a header or a body, or before the closing record; at its length.
    Truncated(u64),
    /// The session doesn't begin with `WGLR`; at 0.
    Magic(u64),
    /// The session's version isn't 1; at 4.
    Version(u64),
    /// The operation isn't in the record table; at the record's first byte.
    UnknownOp(u64),
    /// The body is longer than 16,777,280 bytes; at the record's first byte.
    BodyLong(u64),
    /// The body's length isn't one that the operation allows; at the record's first byte.
    BodyShape(u64),
    /// A byte stands after the closing record; at that byte.
    AfterEnd(u64),
    /// The record's header would end past byte 2^62; at the record's first byte.
    InputLong(u64),
    /// The source failed.
    ReadFault,
}

/// What a header that nothing refuses begins.
#[derive(Clone, Copy)]
enum Head {
    /// The closing record.
    Closing,
    /// A call's record, with a body of this many bytes.
    Record(Operation, usize),
}

/// Fills the piece, before which `at` bytes of the session were taken.
#[inline]
fn fill<S: Source>(input: &mut S, at: u64, piece: &mut [u8]) -> Result<(), ReadEnd>
    requires { at + length piece.old < 2 ^ 64 }
    ensures filled { OnOk result (S.left input.old ≡ prepend_known piece.new (S.left input.new)) }
    ensures short { IfErr result (EndsShort at (length piece.old) (S.left input.old) (S.left input.new)) }
    ensures cause { ReadCause (S.faults input.old) (S.faults input.new) result }
    ensures never { IfErr result IsRecordEnd }
{
    if piece.is_empty() || input.give(piece) {
        return Ok(());
    }
    let Ok(n) = read_by_parts(input, piece) else {
        return Err(ReadEnd::ReadFault);
    };
    if n < piece.len() {
        return Err(ReadEnd::Truncated(at + n as u64));
    }
    Ok(())
}

/// Reads until the piece is full or the end comes, by as many reads as it takes.
#[cold]
#[inline(never)]
fn read_by_parts<S: Source>(input: &mut S, piece: &mut [u8]) -> Result<usize, Failed>
    ensures bytes { Fills (S.left input.old) (S.left input.new) result piece.new }
    ensures cause { HasCause (S.faults input.old) (S.faults input.new) result }
{
    read_full(input, piece)
}

/// Reads two words, before which `at` bytes of the session were taken.
#[inline]
fn read_words<S: Source>(input: &mut S, at: u64) -> Result<(u32, u32), ReadEnd>
    requires { at ≤ 2 ^ 63 }
    ensures taken { IfOk result (λ words. S.left input.old ≡ prepend_known (le32 words.0 ++ le32 words.1) (S.left input.new)) }
    ensures range { IfOk result (λ words. (words.0 < 2 ^ 32) × (words.1 < 2 ^ 32)) }
    ensures short { IfErr result (EndsShort at HEADER_BYTES (S.left input.old) (S.left input.new)) }
    ensures cause { ReadCause (S.faults input.old) (S.faults input.new) result }
{
    let mut words = [0u8; 8];
    match fill(input, at, &mut words) {
        Ok(()) => Ok((u32_at(&words), u32_at(&words[4..]))),
        Err(end) => Err(end),
    }
}

/// Judges a header: its operation, and then its body's length.
#[inline]
fn judge(number: u32, len: usize, at: u64) -> Result<Head, ReadEnd>
    ensures { Judges at number len result }
{
    let Some(operation) = Operation::from_u32(number) else {
        return judge_other(number, len, at);
    };
    if operation.row().allows(BODY_MAX, len) {
        return Ok(Head::Record(operation, len));
    }
    if len > BODY_MAX {
        return Err(ReadEnd::BodyLong(at));
    }
    Err(ReadEnd::BodyShape(at))
}

/// Judges a header whose number is no call's.
#[inline(always)]
fn judge_other(number: u32, len: usize, at: u64) -> Result<Head, ReadEnd>
    requires { operation_numbered number ≡ None }
    ensures { Judges at number len result }
{
    if number != CLOSE {
        return Err(ReadEnd::UnknownOp(at));
    }
    if len > BODY_MAX {
        return Err(ReadEnd::BodyLong(at));
    }
    if len > 0 {
        return Err(ReadEnd::BodyShape(at));
    }
    Ok(Head::Closing)
}

/// Reads and judges a record's header.
#[inline]
fn read_head<S: Source>(input: &mut S, at: u64) -> Result<Head, ReadEnd>
    requires { at + HEADER_BYTES ≤ INPUT_MAX }
    ensures taken { IfOk result (TakesHead (S.left input.old) (S.left input.new)) }
    ensures refused { IfErr result (λ end. WhereTold (λ old new. Refuses at old new end) (S.left input.old) (S.left input.new)) }
    ensures cause { ReadCause (S.faults input.old) (S.faults input.new) result }
    ensures room { HasRoom at result }
    ensures never { IfErr result IsRecordEnd }
{
    match read_words(input, at) {
        Ok((number, len)) => judge(number, len as usize, at),
        Err(end) => Err(end),
    }
}

/// Reads a record's body into the buffer, where `at` bytes of the session stand before it. Truncated and ReadFault come as they do
/// of `read_record`.
#[inline(always)]
pub fn read_body<'b, S: Source>(
    input: &mut S,
    at: u64,
    len: usize,
    buf: &'b mut RecordBuf,
) -> Result<&'b [u8], ReadEnd>
    requires place { at ≤ 2 ^ 63 }
    requires within { len ≤ BODY_MAX }
    ensures len { IfOk result (λ body. length body.now ≡ len) }
    ensures taken { IfOk result (λ body. S.left input.old ≡ prepend_known body.now (S.left input.new)) }
    ensures short { IfErr result (EndsShort at len (S.left input.old) (S.left input.new)) }
    ensures cause { ReadCause (S.faults input.old) (S.faults input.new) result }
    ensures never { IfErr result IsRecordEnd }
{
    buf.reach(len);
    let body = &mut buf.bytes_mut()[..len];
    match fill(input, at, body) {
        Ok(()) => Ok(body),
        Err(end) => Err(end),
    }
}

/// Sees that the input ends here, after the closing record.
fn see_end<S: Source>(input: &mut S, at: u64) -> Result<(), ReadEnd>
    ensures end { EndsClosed at (S.left input.old) (S.left input.new) result }
    ensures cause { ReadCause (S.faults input.old) (S.faults input.new) result }
{
    let mut byte = [0u8; 1];
    let Ok(n) = read_full(input, &mut byte) else {
        return Err(ReadEnd::ReadFault);
    };
    if n > 0 {
        return Err(ReadEnd::AfterEnd(at));
    }
    Ok(())
}

/// Reads a session's header. ReadFault comes only where the source's number of faults rose; Truncated, Magic
/// and Version come exactly by the bytes.
#[tactic(auto, using(crate::proofs::Refusals::start_good))]
pub fn read_start<S: Source>(input: &mut S) -> Result<(), ReadEnd>
    ensures taken { OnOk result (S.left input.old ≡ prepend_known session_start (S.left input.new)) }
    ensures answers { WhereTold (λ old new. StartAnswers old new result) (S.left input.old) (S.left input.new) }
    ensures cause { ReadCause (S.faults input.old) (S.faults input.new) result }
    ensures never { IfErr result IsStartEnd }
{
    let (magic, version) = match read_words(input, 0) {
        Ok(words) => words,
        Err(end) => return Err(end),
    };
    if magic != SESSION_MAGIC {
        return Err(ReadEnd::Magic(0));
    }
    if version != SESSION_VERSION {
        return Err(ReadEnd::Version(4));
    }
    Ok(())
}

/// Reads the header of the next record, of which `at` bytes of the session stand before, and leaves a call's body unread. After the
/// closing record it sees that the input ends there. ReadFault comes only where the source's number of faults rose; every other
/// refusal comes exactly by the bytes and `at`.
#[inline(always)]
pub fn read_next<S: Source>(input: &mut S, at: u64) -> Result<Next, ReadEnd>
    requires { at ≤ 2 ^ 63 }
    ensures taken { IfOk result (TakesNext (S.left input.old) (S.left input.new)) }
    ensures answers { WhereTold (λ old new. AnswersNext at old new result) (S.left input.old) (S.left input.new) }
    ensures cause { ReadCause (S.faults input.old) (S.faults input.new) result }
    ensures room { HasRoom at result }
    ensures never { IfErr result IsRecordEnd }
{
    if at > INPUT_MAX - HEADER_BYTES as u64 {
        return Err(ReadEnd::InputLong(at));
    }
    match read_head(input, at) {
        Err(end) => Err(end),
        Ok(Head::Closing) => match see_end(input, at + HEADER_BYTES as u64) {
            Ok(()) => Ok(Next::End),
            Err(end) => Err(end),
        },
        Ok(Head::Record(operation, len)) => Ok(Next::Call { operation, len }),
    }
}

/// Reads the next record, of which `at` bytes of the session stand before, and leaves a call's fields unread. Its body
/// borrows `buf`. After the closing record it sees that the input ends there. ReadFault comes only where the source's number
/// of faults rose; every other refusal comes exactly by the bytes and `at`.
#[inline(always)]
#[tactic(auto, using(crate::proofs::Lengths::lengths))]
pub fn read_record<'b, S: Source>(
    input: &mut S,
    at: u64,
    buf: &'b mut RecordBuf,
) -> Result<Unread<'b>, ReadEnd>
    requires { at ≤ 2 ^ 63 }
    ensures taken { IfOk result (λ unread. S.left input.old ≡ prepend_known (unread_encoding unread) (S.left input.new)) }
    ensures answers { WhereTold (λ old new. AnswersUnread at old new result) (S.left input.old) (S.left input.new) }
    ensures cause { ReadCause (S.faults input.old) (S.faults input.new) result }
    ensures room { HasRoom at result }
    ensures allowed { IfOk result IsAllowed }
    ensures never { IfErr result IsRecordEnd }
{
    match read_next(input, at) {
        Err(end) => Err(end),
        Ok(Next::End) => Ok(Unread::End),
        Ok(Next::Call { operation, len }) => {
            match read_body(input, at + HEADER_BYTES as u64, len, buf) {
                Ok(body) => Ok(Unread::Call { operation, body }),
                Err(end) => Err(end),
            }
        }
    }
}

/// Reads the next record, of which `at` bytes of the session stand before. A call's tail borrows `buf`. After
/// the closing record it sees that the input ends there. ReadFault comes only where the source's number of
/// faults rose; every other refusal comes exactly by the bytes and `at`.
#[inline]
#[tactic(auto, using(crate::proofs::Lengths::lengths))]
pub fn read_call<'b, S: Source>(
    input: &mut S,
    at: u64,
    buf: &'b mut RecordBuf,
) -> Result<Step<'b>, ReadEnd>
    requires { at ≤ 2 ^ 63 }
    ensures taken { IfOk result (λ step. S.left input.old ≡ prepend_known (step_encoding step) (S.left input.new)) }
    ensures answers { WhereTold (λ old new. Answers at old new result) (S.left input.old) (S.left input.new) }
    ensures cause { ReadCause (S.faults input.old) (S.faults input.new) result }
    ensures room { HasRoom at result }
    ensures size { IfOk result (λ step. length (step_encoding step) ≤ HEADER_BYTES + BODY_MAX) }
    ensures fits { IfOk result HasFits }
    ensures never { IfErr result IsRecordEnd }
{
    match read_record(input, at, buf) {
        Ok(Unread::Call { operation, body }) => Ok(Step::Call(Call::of(operation, body))),
        Ok(Unread::End) => Ok(Step::End),
        Err(end) => Err(end),
    }
}
