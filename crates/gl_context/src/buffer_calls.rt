ghost use Rattle.std.specs.Prelude.{◌≡◌, ◌+◌, ◌≤◌, [], ◌∷◌, length, false, IfOk, IfSome, IsSome, ◌==◌, if◌then◌else◌};
ghost use Rattle.std.specs.FinMap.{get};
ghost use Rattle.std.specs.Option.{ForSome};
ghost use Rattle.gl_numbers.specs.BufferBindings.{non_zero};
ghost use Rattle.gl_numbers.specs.BufferRules.{is_negative, whole};
ghost use Rattle.gl_numbers.specs.Limits.{buffer_bytes_max};
ghost use Rattle.gl_numbers.specs.BufferWords.{usage_word, buffer_size};
ghost use Rattle.wire_io.specs.Faults.{HasCause};
ghost use Rattle.wire_io.specs.Sinks.{Sends};
ghost use Rattle.gl_model.specs.PageState.{PageState};
ghost use Rattle.call_records.specs.Records.{Fits};
ghost use Rattle.call_records.specs.declared.calls.Call.TheVariants as Call;
ghost use Rattle.call_records.specs.declared.buffer_calls.BufferCall.TheVariants.{BufferData, BufferSubData};
ghost use Rattle.command_stream.specs.declared.command.Command.TheVariants.{Buffer};
ghost use Rattle.command_stream.specs.declared.buffer_commands.BufferCommand.TheVariants.{BufferSize};
ghost use Rattle.gl_context.specs.BufferRows.{buffer_row, bind_row, data_row, sub_data_row, parameter_row, part_sent, bound_name};
ghost use Rattle.gl_context.specs.Filled.{Fills, HasRoom, content_sent};
ghost use Rattle.gl_context.specs.Stands.{Keeps, IsSound};
ghost use Rattle.gl_context.specs.Deeds.{ActsBy, ReturnsBy, SendsBy, SendCause, map_ok};
ghost use Rattle.gl_context.specs.Found.{JudgesBindable};
ghost use Rattle.gl_context.specs.Made.{bound_buffer, filled_buffer, patched_buffer};
ghost use Rattle.gl_context.specs.Sent.{bytes_of};

use crate::context::Context;
use crate::deed::{Stop, Told, quiet};
use buffer_store::Content;
use call_records::{BufferCall, Fill};
use command_stream::{BufferCommand, write_buffer_command, write_filled};
use gl_numbers::{
    BUFFER_BYTES_MAX, BUFFER_SIZE, BufferTarget, GlError, Handle, Kind, Usage, is_buffer_parameter,
};
use object_names::Find;
use wire_io::{Failed, Sink};

/// What a bufferData fills a buffer with, where a buffer can have it.
#[inline(always)]
fn content_of(fill: Fill<'_>) -> Option<Content<'_>>
    ensures { Fills fill.entry result }
{
    match fill {
        Fill::Bytes(bytes) => Some(Content::Bytes(bytes)),
        Fill::Size(size) if size < 0 || size > i64::from(BUFFER_BYTES_MAX) => None,
        Fill::Size(size) => Some(Content::Size(size as u32)),
    }
}

/// An offset that isn't negative, and no more than a buffer has bytes, as a word.
#[inline(always)]
fn offset_word(offset: i64) -> u32
    requires positive { is_negative offset ≡ false }
    requires small { whole offset ≤ buffer_bytes_max }
    ensures { result ≡ whole offset }
{
    offset as u32
}

/// Sends the command that writes bytes into the bound buffer, from an offset on, where there are any.
#[inline(always)]
#[tactic(auto, using(crate::proofs::SentBytes::nothing_sent, crate::proofs::SentBytes::sends_one, crate::proofs::SentBytes::allowed_bytes))]
fn send_part<S: Sink>(target: u32, offset: u32, bytes: &[u8], stream: &mut S) -> Result<(), Failed>
    requires { 8 + length bytes.now ≤ 16777280 }
    ensures bytes { Sends (S.held stream.old) (S.held stream.new) result (bytes_of (part_sent target offset bytes.entry)) }
    ensures cause { HasCause (S.faults stream.old) (S.faults stream.new) result }
{
    if bytes.is_empty() {
        return Ok(());
    }
    write_buffer_command(
        &BufferCommand::BufferBytes {
            target,
            offset,
            bytes,
        },
        stream,
    )
}

/// Sends the command that gives the bound buffer its size, with zeros.
#[inline(always)]
#[tactic(auto, using(crate::proofs::SentBytes::sends_one, crate::proofs::SentBytes::allowed_size))]
fn send_size<S: Sink>(target: u32, usage: u32, size: u32, stream: &mut S) -> Result<(), Failed>
    ensures bytes { Sends (S.held stream.old) (S.held stream.new) result (bytes_of (Buffer (BufferSize target usage size) ∷ [])) }
    ensures cause { HasCause (S.faults stream.old) (S.faults stream.new) result }
{
    write_buffer_command(
        &BufferCommand::BufferSize {
            target,
            usage,
            size,
        },
        stream,
    )
}

/// Sends the commands that give the bound buffer its content: the size, and then the bytes where there are any.
#[inline(always)]
fn send_content<S: Sink>(
    target: u32,
    usage: u32,
    content: Content<'_>,
    stream: &mut S,
) -> Result<(), Failed>
    requires { HasRoom content }
    ensures bytes { Sends (S.held stream.old) (S.held stream.new) result (bytes_of (content_sent target usage content.entry)) }
    ensures cause { HasCause (S.faults stream.old) (S.faults stream.new) result }
{
    match content {
        Content::Size(size) => send_size(target, usage, size, stream),
        Content::Bytes(bytes) if bytes.is_empty() => send_size(target, usage, 0, stream),
        Content::Bytes(bytes) => write_filled(target, usage, bytes, stream),
    }
}

impl Context {
    /// The calls on buffers.
    #[inline(always)]
    pub(crate) fn buffer<S: Sink>(
        &mut self,
        call: &BufferCall<'_>,
        stream: &mut S,
    ) -> Result<Told, Stop>
        requires { Fits (Call.Buffer call.now) }
        ensures sends { (w : PageState) → Keeps self.old w → IsSound w
            → SendsBy (buffer_row w call.now) w self.new (S.held stream.old) (S.held stream.new) result }
        ensures cause { SendCause (S.faults stream.old) (S.faults stream.new) result }
        ensures failed { self.new.failed ≡ self.old.failed }
    {
        match call {
            BufferCall::BindBuffer { target, handle } => self.bind_buffer(*target, *handle, stream),
            BufferCall::BufferData {
                target,
                usage,
                fill,
            } => self.buffer_data(*target, *usage, *fill, stream),
            BufferCall::BufferSubData {
                target,
                offset,
                bytes,
            } => self.buffer_sub_data(*target, *offset, bytes, stream),
            BufferCall::GetBufferParameter { target, name } => {
                quiet(self.buffer_parameter(*target, *name))
            }
        }
    }

    /// What a handle binds, none for 0, and the driver's name of it.
    #[inline(always)]
    fn bindable(&self, handle: Handle) -> Result<(Option<Handle>, u32), GlError>
        ensures there { IfOk result (λ b. ForSome b.0 (λ h. IsSome (get self.now.buffers.buffers h))) }
        ensures bound { IfOk result (λ b. (b.0 ≡ non_zero handle) × (b.1 ≡ bound_name handle)) }
        ensures judged { (w : PageState) → Keeps self.now w → IsSound w → JudgesBindable w handle result }
    {
        match self.names.find(handle, Kind::Buffer) {
            Find::Null => Ok((None, 0)),
            Find::Live => Ok((Some(handle), self.buffer_name(handle))),
            _ => Err(GlError::Operation),
        }
    }

    /// Binds the buffer of a handle, or none for 0: the driver's name of it.
    #[inline(always)]
    fn bind(&mut self, target: u32, handle: Handle) -> Result<u32, GlError>
        ensures acts { (w : PageState) → Keeps self.old w → IsSound w
            → ActsBy (bind_row w target handle) w self.new (map_ok (bound_buffer target) result) }
        ensures failed { self.new.failed ≡ self.old.failed }
    {
        let Some(to) = BufferTarget::from_u32(target) else {
            return Err(GlError::Enum);
        };
        let (bound, name) = match self.bindable(handle) {
            Ok(bindable) => bindable,
            Err(error) => return Err(error),
        };
        if let Err(error) = self.buffers.bind(to, bound) {
            return Err(error);
        }
        Ok(name)
    }

    /// bindBuffer (WebGL 1.0 section 5.14.5)
    #[tactic(auto, using(crate::proofs::SentBytes::allowed_bind))]
    #[inline(always)]
    fn bind_buffer<S: Sink>(
        &mut self,
        target: u32,
        handle: Handle,
        stream: &mut S,
    ) -> Result<Told, Stop>
        ensures sends { (w : PageState) → Keeps self.old w → IsSound w
            → SendsBy (bind_row w target handle) w self.new (S.held stream.old) (S.held stream.new) result }
        ensures cause { SendCause (S.faults stream.old) (S.faults stream.new) result }
        ensures failed { self.new.failed ≡ self.old.failed }
    {
        let name = match self.bind(target, handle) {
            Ok(name) => name,
            Err(error) => return Err(Stop::Raised(error)),
        };
        let Ok(()) = write_buffer_command(&BufferCommand::BindBuffer { target, name }, stream)
        else {
            return Err(Stop::Unsent);
        };
        Ok(Told::Nothing)
    }

    /// Fills the bound buffer, and gives it a usage: the content that it got.
    #[tactic(auto, using(crate::proofs::SentBytes::bytes_fit))]
    #[inline(always)]
    fn fill<'a>(&mut self, target: u32, usage: u32, fill: Fill<'a>) -> Result<Content<'a>, GlError>
        requires { Fits (Call.Buffer (BufferData target usage fill)) }
        ensures acts { (w : PageState) → Keeps self.old w → IsSound w
            → ActsBy (data_row w target usage fill.entry) w self.new (map_ok (filled_buffer target usage) result) }
        ensures room { IfOk result HasRoom }
        ensures failed { self.new.failed ≡ self.old.failed }
    {
        let (Some(to), Some(used)) = (BufferTarget::from_u32(target), Usage::from_u32(usage)) else {
            return Err(GlError::Enum);
        };
        let Some(content) = content_of(fill) else {
            return Err(GlError::Value);
        };
        if let Err(error) = self.buffers.data(to, content, used) {
            return Err(error);
        }
        Ok(content)
    }

    /// bufferData (WebGL 1.0 section 5.14.5)
    #[inline(always)]
    fn buffer_data<S: Sink>(
        &mut self,
        target: u32,
        usage: u32,
        fill: Fill<'_>,
        stream: &mut S,
    ) -> Result<Told, Stop>
        requires { Fits (Call.Buffer (BufferData target usage fill)) }
        ensures sends { (w : PageState) → Keeps self.old w → IsSound w
            → SendsBy (data_row w target usage fill.entry) w self.new (S.held stream.old) (S.held stream.new) result }
        ensures cause { SendCause (S.faults stream.old) (S.faults stream.new) result }
        ensures failed { self.new.failed ≡ self.old.failed }
    {
        let content = match self.fill(target, usage, fill) {
            Ok(content) => content,
            Err(error) => return Err(Stop::Raised(error)),
        };
        let Ok(()) = send_content(target, usage, content, stream) else {
            return Err(Stop::Unsent);
        };
        Ok(Told::Nothing)
    }

    /// Writes bytes into the bound buffer: the offset from which on they were written.
    #[inline(always)]
    fn patch<'a>(&mut self, target: u32, offset: i64, bytes: &'a [u8]) -> Result<u32, GlError>
        ensures acts { (w : PageState) → Keeps self.old w → IsSound w
            → ActsBy (sub_data_row w target offset bytes.entry) w self.new (map_ok (patched_buffer target bytes.entry) result) }
        ensures failed { self.new.failed ≡ self.old.failed }
    {
        let Some(to) = BufferTarget::from_u32(target) else {
            return Err(GlError::Enum);
        };
        if let Err(error) = self.buffers.sub_data(to, offset, bytes) {
            return Err(error);
        }
        Ok(offset_word(offset))
    }

    /// bufferSubData (WebGL 1.0 section 5.14.5)
    #[tactic(auto, using(crate::proofs::SentBytes::part_fit))]
    #[inline(always)]
    fn buffer_sub_data<'a, S: Sink>(
        &mut self,
        target: u32,
        offset: i64,
        bytes: &'a [u8],
        stream: &mut S,
    ) -> Result<Told, Stop>
        requires { Fits (Call.Buffer (BufferSubData target offset bytes)) }
        ensures sends { (w : PageState) → Keeps self.old w → IsSound w
            → SendsBy (sub_data_row w target offset bytes.entry) w self.new (S.held stream.old) (S.held stream.new) result }
        ensures cause { SendCause (S.faults stream.old) (S.faults stream.new) result }
        ensures failed { self.new.failed ≡ self.old.failed }
    {
        let at = match self.patch(target, offset, bytes) {
            Ok(at) => at,
            Err(error) => return Err(Stop::Raised(error)),
        };
        let Ok(()) = send_part(target, at, bytes, stream) else {
            return Err(Stop::Unsent);
        };
        Ok(Told::Nothing)
    }

    /// getBufferParameter (WebGL 1.0 section 5.14.5)
    #[inline(always)]
    fn buffer_parameter(&self, target: u32, name: u32) -> Result<Told, GlError>
        ensures acts { (w : PageState) → Keeps self.now w → IsSound w → ReturnsBy (parameter_row w target name) w self.now result }
    {
        let Some(to) = BufferTarget::from_u32(target) else {
            return Err(GlError::Enum);
        };
        if !is_buffer_parameter(name) {
            return Err(GlError::Enum);
        }
        let Some(handle) = self.buffers.bound(to) else {
            return Err(GlError::Operation);
        };
        Ok(Told::Number(self.parameter(handle, name)))
    }

    /// The size in bytes of a buffer that is there, or the word of its usage.
    #[inline(always)]
    fn parameter(&self, handle: Handle, name: u32) -> u32
        requires { IsSome (get self.now.buffers.buffers handle) }
        ensures { IfSome (get self.now.buffers.buffers handle)
            (λ b. result ≡ (if name == buffer_size then b.size else usage_word b.usage)) }
    {
        if name == BUFFER_SIZE {
            self.buffers.size(handle)
        } else {
            self.buffers.usage(handle)
        }
    }
}
