ghost use Rattle.std.specs.Prelude.{◌≡◌, Ok, true};
ghost use Rattle.gl_numbers.specs.declared.kinds.Kind.TheVariants as kind;
ghost use Rattle.wire_io.specs.Sinks.{Sends};
ghost use Rattle.object_names.specs.Objects.{Finds};
ghost use Rattle.object_names.specs.declared.entry.Find.TheVariants as find;
ghost use Rattle.gl_model.specs.PageState.{PageState, is_live};
ghost use Rattle.call_records.specs.declared.object_calls.ObjectKind.TheVariants as object;
ghost use Rattle.gl_context.specs.ObjectRows.{object_row, create_row, delete_row, is_kind_row};
ghost use Rattle.gl_context.specs.Stands.{Keeps, IsSound, buffer_name};
ghost use Rattle.gl_context.specs.Deeds.{ActsBy, ReturnsBy, SendsBy, SendCause, map_ok};
ghost use Rattle.gl_context.specs.Made.{made_buffer, dropped_buffer};

use crate::context::Context;
use crate::deed::{Stop, Told};
use crate::values::truth;
use call_records::{New, ObjectCall, ObjectKind};
use command_stream::{ObjectCommand, write_object_command};
use gl_numbers::{GlError, Handle, Kind};
use object_names::{Create, Find};
use wire_io::Sink;

impl Context {
    /// The calls that make, delete and tell objects.
    #[inline(always)]
    pub(crate) fn object<S: Sink>(
        &mut self,
        call: &ObjectCall,
        stream: &mut S,
    ) -> Result<Told, Stop>
        ensures sends { (w : PageState) → Keeps self.old w → IsSound w
            → SendsBy (object_row w call.now) w self.new (S.held stream.old) (S.held stream.new) result }
        ensures cause { SendCause (S.faults stream.old) (S.faults stream.new) result }
        ensures failed { self.new.failed ≡ self.old.failed }
    {
        match call {
            ObjectCall::Create(New::Buffer) => self.create_buffer(stream),
            ObjectCall::Delete {
                kind: ObjectKind::Buffer,
                handle,
            } => self.delete_buffer(*handle, stream),
            ObjectCall::IsKind {
                kind: ObjectKind::Buffer,
                handle,
            } => Ok(self.is_buffer(*handle)),
        }
    }

    /// Makes a buffer: its handle, and the driver's name of it.
    #[inline(always)]
    fn make_buffer(&mut self) -> Result<(Handle, u32), GlError>
        ensures acts { (w : PageState) → Keeps self.old w → IsSound w → ActsBy (create_row w) w self.new (map_ok made_buffer result) }
        ensures failed { self.new.failed ≡ self.old.failed }
    {
        let (handle, name) = match self.names.room(Kind::Buffer) {
            Ok(made) => made,
            Err(Create::Spent) => return Err(GlError::Operation),
            Err(Create::Memory) => return Err(GlError::Memory),
        };
        let Ok(()) = self.buffers.add(handle) else {
            return Err(GlError::Memory);
        };
        self.names.create(Kind::Buffer);
        Ok((handle, name))
    }

    /// createBuffer (WebGL 1.0 section 5.14.5)
    #[inline(always)]
    fn create_buffer<S: Sink>(&mut self, stream: &mut S) -> Result<Told, Stop>
        ensures sends { (w : PageState) → Keeps self.old w → IsSound w
            → SendsBy (create_row w) w self.new (S.held stream.old) (S.held stream.new) result }
        ensures cause { SendCause (S.faults stream.old) (S.faults stream.new) result }
        ensures failed { self.new.failed ≡ self.old.failed }
    {
        let (handle, name) = match self.make_buffer() {
            Ok(made) => made,
            Err(error) => return Err(Stop::Raised(error)),
        };
        let Ok(()) = write_object_command(&ObjectCommand::MakeBuffer(name), stream) else {
            return Err(Stop::Unsent);
        };
        Ok(Told::Number(handle))
    }

    /// The driver's name of a live buffer.
    #[inline(always)]
    pub(crate) fn buffer_name(&self, handle: Handle) -> u32
        requires { Finds self.now.names.objects handle kind.Buffer find.Live }
        ensures { result ≡ buffer_name handle }
    {
        self.names.driver(handle)
    }

    /// Marks a live buffer, and takes it from all that it is bound to.
    #[inline(always)]
    fn mark_buffer(&mut self, handle: Handle)
        requires { Finds self.old.names.objects handle kind.Buffer find.Live }
        ensures keeps { (w : PageState) → Keeps self.old w → is_live w kind.Buffer handle ≡ true
            → Keeps self.new (delete_row w object.Buffer handle).next }
        ensures failed { self.new.failed ≡ self.old.failed }
    {
        self.names.delete(handle);
        self.buffers.gone(handle);
        self.attributes.buffer_gone(handle);
    }

    /// Deletes the buffer of a handle: the driver's name of it, where there was one.
    #[inline(always)]
    fn drop_buffer(&mut self, handle: Handle) -> Result<Option<u32>, GlError>
        ensures acts { (w : PageState) → Keeps self.old w → IsSound w
            → ActsBy (delete_row w object.Buffer handle) w self.new (map_ok dropped_buffer result) }
        ensures failed { self.new.failed ≡ self.old.failed }
    {
        match self.names.find(handle, Kind::Buffer) {
            Find::Stranger => Err(GlError::Operation),
            Find::Live => {
                let name = self.buffer_name(handle);
                self.mark_buffer(handle);
                Ok(Some(name))
            }
            _ => Ok(None),
        }
    }

    /// deleteBuffer (WebGL 1.0 section 5.14.5)
    #[inline(always)]
    fn delete_buffer<S: Sink>(&mut self, handle: Handle, stream: &mut S) -> Result<Told, Stop>
        ensures sends { (w : PageState) → Keeps self.old w → IsSound w
            → SendsBy (delete_row w object.Buffer handle) w self.new (S.held stream.old) (S.held stream.new) result }
        ensures cause { SendCause (S.faults stream.old) (S.faults stream.new) result }
        ensures failed { self.new.failed ≡ self.old.failed }
    {
        let name = match self.drop_buffer(handle) {
            Ok(Some(name)) => name,
            Ok(None) => return Ok(Told::Nothing),
            Err(error) => return Err(Stop::Raised(error)),
        };
        let Ok(()) = write_object_command(&ObjectCommand::DropBuffer(name), stream) else {
            return Err(Stop::Unsent);
        };
        Ok(Told::Nothing)
    }

    /// isBuffer (WebGL 1.0 section 5.14.5)
    #[inline(always)]
    fn is_buffer(&self, handle: Handle) -> Told
        ensures acts { (w : PageState) → Keeps self.now w → ReturnsBy (is_kind_row w object.Buffer handle) w self.now (Ok result) }
    {
        truth(self.names.is_kind(handle, Kind::Buffer))
    }
}
