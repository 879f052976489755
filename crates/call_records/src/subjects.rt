ghost use Rattle.std.specs.Prelude.{◌≡◌, length, true};
ghost use Rattle.gl_numbers.specs.Fields.{allows, ReadsRow};
ghost use Rattle.call_records.specs.declared.operations.TheConstants.{BODY_MAX};
ghost use Rattle.call_records.specs.declared.operations.Operation.{Operation};
ghost use Rattle.call_records.specs.declared.operations.Operation.TheVariants as Whole;
ghost use Rattle.call_records.specs.declared.calls.Call.{Call};
ghost use Rattle.call_records.specs.declared.calls.Call.TheVariants as WholeCall;
ghost use Rattle.call_records.specs.declared.raster_calls.RasterCall.TheVariants as RasterVariants;
ghost use Rattle.call_records.specs.Operations.{row_of};
ghost use Rattle.call_records.specs.Records.{parts_of, operation_of, body_of, Fits};

use crate::attrib_calls::{AttribCall, AttribOperation};
use crate::buffer_calls::{BufferCall, BufferOperation};
use crate::color_calls::{ColorCall, ColorOperation};
use crate::depth_stencil_calls::{DepthStencilCall, DepthStencilOperation};
use crate::draw_calls::{DrawCall, DrawOperation};
use crate::object_calls::{ObjectCall, ObjectOperation};
use crate::query_calls::{QueryCall, QueryOperation};
use crate::texture_calls::{TextureCall, TextureOperation};
use crate::view_calls::{ViewCall, ViewOperation};
use gl_numbers::Fields;

/// The calls of one subject.
pub trait SubjectCall {
    /// The call of the whole table.
    ghost whole_call: { Self → Call };
}

/// The operations of one subject. A reader of one subject's calls is compiled without those of the others.
pub trait Subject<'a>: Copy {
    /// The calls of these operations; their bytes are those of the body that they are read from.
    type Call: SubjectCall;

    /// The operation of the whole table.
    ghost whole: { Self → Operation };

    /// The call of an operation, its fields and its tail read in order.
    fn read(self, fields: &mut Fields<'a>) -> Self::Call
        requires { allows BODY_MAX (row_of (whole self)) (length fields.old) ≡ true }
        ensures { ReadsRow row_of (whole self) fields.old fields.new (parts_of (Self.Call.whole_call result)) };
}

/// The call of an operation with this body.
#[inline(always)]
#[tactic(auto, using(gl_numbers::proofs::OneRecord::read_fits))]
pub fn call_of<'a, K: Subject<'a>>(operation: K, body: &'a [u8]) -> K::Call
    requires { allows BODY_MAX (row_of (K.whole operation)) (length body.now) ≡ true }
    ensures operation { operation_of (K.Call.whole_call result) ≡ K.whole operation }
    ensures body { body_of (K.Call.whole_call result) ≡ body.now }
    ensures fits { Fits (K.Call.whole_call result) }
{
    let mut fields = Fields::new(body);
    operation.read(&mut fields)
}

impl SubjectCall for ObjectCall {
    ghost whole_call = { λ call. WholeCall.Object call };
}

impl<'a> Subject<'a> for ObjectOperation {
    type Call = ObjectCall;

    ghost whole = { λ operation. Whole.Object operation };

    #[inline(always)]
    fn read(self, fields: &mut Fields<'a>) -> ObjectCall {
        ObjectCall::read(self, fields)
    }
}

impl<'a> SubjectCall for BufferCall<'a> {
    ghost whole_call = { λ call. WholeCall.Buffer call };
}

impl<'a> Subject<'a> for BufferOperation {
    type Call = BufferCall<'a>;

    ghost whole = { λ operation. Whole.Buffer operation };

    #[inline(always)]
    fn read(self, fields: &mut Fields<'a>) -> BufferCall<'a> {
        BufferCall::read(self, fields)
    }
}

impl SubjectCall for AttribCall {
    ghost whole_call = { λ call. WholeCall.Attrib call };
}

impl<'a> Subject<'a> for AttribOperation {
    type Call = AttribCall;

    ghost whole = { λ operation. Whole.Attrib operation };

    #[inline(always)]
    fn read(self, fields: &mut Fields<'a>) -> AttribCall {
        AttribCall::read(self, fields)
    }
}

impl SubjectCall for TextureCall {
    ghost whole_call = { λ call. WholeCall.Texture call };
}

impl<'a> Subject<'a> for TextureOperation {
    type Call = TextureCall;

    ghost whole = { λ operation. Whole.Texture operation };

    #[inline(always)]
    fn read(self, fields: &mut Fields<'a>) -> TextureCall {
        TextureCall::read(self, fields)
    }
}

impl SubjectCall for QueryCall {
    ghost whole_call = { λ call. WholeCall.Query call };
}

impl<'a> Subject<'a> for QueryOperation {
    type Call = QueryCall;

    ghost whole = { λ operation. Whole.Query operation };

    #[inline(always)]
    fn read(self, fields: &mut Fields<'a>) -> QueryCall {
        QueryCall::read(self, fields)
    }
}

impl SubjectCall for ColorCall {
    ghost whole_call = { λ call. WholeCall.Raster (RasterVariants.Color call) };
}

impl<'a> Subject<'a> for ColorOperation {
    type Call = ColorCall;

    ghost whole = { λ operation. Whole.Color operation };

    #[inline(always)]
    fn read(self, fields: &mut Fields<'a>) -> ColorCall {
        ColorCall::read(self, fields)
    }
}

impl SubjectCall for DepthStencilCall {
    ghost whole_call = { λ call. WholeCall.Raster (RasterVariants.DepthStencil call) };
}

impl<'a> Subject<'a> for DepthStencilOperation {
    type Call = DepthStencilCall;

    ghost whole = { λ operation. Whole.DepthStencil operation };

    #[inline(always)]
    fn read(self, fields: &mut Fields<'a>) -> DepthStencilCall {
        DepthStencilCall::read(self, fields)
    }
}

impl SubjectCall for ViewCall {
    ghost whole_call = { λ call. WholeCall.Raster (RasterVariants.View call) };
}

impl<'a> Subject<'a> for ViewOperation {
    type Call = ViewCall;

    ghost whole = { λ operation. Whole.View operation };

    #[inline(always)]
    fn read(self, fields: &mut Fields<'a>) -> ViewCall {
        ViewCall::read(self, fields)
    }
}

impl SubjectCall for DrawCall {
    ghost whole_call = { λ call. WholeCall.Draw call };
}

impl<'a> Subject<'a> for DrawOperation {
    type Call = DrawCall;

    ghost whole = { λ operation. Whole.Draw operation };

    #[inline(always)]
    fn read(self, fields: &mut Fields<'a>) -> DrawCall {
        DrawCall::read(self, fields)
    }
}
