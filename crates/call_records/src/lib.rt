//! The records of a session (this project's own format): WebGL 1.0 calls as little-endian bytes, and the
//! replies to them. The contract in one sentence: what a call of the reader takes is the encoding of its
//! result, each refusal comes exactly at its cause in the bytes, and what is written is the reply's encoding.
#![tactic(auto)]

mod attrib_calls;
#[cfg(test)]
mod attrib_tests;
mod buffer_calls;
mod calls;
mod color_calls;
mod depth_stencil_calls;
mod draw_calls;
mod object_calls;
mod operations;
mod query_calls;
mod raster_calls;
#[cfg(test)]
mod raster_tests;
mod reading;
mod record_buf;
mod replies;
mod reply_reading;
#[cfg(test)]
mod reply_tests;
#[cfg(test)]
mod state_tests;
mod subjects;
#[cfg(test)]
mod tests;
mod texture_calls;
mod view_calls;
mod writing;

pub use attrib_calls::{AttribCall, AttribOperation};
pub use buffer_calls::{BufferCall, BufferOperation, Fill};
pub use calls::Call;
pub use color_calls::{ColorCall, ColorOperation};
pub use depth_stencil_calls::{DepthStencilCall, DepthStencilOperation};
pub use draw_calls::{DrawCall, DrawOperation};
pub use object_calls::{New, ObjectCall, ObjectKind, ObjectOperation};
pub use operations::{BODY_MAX, CLOSE, HEADER_BYTES, Operation};
pub use query_calls::{QueryCall, QueryOperation};
pub use raster_calls::RasterCall;
pub use reading::{
    INPUT_MAX, Next, ReadEnd, SESSION_MAGIC, SESSION_VERSION, Step, Unread, read_body, read_call,
    read_next, read_record, read_start,
};
pub use record_buf::RecordBuf;
pub use replies::{Reply, Value, write_list, write_nothing, write_number, write_reply};
pub use reply_reading::read_reply;
pub use subjects::{Subject, SubjectCall, call_of};
pub use texture_calls::{TextureCall, TextureOperation};
pub use view_calls::{ViewCall, ViewOperation};
pub use writing::write_call;
