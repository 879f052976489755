//! A WebGL 1.0 context: the page's machine, and the context that keeps what stands for its state. The contract in one
//! sentence: each call is answered by the page's step, and the commands that it sends replay on the driver's machine
//! without a fault to exactly the step's Shot (WebGL 1.0 section 5.14; OpenGL ES 2.0 chapter 2).
//!
//! A call is judged and acts on the stores; only then its commands are written, one after the other.
#![tactic(auto)]

mod acts;
mod attrib_calls;
mod buffer_calls;
mod context;
mod deed;
mod draw_calls;
mod errors;
mod object_calls;
mod parameters;
mod pixels;
mod query_calls;
mod raster_calls;
mod texture_calls;
mod values;

pub use acts::Acts;
pub use context::{Context, Open, WriteFault};
pub use deed::{Stop, Told};
