//! Calls, replies and commands in short, for the tests.

use call_records::{
    AttribCall, BufferCall, Call, Fill, New, ObjectCall, ObjectKind, QueryCall, Reply, Value,
};
use command_stream::{BufferCommand, Command, ObjectCommand};
use gl_numbers::Words;

pub const ARRAY: u32 = 0x8892;

pub const ELEMENT: u32 = 0x8893;

pub const STATIC: u32 = 0x88E4;

pub const DYNAMIC: u32 = 0x88E8;

pub const SIZE: u32 = 0x8764;

pub const USAGE: u32 = 0x8765;

pub const INVALID_ENUM: u32 = 0x0500;

pub const INVALID_VALUE: u32 = 0x0501;

pub const INVALID_OPERATION: u32 = 0x0502;

pub const CREATE: Call<'static> = Call::Object(ObjectCall::Create(New::Buffer));

pub const GET_ERROR: Call<'static> = Call::Query(QueryCall::GetError);

pub const DONE: Reply = Reply {
    raised: 0,
    value: Value::Nothing,
};

pub fn delete(handle: u32) -> Call<'static> {
    Call::Object(ObjectCall::Delete {
        kind: ObjectKind::Buffer,
        handle,
    })
}

pub fn is_buffer(handle: u32) -> Call<'static> {
    Call::Object(ObjectCall::IsKind {
        kind: ObjectKind::Buffer,
        handle,
    })
}

pub fn bind(target: u32, handle: u32) -> Call<'static> {
    Call::Buffer(BufferCall::BindBuffer { target, handle })
}

pub fn size(target: u32, usage: u32, size: i64) -> Call<'static> {
    Call::Buffer(BufferCall::BufferData {
        target,
        usage,
        fill: Fill::Size(size),
    })
}

pub fn data(target: u32, usage: u32, bytes: &[u8]) -> Call<'_> {
    Call::Buffer(BufferCall::BufferData {
        target,
        usage,
        fill: Fill::Bytes(bytes),
    })
}

pub fn patch(target: u32, offset: i64, bytes: &[u8]) -> Call<'_> {
    Call::Buffer(BufferCall::BufferSubData {
        target,
        offset,
        bytes,
    })
}

pub fn parameter(target: u32, name: u32) -> Call<'static> {
    Call::Buffer(BufferCall::GetBufferParameter { target, name })
}

pub fn array(index: u32, on: bool) -> Call<'static> {
    Call::Attrib(AttribCall::AttribArray { index, on })
}

/// A vertexAttribPointer of elements that aren't normalized: its size, the word of their type, its stride and its offset.
pub fn pointer(index: u32, numbers: (i32, u32, i32, i64)) -> Call<'static> {
    let (size, kind, stride, offset) = numbers;
    Call::Attrib(AttribCall::VertexAttribPointer {
        index,
        size,
        kind,
        normalized: 0,
        stride,
        offset,
    })
}

pub fn constant(index: u32, words: [u32; 4]) -> Call<'static> {
    let [x, y, z, w] = words;
    Call::Attrib(AttribCall::VertexAttrib { index, x, y, z, w })
}

pub fn attribute(index: u32, name: u32) -> Call<'static> {
    Call::Attrib(AttribCall::GetVertexAttrib { index, name })
}

pub fn attribute_offset(index: u32, name: u32) -> Call<'static> {
    Call::Attrib(AttribCall::GetVertexAttribOffset { index, name })
}

/// A reply of at most 16 words.
pub fn list(words: &[u32]) -> Reply {
    let value = match Words::new(words) {
        Some(words) => Value::List(words),
        None => Value::Nothing,
    };
    Reply { raised: 0, value }
}

pub fn number(n: u32) -> Reply {
    Reply {
        raised: 0,
        value: Value::Number(n),
    }
}

pub fn refused(raised: u32) -> Reply {
    Reply {
        raised,
        value: Value::Nothing,
    }
}

pub fn make_buffer(name: u32) -> Command<'static> {
    Command::Object(ObjectCommand::MakeBuffer(name))
}

pub fn drop_buffer(name: u32) -> Command<'static> {
    Command::Object(ObjectCommand::DropBuffer(name))
}

pub fn bind_buffer(target: u32, name: u32) -> Command<'static> {
    Command::Buffer(BufferCommand::BindBuffer { target, name })
}

pub fn buffer_size(target: u32, usage: u32, size: u32) -> Command<'static> {
    Command::Buffer(BufferCommand::BufferSize {
        target,
        usage,
        size,
    })
}

pub fn buffer_bytes(target: u32, offset: u32, bytes: &[u8]) -> Command<'_> {
    Command::Buffer(BufferCommand::BufferBytes {
        target,
        offset,
        bytes,
    })
}
