ghost use Rattle.std.specs.Prelude.{◌≡◌, ◌&&◌, nat_le};
ghost use Rattle.gl_numbers.specs.Fields.{has_tail};
ghost use Rattle.command_stream.specs.Operations.{body_max};

use crate::operation::BODY_MAX;
use gl_numbers::Tail;

/// An operation's row of the command table.
#[derive(Clone, Copy)]
pub struct Row {
    /// The number that stands for the operation in a command's header.
    pub number: u32,
    /// The bytes of all its fields.
    pub field_bytes: u32,
    /// What follows the fields.
    pub tail: Tail,
}

impl Row {
    /// Whether a body may have this many bytes: the fields and such a tail, at most `BODY_MAX` in all.
    #[inline(always)]
    pub fn allows(self, len: u32) -> bool
        ensures { result ≡ nat_le len body_max && has_tail self.tail self.field_bytes len }
    {
        len <= BODY_MAX
            && match self.tail {
                Tail::Nothing => len == self.field_bytes,
                Tail::Bytes => self.field_bytes <= len,
                Tail::Words => self.field_bytes <= len && (len - self.field_bytes) % 4 == 0,
            }
    }
}
