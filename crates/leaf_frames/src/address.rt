ghost use Rattle.std.specs.Prelude.{◌≡◌};
ghost use Rattle.leaf_frames.specs.Frames.{form_of};

use nats_text::{Bytes, List, Subject};

/// Where a message goes: what its line says of it before its header block and its payload are there.
#[derive(Drop)]
pub(crate) struct Address {
    pub subject: Subject,
    pub reply: Option<Subject>,
    pub queues: List<Bytes>,
}

/// How the fields of an address stand.
#[derive(Clone, Copy)]
pub(crate) enum Form {
    /// A subject, and perhaps a reply.
    Plain,
    /// A subject, the sign `+`, a reply, and perhaps queues.
    WithReply,
    /// A subject, the sign `|`, and queues.
    WithQueues,
}

/// The sizes of a message, where they could be read: that of its header block, and the whole.
#[derive(Clone, Copy)]
pub(crate) struct Sizes {
    pub block: Option<usize>,
    pub size: Option<usize>,
}

/// The form of an address, by the field behind its subject.
pub(crate) fn form_of(field: &[u8]) -> Form
    ensures { result ≡ form_of field.now }
{
    if field == b"+".as_slice() {
        Form::WithReply
    } else if field == b"|".as_slice() {
        Form::WithQueues
    } else {
        Form::Plain
    }
}
