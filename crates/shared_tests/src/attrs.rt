//! Attributes of passes, and the forms of a lock.
use shfl_line::{Attr, Form};

/// Those of a pass where they don't matter.
pub const PLAIN: Attr = Attr {
    socket: 0,
    prio: 0,
    class: 0,
    kind: 0,
};

/// Those of a pass of another socket.
pub const FAR: Attr = Attr {
    socket: 1,
    prio: 0,
    class: 0,
    kind: 0,
};

/// All forms.
pub const FORMS: [Form; 4] = [Form::Spin, Form::Rw, Form::Park, Form::RwPark];
