//! The attributes of the passes.
use shfl_line::Attr;

// Those of a pass of a socket.
fn of_socket(socket: u16) -> Attr {
    Attr {
        socket,
        prio: 0,
        class: 0,
        kind: 0,
    }
}

/// Those of sixteen passes of four sockets.
pub fn of_four_sockets() -> [Attr; 16] {
    let (a, b, c, d) = (of_socket(0), of_socket(1), of_socket(2), of_socket(3));
    [a, b, c, d, a, b, c, d, a, b, c, d, a, b, c, d]
}
