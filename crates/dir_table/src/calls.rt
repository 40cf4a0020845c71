//! The calls of a directory, their replies, and its rows.

/// A call. A directory is below 64, and a name is its place in the list of all names.
#[derive(Clone, Copy, Debug, PartialEq, Eq)]
pub enum DirCall {
    /// Makes a file of this name, where there is none.
    Make {
        dir: u8,
        name: u32,
    },
    /// Removes the name.
    Drop {
        dir: u8,
        name: u32,
    },
    /// Gives a file another name, which then is this file's and no other's, as POSIX says.
    Rename {
        dir: u8,
        name: u32,
        to_dir: u8,
        to_name: u32,
    },
    /// Asks for the number of the file of this name.
    Find {
        dir: u8,
        name: u32,
    },
    /// Asks how many names the directory has.
    Count {
        dir: u8,
    },
    /// Asks for the least name of the directory above `after`, or for the least one.
    Next {
        dir: u8,
        after: Option<u32>,
    },
}

/// What a call is answered.
#[derive(Clone, Copy, Debug, PartialEq, Eq)]
pub enum DirReply {
    /// The number of a file.
    Ino(u64),
    Done,
    /// The name is there already.
    Exists,
    /// The name isn't there.
    Absent,
    /// How many names there are.
    Number(u32),
    Name(u32),
    /// There is no further name.
    End,
}

/// A name of a directory, with the number of its file.
#[derive(Clone, Copy, Debug, Default, PartialEq, Eq)]
pub struct DirRow {
    pub dir: u8,
    pub name: u32,
    pub ino: u64,
}
