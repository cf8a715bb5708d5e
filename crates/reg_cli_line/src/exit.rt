//! How a run ends.

/// How a run ended: its status, and the line for standard error (empty if none).
#[derive(Clone, Copy, Debug, PartialEq, Eq)]
pub struct Exit {
    /// 0 done, 1 refused, 2 bad arguments, 3 a fault of storage, memory or a stream.
    pub status: u8,
    pub message: &'static str,
}

impl Exit {
    /// All is done.
    pub const DONE: Exit = Exit {
        status: 0,
        message: "",
    };
    /// Out of memory.
    pub const MEMORY: Exit = Exit {
        status: 3,
        message: "memory",
    };
    /// The store, or another file, failed.
    pub const STORAGE: Exit = Exit {
        status: 3,
        message: "storage",
    };
    /// The arguments are bad, which their parser did not see.
    pub const BAD_WORDS: Exit = Exit {
        status: 2,
        message: "bad words",
    };
}
