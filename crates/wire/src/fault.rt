//! Says why a script ended early.
use thiserror::Error;

/// Says why a script ended early. The requests that were answered keep their effect.
#[derive(Debug, Drop, Error)]
pub enum ScriptFault {
    /// Says that the source failed.
    #[error("read failed")]
    Read,
    /// Says that the sink failed.
    #[error("write failed")]
    Write,
    /// Says that it ran out of memory for the line's buffers, before the first request.
    #[error("out of memory")]
    Memory,
}
