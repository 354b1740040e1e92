use thiserror::Error;

/// Why a shelf refused.
#[derive(Debug, Drop, Error)]
pub enum ShelfErr {
    /// The shelf tells its map, and the name isn't in it.
    #[error("no such file")]
    Absent,
    /// Reading or writing failed, and the shelf has counted it.
    #[error("the shelf failed")]
    Failed,
    /// Want of memory.
    #[error("out of memory")]
    Memory,
}

/// Why a sink refused.
#[derive(Debug, Drop, Error)]
pub enum SinkErr {
    /// Writing failed, and the sink has counted it.
    #[error("the sink failed")]
    Failed,
    /// Want of memory.
    #[error("out of memory")]
    Memory,
}
