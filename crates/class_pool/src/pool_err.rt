ghost use Rattle.std.specs.Prelude.{◌≡◌};

use std::alloc::{AllocError, AllocFailed};
use thiserror::Error;

/// Why a pool takes no further entry.
#[derive(Clone, Copy, Debug, Error)]
pub enum PoolErr {
    /// An index would pass 65,534.
    #[error("the constant pool is full")]
    Full,
    /// Want of memory.
    #[error("out of memory")]
    Memory,
}

impl From<AllocError> for PoolErr {
    ghost use Rattle.class_pool.specs.declared.pool_err.PoolErr.TheVariants as err;

    ghost from_gives = { λ _ e. e ≡ err.Memory };

    fn from(_error: AllocError) -> PoolErr {
        PoolErr::Memory
    }
}

impl From<item_types::Memory> for PoolErr {
    ghost use Rattle.class_pool.specs.declared.pool_err.PoolErr.TheVariants as err;

    ghost from_gives = { λ _ e. e ≡ err.Memory };

    fn from(_error: item_types::Memory) -> PoolErr {
        PoolErr::Memory
    }
}

impl<T: Drop> From<AllocFailed<T>> for PoolErr {
    ghost use Rattle.class_pool.specs.declared.pool_err.PoolErr.TheVariants as err;

    ghost from_gives = { λ _ e. e ≡ err.Memory };

    fn from(_error: AllocFailed<T>) -> PoolErr {
        PoolErr::Memory
    }
}
