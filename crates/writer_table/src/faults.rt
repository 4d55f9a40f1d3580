//! Why a table has no texts.
use cake_base::NoMemory;
use std::alloc::{AllocError, AllocFailed};

#[derive(Clone, Copy)]
pub enum Fault {
    Memory,
    /// A word that says nothing where it stands, or a table that ends too early or nests too deep.
    Word,
}

impl From<NoMemory> for Fault {
    fn from(_: NoMemory) -> Self {
        Fault::Memory
    }
}

impl From<AllocError> for Fault {
    fn from(_: AllocError) -> Self {
        Fault::Memory
    }
}

impl<T: Drop> From<AllocFailed<T>> for Fault {
    fn from(_: AllocFailed<T>) -> Self {
        Fault::Memory
    }
}
