//! What was made, or want of memory.
use std::alloc::AllocError;

/// What a call makes that may want memory.
pub type Made<T> = Result<T, AllocError>;
