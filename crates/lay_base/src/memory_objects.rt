//! Objects in memory, whose contents are known, and which fail at the calls that they are given.

mod host;
mod plan;
mod sink;
mod source;

pub use host::MemHost;
pub use sink::MemSink;
pub use source::MemSource;
