//! Where bytes come from and go to: sources and sinks that may fail, and count how often they did.
#![tactic(auto)]

mod faults;
mod mem_sink;
mod mem_source;
mod never_sink;
mod never_source;
mod read;
mod sink;
mod source;
mod std_sink;
mod std_source;
mod table;
mod text_buffer;
mod write;

pub use df_sequence::NoMemory;
pub use faults::Failed;
pub use mem_sink::MemSink;
pub use mem_source::MemSource;
pub use never_sink::NeverSink;
pub use never_source::NeverSource;
pub use read::{ReadEnd, read_all};
pub use sink::Sink;
pub use source::Source;
pub use std_sink::StdSink;
pub use std_source::StdSource;
pub use text_buffer::TextBuffer;
pub use write::{WriteFault, write_all};
