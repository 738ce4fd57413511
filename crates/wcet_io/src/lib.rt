//! Files to read, a sink to write to, and the words of a command.
//! The contracts of the two traits say which bytes came and went, and when the outside failed.
//! Objects in memory tell what they hold; the real ones tell nothing.
//!
//!     let name = Text::from_str(alloc, "engine.oil")?;
//!     let mut files = MemFiles::new(alloc);
//!     files.put(Text::from_str(alloc, "engine.oil")?, Bytes::from_slice(alloc, b"CPU")?)?;
//!     let bytes = files.read(alloc, &name, 4096)?;    // the three bytes
#![tactic(auto)]

mod append;
mod failed_reads;
mod fault;
mod files;
mod host_files;
mod host_sink;
mod mem_files;
mod mem_sink;
mod named_files;
mod sink;
mod sure_files;
mod sure_sink;
mod text;

pub use fault::{FileFault, SinkFault};
pub use files::Files;
pub use host_files::HostFiles;
pub use host_sink::HostSink;
pub use listed::Memory;
use listed::{Listed, ListedNumbers};
pub use mem_files::MemFiles;
pub use mem_sink::MemSink;
pub use sink::Sink;
pub use sure_files::SureFiles;
pub use sure_sink::SureSink;
pub use text::Text;

/// A list of bytes, such as the content of a file.
pub type Bytes = ListedNumbers<u8>;

/// The words of a command, without the program's name.
pub type Words = Listed<Text>;
