//! Files and outputs, each with a count of its failures, in memory and of the operating system.
//!
//! The traits `Files` and `Sink` say what a source of files and an output do. A source may also tell what its files
//! hold and which of them were started, and an output what it took. `MemFiles` and `MemSink` are in memory, tell what
//! they hold and took, and can be told to fail at given calls. `OsFiles` and `OsSink` are those of the operating
//! system: they are proved against the same traits, but tell no content. So all code below `program` is the same for a
//! file in memory and for one on a disk.
//!
//! No other crate reads or writes what a file holds, and a run writes through a `Sink` alone. What else of the system
//! is reached stands elsewhere: words in `critarea_core::system_words`; threads in `rect_cover` and `tile_work`; and of
//! the second program the words and the printing in `explain`, and what stands at a file's name in
//! `explanation::OsPaths`.
#![tactic(auto)]

mod counts;
pub mod files;
pub mod memory_files;
pub mod memory_sink;
pub mod sink;
pub mod system_files;
pub mod system_sink;
pub mod whole;

pub use files::{Failed, Files};
pub use memory_files::MemFiles;
pub use memory_sink::MemSink;
pub use sink::Sink;
pub use system_files::OsFiles;
pub use system_sink::OsSink;
pub use whole::{ReadError, read_whole, write_all};
