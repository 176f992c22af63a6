//! The outside as the program sees it: files to read, sinks to write to, and a gate before each attempt.
#![tactic(auto)]

mod error;
mod files;
mod gate;
mod listed;
mod mem_files;
mod mem_sink;
mod named_file;
mod os_files;
mod os_sink;
mod reading;
mod sink;
mod sure_files;
mod sure_sink;
mod tries;
mod words;
mod writing;

pub use error::{Failed, NoMemory, OutsideError, ReadError, WriteError};
pub use files::Files;
pub use gate::{Gate, NoGate};
pub use mem_files::MemFiles;
pub use mem_sink::MemSink;
pub use os_files::OsFiles;
pub use os_sink::OsSink;
pub use reading::read_whole;
pub use sink::Sink;
pub use sure_files::SureFiles;
pub use sure_sink::SureSink;
pub use words::is_file_name;
pub use writing::{write_line, write_whole};
