//! The outside of the tool: named files, streams of bytes and random words, behind calls that may fail.
#![tactic(auto)]

mod buffers;
mod counts;
pub mod crash_examples;
mod device_words;
mod disk_changes;
mod disk_host;
mod faults;
mod files;
mod handles;
mod host;
mod list_words;
mod mem_calls;
mod mem_host;
mod memory;
mod names;
mod new_files;
mod numbers;
mod open_files;
mod side_file;
mod std_sink;
mod std_source;
mod storage;
mod streams;
mod tear;
mod text;
mod told;
mod words;

pub use buffers::{MemSink, MemSource};
pub use device_words::DeviceWords;
pub use disk_host::DiskHost;
pub use faults::{HostFault, Memory, StreamFault, WordsFault};
pub use host::Host;
pub use list_words::ListWords;
pub use memory::MemHost;
pub use names::{is_name, is_target};
pub use numbers::read_number;
pub use side_file::write_by_side_file;
pub use std_sink::StdSink;
pub use std_source::StdSource;
pub use streams::{Sink, Source};
pub use tear::Tear;
pub use text::{Bytes, Text};
pub use words::Words;
