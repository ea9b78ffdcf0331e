//! Bytes in and out: sources and sinks; texts that are gathered before they go out; and the driver of handlers that answer lines, each
//! before more is asked for.
#![tactic(auto)]

mod call_log;
mod devices;
mod driver;
mod fault;
mod handler;
mod lines;
mod logged_io;
mod output;
mod stream;

pub use call_log::CallLog;
pub use devices::{FromRead, ToWrite};
pub use driver::serve_lines;
pub use fault::ServeFault;
pub use handler::{LineHandler, Text};
pub use lines::{MAX_KEPT_BYTES, first_line};
pub use logged_io::LoggedIo;
pub use stream::{Sink, Source, give_all};
