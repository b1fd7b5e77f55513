//! Reads requests and writes replies as lines of JSON.
//!
//! A script is a text of request lines. It is read from a [`Source`], each request is run on an
//! engine, and its reply is written to a [`Sink`] as one line.
//!
//! What is written is a function of what was read: `script` of `specs/Script.antt`. This holds over
//! any source and sink that show their bytes, however they cut them.
#![tactic(auto)]

mod decode;
mod device;
mod digits;
mod exchange;
mod fault;
mod laws;
mod lines;
mod page;
mod read;
mod reply;
mod request;
mod scan;
mod script;
mod status;

pub use device::{
    DeviceFailed, MemorySink, MemorySource, ReaderSource, Sink, Source, WriterSink, put,
};
pub use exchange::{Responder, answer_requests};
pub use fault::ScriptFault;
pub use laws::alike_worlds_have_one_script;
pub use lines::Lines;
pub use read::{next_request, read_request};
pub use reply::{Reply, done, seen, write_reply};
pub use request::{Request, WireFault};
pub use script::{answer, run_script};
