//! Reads an HTTP/1.0 or HTTP/1.1 request, its head by the grammar of the crate `httparse`, and writes the text of a response (RFC 9112).
#![tactic(auto)]

mod answer;
mod collected;
mod fields;
mod head;
pub mod laws;
mod request;
mod response;
mod response_head;
mod scan_state;
pub mod status;

pub use answer::Answer;
pub use collected::Collected;
pub use request::{Request, RequestRef, read_request};
pub use response::{RESPONSE_HEAD_ROOM, memory_fault, put, put_answer, write_answer};
pub use response_head::{ResponseHead, ResponseStart, read_response_start};
