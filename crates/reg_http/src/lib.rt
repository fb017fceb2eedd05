//! The HTTP front end of the desk: one request in, one response out.
#![tactic(auto)]

mod answered;
mod bodies;
mod changes;
mod exchange;
mod lists;
mod meaning;
mod paths;
mod respond;
mod route;
pub mod routes;
mod serve;

pub use answered::{HttpAnswer, LoggedRevocationRequest};
pub use bodies::json;
pub use changes::answer_changes;
pub use exchange::{Exchange, UnsignedResponse, begun_exchange, text_buffer};
pub use lists::answer_list;
pub use reg_http_head::Answer;
pub use route::Route;
pub use routes::{begin, only_get, refuse, report_fault, serial_of, try_later};
pub use serve::serve_one;
