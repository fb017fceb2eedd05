//! An event loop for many connections on one thread: collects each HTTP client's request and answers it at most once; answers control lines in order.
#![tactic(auto)]

mod acceptor;
mod control_connection;
mod control_connections;
mod event_loop;
mod feed_exchange;
mod handler;
mod http_connection;
mod http_connections;
pub mod laws;
mod leader_stream;
mod poller;
mod request_bytes;
mod shared;
mod signature_requests;
mod slots;
mod stream;
mod unsent;
mod waiting_line;

pub use control_connection::{ControlConnection, line_end};
pub use event_loop::EventLoop;
pub use feed_exchange::{FeedExchange, FeedProgress};
pub use handler::{
    ConnectionCounts, ConnectionFault, Deferred, EventLoopFault, Handler, LineReplies,
};
pub use http_connection::{HttpConnection, NextStep};
pub use http_connections::MOST_HTTP_CONNECTIONS;
pub use leader_stream::LeaderStream;
pub use poller::as_would_block;
pub use stream::ClientStream;
