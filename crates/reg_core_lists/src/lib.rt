//! The lists of a register: their rows, pages, and texts as CSV and JSON; and the pages of its changes feed, by which a program copies the register.
#![tactic(auto)]

mod cursor;
mod feed;
mod feed_fields;
mod feed_items;
mod feed_lines;
mod feed_reader;
mod fields;
mod filter;
mod list_parameters;
mod positions;
mod rows;
mod texts;

pub use cursor::Cursor;
pub use feed::{FeedCrl, FeedPage, FeedRows, MOST_ROWS, digest_of, revocations_until_next_crl};
pub use feed_lines::{FeedLine, put_head};
pub use feed_reader::{FeedHead, PageFault, ReceivedPage, read_feed_page};
pub use fields::ground_word;
pub use filter::Filter;
pub use list_parameters::{PageQuery, read_page, read_prefix};
pub use positions::{
    Declines, Positions, RowCounts, WINDOW, no_declines, put_positions, zero_counts,
};
pub use rows::{
    ListedCertificate, ListedOrder, ListedRequest, ListedRevocation, Page, RequestWithState, Row,
};
pub use texts::{Format, header, page_text, put_rows};
