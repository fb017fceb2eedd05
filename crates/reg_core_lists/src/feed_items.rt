//! Reads the rows of a page of the changes feed, each a line of a word and fields, and the steps of a schedule. `line_after(word, text)` gives the
//! fields of the first line if `word` begins it, and the text after. `next_value` reads a field. `feed_reader.rt` refuses what `desk` wouldn't write.

ghost use Rattle.std.specs.Prelude.{◌≡◌, ◌<◌, ◌+◌, ℕ, List, IfOk, codes, length};
ghost use Rattle.reg_core_lists.specs.FeedReading.{ReadsItems, certificate_row_of, declined_id_of, order_row_of, request_row_of, revocation_row_of, row_read, step_read, subscriber_row_of};

use crate::feed_fields::{after_prefix, line_after, next_value, take_field};
use reg_core::{CertRow, Moment, OrderRow, RequestRow, RevocationRow, SubscriberRow, read_number};
use std::alloc::{AllocError, Global};

/// The octets of a moment, `YYYY-MM-DDTHH:MM:SSZ`.
const MOMENT_OCTETS: usize = 20;

/// What a text can begin with: the line of a row or of a declined request's id, or a step of a schedule.
pub(crate) trait Leading: Copy {
    ghost use Rattle.std.specs.Prelude.{ℕ, List, Option, ◌≡◌, ◌<◌, IfSome, length, option_map};

    ghost read: { List ℕ → Option (Self × List ℕ) };

    /// The value at the beginning of the text, and the text after it; `None` if no such value is there.
    fn read(text: &[u8]) -> Option<(Self, &[u8])>
        ensures value { option_map (λ it. (it.0, it.1.now)) result ≡ read text.now }
        ensures shorter { IfSome result (λ it. length it.1.now < length text.now) };
}

/// The values of the kind `T` at the beginning of the text, as many as there are, and the text after them.
pub(crate) fn read_all<T: Leading>(
    alloc: Global,
    text: &[u8],
) -> Result<(Vec<T>, &[u8]), AllocError>
    ensures { IfOk result (λ it. ReadsItems T.read it.0.items text.now it.1.now) }
{
    let mut items = Vec::new(alloc);
    let mut rest = text;
    while let Some(found) = T::read(rest) {
        items.push(found.0)?;
        rest = found.1;
    }
    Ok((items, rest))
}

impl Leading for SubscriberRow {
    ghost read = { row_read (codes "subscriber") subscriber_row_of };

    #[tactic(auto, unfolding(crate::specs::FeedReading::row_read, crate::specs::FeedReading::subscriber_row_of))]
    fn read(text: &[u8]) -> Option<(SubscriberRow, &[u8])> {
        let (mut fields, behind) = line_after(b"subscriber", text)?;
        let row = SubscriberRow {
            id: next_value(&mut fields)?,
            name: next_value(&mut fields)?,
        };
        Some((row, behind))
    }
}

impl Leading for OrderRow {
    ghost read = { row_read (codes "order") order_row_of };

    #[tactic(auto, unfolding(crate::specs::FeedReading::row_read, crate::specs::FeedReading::order_row_of))]
    fn read(text: &[u8]) -> Option<(OrderRow, &[u8])> {
        let (mut fields, behind) = line_after(b"order", text)?;
        let row = OrderRow {
            id: next_value(&mut fields)?,
            subscriber: next_value(&mut fields)?,
            days: next_value(&mut fields)?,
        };
        Some((row, behind))
    }
}

impl Leading for CertRow {
    ghost read = { row_read (codes "certificate") certificate_row_of };

    #[tactic(auto, unfolding(crate::specs::FeedReading::row_read, crate::specs::FeedReading::certificate_row_of))]
    fn read(text: &[u8]) -> Option<(CertRow, &[u8])> {
        let (mut fields, behind) = line_after(b"certificate", text)?;
        let row = CertRow {
            serial: next_value(&mut fields)?,
            order: next_value(&mut fields)?,
            not_before: next_value(&mut fields)?,
            not_after: next_value(&mut fields)?,
        };
        Some((row, behind))
    }
}

/// `ground`: why to revoke (docs/RULES.md, "Grounds"). `declined` is `false` here: the id of a declined request has a line of its own.
impl Leading for RequestRow {
    ghost read = { row_read (codes "request") request_row_of };

    #[tactic(auto, unfolding(crate::specs::FeedReading::row_read, crate::specs::FeedReading::request_row_of))]
    fn read(text: &[u8]) -> Option<(RequestRow, &[u8])> {
        let (mut fields, behind) = line_after(b"request", text)?;
        let row = RequestRow {
            id: next_value(&mut fields)?,
            serial: next_value(&mut fields)?,
            ground: next_value(&mut fields)?,
            received: next_value(&mut fields)?,
            declined: false,
        };
        Some((row, behind))
    }
}

/// The id of a declined request.
impl Leading for u64 {
    ghost read = { row_read (codes "declined") declined_id_of };

    #[tactic(auto, unfolding(crate::specs::FeedReading::row_read, crate::specs::FeedReading::declined_id_of))]
    fn read(text: &[u8]) -> Option<(u64, &[u8])> {
        let (mut fields, behind) = line_after(b"declined", text)?;
        Some((next_value(&mut fields)?, behind))
    }
}

/// `reason` is the reasonCode of the request's ground, `first` the number of the first CRL that lists the revocation, issued or not.
impl Leading for RevocationRow {
    ghost read = { row_read (codes "revocation") revocation_row_of };

    #[tactic(auto, unfolding(crate::specs::FeedReading::row_read, crate::specs::FeedReading::revocation_row_of))]
    fn read(text: &[u8]) -> Option<(RevocationRow, &[u8])> {
        let (mut fields, behind) = line_after(b"revocation", text)?;
        let row = RevocationRow {
            serial: next_value(&mut fields)?,
            at: next_value(&mut fields)?,
            reason: next_value(&mut fields)?,
            request: next_value(&mut fields)?,
            first: next_value(&mut fields)?,
        };
        Some((row, behind))
    }
}

/// A step of a schedule, `MOMENT=DAYS`: the longest validity of certificates with a notBefore from that moment up to the next step's.
impl Leading for (Moment, u64) {
    ghost read = { step_read };

    #[tactic(auto, unfolding(crate::specs::FeedReading::step_read))]
    fn read(text: &[u8]) -> Option<((Moment, u64), &[u8])> {
        let (step, behind) = take_field(text)?;
        let (from, days) = step.split_at_checked(MOMENT_OCTETS)?;
        let from = Moment::read(from)?;
        let days = read_number(after_prefix(b"=", days)?)?;
        Some(((from, days), behind))
    }
}
