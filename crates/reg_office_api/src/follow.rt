//! Why pages of another register's changes feed are not entered.

ghost use Rattle.std.specs.Prelude.{◌≡◌, ◌++◌, OnOk};
ghost use Rattle.reg_office_api.specs.BrokenFeeds.{broken_line, part_name as name_of_part, row_number_text, rule_text};

use reg_core::{Decimal, Refusal};
use std::alloc::AllocError;

/// A part of a page of the changes feed.
#[derive(Clone, Copy, PartialEq, Eq)]
pub enum FeedPart {
    /// The lines before the rows.
    Head,
    Subscriber,
    Order,
    Certificate,
    Request,
    Declined,
    Revocation,
    Crl,
    /// The last line, with the positions.
    Positions,
}

/// The rule that a part of a page breaks.
#[derive(Clone, Copy, PartialEq, Eq)]
pub enum FeedRule {
    /// The register refuses the command that enters such a row.
    Refused(Refusal),
    /// The command enters another row: with another id or number, or another field.
    OtherRow,
    /// The Name, the key, or a key identifier of an issued CRL is another one.
    OtherIssuer,
    /// The cap, or how long CRLs or OCSP answers are valid, is another one.
    OtherPolicy,
    /// The octets of a CRL are not those that this register makes from its records, its signer's algorithm, and the CRL's number and signature.
    OtherCrl,
    /// A CRL's signature does not have the form of one, or its placeholder digest is another one.
    NoSignature,
    /// The positions are not those of the records after the pages.
    OtherPositions,
    /// The last page does not end the feed: more rows come after it. Or there is no page.
    NoEnd,
}

/// A part of a page that breaks a rule.
#[derive(Clone, Copy, PartialEq, Eq)]
pub struct BrokenFeed {
    pub part: FeedPart,
    /// The id or number of the row; of a certificate the id of its order, of a revocation that of its request; 0 for no row.
    pub row: u64,
    pub why: FeedRule,
}

/// Why pages were not entered. The records are as before.
#[derive(Clone, Copy, PartialEq, Eq)]
pub enum FollowFault {
    Broken(BrokenFeed),
    Memory,
    Store,
}

impl BrokenFeed {
    /// Appends the line of this fault, without LF: the part, the row if there is one, and the rule. `AllocError` if out of memory.
    #[tactic(auto, unfolding(crate::specs::BrokenFeeds::broken_line))]
    pub fn put(&self, text: &mut Vec<u8>) -> Result<(), AllocError>
        ensures { OnOk result (text.new.items ≡ text.old.items ++ broken_line self.now) }
    {
        text.extend_from_slice(part_name(self.part).as_bytes())?;
        text.push(b' ')?;
        put_row(text, self.row)?;
        put_rule(text, &self.why)
    }
}

fn put_row(text: &mut Vec<u8>, row: u64) -> Result<(), AllocError>
    ensures { OnOk result (text.new.items ≡ text.old.items ++ row_number_text row) }
{
    if row == 0 {
        return Ok(());
    }
    text.extend_from_slice(Decimal::of(row).as_bytes())?;
    text.push(b' ')?;
    Ok(())
}

fn put_rule(text: &mut Vec<u8>, why: &FeedRule) -> Result<(), AllocError>
    ensures { OnOk result (text.new.items ≡ text.old.items ++ rule_text why.now) }
{
    match *why {
        FeedRule::Refused(refusal) => text.extend_from_slice(refusal.line().as_bytes()),
        FeedRule::OtherRow => text.extend_from_slice(b"other-row"),
        FeedRule::OtherIssuer => text.extend_from_slice(b"other-issuer"),
        FeedRule::OtherPolicy => text.extend_from_slice(b"other-policy"),
        FeedRule::OtherCrl => text.extend_from_slice(b"other-crl"),
        FeedRule::NoSignature => text.extend_from_slice(b"no-signature"),
        FeedRule::OtherPositions => text.extend_from_slice(b"other-positions"),
        FeedRule::NoEnd => text.extend_from_slice(b"no-end"),
    }
}

fn part_name(part: FeedPart) -> &'static str
    ensures { result.now ≡ name_of_part part }
{
    match part {
        FeedPart::Head => "head",
        FeedPart::Subscriber => "subscriber",
        FeedPart::Order => "order",
        FeedPart::Certificate => "certificate",
        FeedPart::Request => "request",
        FeedPart::Declined => "declined",
        FeedPart::Revocation => "revocation",
        FeedPart::Crl => "crl",
        FeedPart::Positions => "positions",
    }
}
