//! The progress of a follower, in its `/health` and `/metrics`.

ghost use Rattle.std.specs.Prelude.{◌≡◌, ◌++◌, IfOk, OnOk};
ghost use Rattle.reg_core_lists.specs.Positions.{positions_text};
ghost use Rattle.reg_desk_metrics.specs.Followers.{failure_text, failure_value, flag_member, flag_sample, follower_health_text, follower_rows_text, follower_text, has_none, is_following, is_well_with, leader_text, number_member, progress_text, state_text};

use crate::health::Health;
use crate::samples::put_sample;
use crate::series_names::{
    FOLLOWER_CERTIFICATE_ROWS, FOLLOWER_CRL_ROWS, FOLLOWER_CURRENT, FOLLOWER_DIVERGED,
    FOLLOWER_LAG, FOLLOWER_ORDER_ROWS, FOLLOWER_REQUEST_ROWS, FOLLOWER_REVOCATION_ROWS,
    FOLLOWER_SUBSCRIBER_ROWS, PAGES_ENTERED, PAGES_REFUSED,
};
use reg_core::Decimal;
use reg_core_lists::{PageFault, Positions, RowCounts, put_positions};
use reg_office_api::{BrokenFeed, FollowFault};
use std::alloc::{AllocError, Global};

/// Why a follower's last request for changes failed.
#[derive(Clone, Copy, PartialEq, Eq)]
pub enum FeedFailure {
    /// The leader can't be reached, or its response is malformed or cut off.
    Unreachable,
    /// The response has this status code.
    Status(u16),
    /// The page is of another version of the feed.
    OtherVersion,
    /// The page can't be read.
    Malformed,
    /// A part of the page breaks a rule.
    Broken(BrokenFeed),
    /// The leader has more changes than the follower keeps in memory.
    TooFarBehind,
    /// The follower is out of memory.
    Memory,
    /// The follower's store failed.
    Store,
}

/// The progress of a follower.
#[derive(Clone, Copy)]
pub struct FollowerStatus {
    /// Whether the follower answers: it reached the leader within the lag that the operator allows.
    pub is_current: bool,
    /// The seconds since it asked for the changes that it entered last; since its start if it has entered none.
    pub lag: u64,
    pub positions: Positions,
    /// How many pages it entered, and how many it refused.
    pub entered: u64,
    pub refused: u64,
    /// Whether the leader lacks a record that the follower has.
    pub is_diverged: bool,
    /// Why its last request failed; `None` if that did not fail.
    pub failure: Option<FeedFailure>,
}

impl FollowerStatus {
    /// Whether the follower answers, and nothing failed.
    pub fn is_well(&self) -> bool
        ensures { result ≡ is_following self.now }
    {
        self.is_current && !self.is_diverged && is_none(self.failure)
    }

    /// Whether all is well with the follower and its register: then `GET /health` has status 200, else 503.
    pub fn is_well_with(&self, health: &Health) -> bool
        ensures { result ≡ is_well_with self.now health.now }
    {
        self.is_well() && health.is_well()
    }

    /// The body of a follower's answer to `GET /health`, in JSON (RFC 8259): the members that an open desk has, and `leader`.
    ///
    /// # Errors
    ///
    /// [`AllocError`] if out of memory.
    #[tactic(auto, unfolding(crate::specs::Followers::follower_health_text))]
    pub fn health_text(&self, alloc: Global, health: &Health) -> Result<Vec<u8>, AllocError>
        ensures { IfOk result (λ text. text.items ≡ follower_health_text self.now health.now) }
    {
        let mut text = Vec::new(alloc);
        health.put_members(&mut text, self.is_well_with(health))?;
        self.put_leader(alloc, &mut text)?;
        text.push(b'}')?;
        Ok(text)
    }

    /// Appends the member `leader`.
    #[tactic(auto, unfolding(crate::specs::Followers::leader_text))]
    fn put_leader(&self, alloc: Global, text: &mut Vec<u8>) -> Result<(), AllocError>
        ensures { OnOk result (text.new.items ≡ text.old.items ++ leader_text self.now) }
    {
        self.put_state(text)?;
        self.put_progress(alloc, text)?;
        text.push(b'}')?;
        Ok(())
    }

    /// Appends the name of the member `leader`, and its first three members.
    fn put_state(&self, text: &mut Vec<u8>) -> Result<(), AllocError>
        ensures { OnOk result (text.new.items ≡ text.old.items ++ state_text self.now) }
    {
        put_flag(text, b",\"leader\":{\"current\":", self.is_current)?;
        put_flag(text, b",\"diverged\":", self.is_diverged)?;
        text.extend_from_slice(b",\"failure\":")?;
        put_failure(text, self.failure)?;
        Ok(())
    }

    /// Appends the other members of `leader`.
    #[tactic(auto, unfolding(crate::specs::Followers::progress_text))]
    fn put_progress(&self, alloc: Global, text: &mut Vec<u8>) -> Result<(), AllocError>
        ensures { OnOk result (text.new.items ≡ text.old.items ++ progress_text self.now) }
    {
        put_number(text, b",\"lag\":", self.lag)?;
        put_number(text, b",\"pages\":", self.entered)?;
        text.extend_from_slice(b",\"positions\":\"")?;
        put_positions(alloc, text, &self.positions)?;
        put_number(text, b"\",\"refused\":", self.refused)
    }

    /// Appends the series that only a follower has, after those of an open desk.
    ///
    /// # Errors
    ///
    /// [`AllocError`] if out of memory.
    #[tactic(auto, unfolding(crate::specs::Followers::follower_text))]
    pub fn put_metrics(&self, text: &mut Vec<u8>) -> Result<(), AllocError>
        ensures { OnOk result (text.new.items ≡ text.old.items ++ follower_text self.now) }
    {
        put_flag_sample(text, FOLLOWER_CURRENT, self.is_current)?;
        put_sample(text, FOLLOWER_LAG, self.lag)?;
        put_rows(text, self.positions.counts)?;
        put_sample(text, PAGES_ENTERED, self.entered)?;
        put_sample(text, PAGES_REFUSED, self.refused)?;
        put_flag_sample(text, FOLLOWER_DIVERGED, self.is_diverged)
    }
}

fn is_none(failure: Option<FeedFailure>) -> bool
    ensures { result ≡ has_none failure }
{
    match failure {
        Some(_) => false,
        None => true,
    }
}

/// Appends a sample that is 1 or 0.
fn put_flag_sample(text: &mut Vec<u8>, series: &str, flag: bool) -> Result<(), AllocError>
    ensures { OnOk result (text.new.items ≡ text.old.items ++ flag_sample series.now flag) }
{
    if flag {
        put_sample(text, series, 1)
    } else {
        put_sample(text, series, 0)
    }
}

#[tactic(auto, unfolding(crate::specs::Followers::follower_rows_text))]
fn put_rows(text: &mut Vec<u8>, counts: RowCounts) -> Result<(), AllocError>
    ensures { OnOk result (text.new.items ≡ text.old.items ++ follower_rows_text counts) }
{
    put_sample(text, FOLLOWER_SUBSCRIBER_ROWS, counts.subscribers)?;
    put_sample(text, FOLLOWER_ORDER_ROWS, counts.orders)?;
    put_sample(text, FOLLOWER_CERTIFICATE_ROWS, counts.certificates)?;
    put_sample(text, FOLLOWER_REQUEST_ROWS, counts.requests)?;
    put_sample(text, FOLLOWER_REVOCATION_ROWS, counts.revocations)?;
    put_sample(text, FOLLOWER_CRL_ROWS, counts.crls)
}

#[tactic(auto, unfolding(crate::specs::Followers::flag_member))]
fn put_flag(text: &mut Vec<u8>, name: &[u8], flag: bool) -> Result<(), AllocError>
    ensures { OnOk result (text.new.items ≡ text.old.items ++ flag_member name.now flag) }
{
    text.extend_from_slice(name)?;
    if flag {
        text.extend_from_slice(b"true")
    } else {
        text.extend_from_slice(b"false")
    }
}

fn put_number(text: &mut Vec<u8>, name: &[u8], number: u64) -> Result<(), AllocError>
    ensures { OnOk result (text.new.items ≡ text.old.items ++ number_member name.now number) }
{
    text.extend_from_slice(name)?;
    text.extend_from_slice(Decimal::of(number).as_bytes())
}

/// Appends the line of a failure in quotation marks, or null.
#[tactic(auto, unfolding(crate::specs::Followers::failure_value))]
fn put_failure(text: &mut Vec<u8>, failure: Option<FeedFailure>) -> Result<(), AllocError>
    ensures { OnOk result (text.new.items ≡ text.old.items ++ failure_value failure) }
{
    match failure {
        None => text.extend_from_slice(b"null"),
        Some(failure) => {
            text.push(b'"')?;
            failure.put(text)?;
            text.push(b'"')?;
            Ok(())
        }
    }
}

impl FeedFailure {
    /// Appends its line, without LF.
    ///
    /// # Errors
    ///
    /// [`AllocError`] if out of memory.
    #[tactic(auto, unfolding(crate::specs::Followers::failure_text))]
    pub fn put(&self, text: &mut Vec<u8>) -> Result<(), AllocError>
        ensures { OnOk result (text.new.items ≡ text.old.items ++ failure_text self.now) }
    {
        match *self {
            FeedFailure::Unreachable => text.extend_from_slice(b"leader unreachable"),
            FeedFailure::Status(code) => put_number(text, b"leader answered ", u64::from(code)),
            FeedFailure::OtherVersion => text.extend_from_slice(b"page of another version"),
            FeedFailure::Malformed => text.extend_from_slice(b"malformed page"),
            FeedFailure::Broken(broken) => {
                text.extend_from_slice(b"broken page: ")?;
                broken.put(text)
            }
            FeedFailure::TooFarBehind => text.extend_from_slice(b"too far behind"),
            FeedFailure::Memory => text.extend_from_slice(b"F1 memory"),
            FeedFailure::Store => text.extend_from_slice(b"F2 store"),
        }
    }
}

impl From<PageFault> for FeedFailure {
    ghost use Rattle.std.specs.Prelude.{◌≡◌};
    ghost use Rattle.reg_desk_metrics.specs.Followers.{failure_of_page};

    ghost from_gives = { λ fault failure. failure ≡ failure_of_page fault };

    fn from(fault: PageFault) -> FeedFailure {
        match fault {
            PageFault::Version => FeedFailure::OtherVersion,
            PageFault::Malformed => FeedFailure::Malformed,
            PageFault::Memory => FeedFailure::Memory,
        }
    }
}

impl From<FollowFault> for FeedFailure {
    ghost use Rattle.std.specs.Prelude.{◌≡◌};
    ghost use Rattle.reg_desk_metrics.specs.Followers.{failure_of_follow};

    ghost from_gives = { λ fault failure. failure ≡ failure_of_follow fault };

    fn from(fault: FollowFault) -> FeedFailure {
        match fault {
            FollowFault::Broken(broken) => FeedFailure::Broken(broken),
            FollowFault::Memory => FeedFailure::Memory,
            FollowFault::Store => FeedFailure::Store,
        }
    }
}
