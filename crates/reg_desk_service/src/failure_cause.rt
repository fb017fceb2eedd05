//! The cause of a failed call, and the argument, option or stream that the call was about.

ghost use Rattle.std.specs.Prelude.{◌≡◌, IfOk, IfSome, option_map};
ghost use Rattle.reg_desk_service.specs.FailureReports.{located_cause_line, location_suffix};

use reg_core::Cause;
use std::alloc::{AllocError, Global};

/// What a failed call was for: an argument or option of `desk`, or standard output. `Log`: the argument LOG of `desk replay`.
#[derive(Clone, Copy, PartialEq, Eq)]
pub enum Location {
    File,
    Socket,
    Import,
    Revoke,
    Log,
    Control,
    Port,
    Published,
    Embed,
    Responder,
    LogFile,
    Output,
}

/// The cause of a failed call, and the location that its line shows in parentheses, if it shows one.
#[derive(Clone, Copy, PartialEq, Eq)]
pub struct FailureCause {
    pub cause: Cause,
    pub location: Option<Location>,
}

impl FailureCause {
    /// A cause at a location; `None` if the cause is not known.
    pub fn at(location: Option<Location>, cause: Option<Cause>) -> Option<FailureCause>
        ensures cause { option_map (λ why. why.cause) result ≡ cause }
        ensures location { IfSome result (λ why. why.location ≡ location) }
    {
        match cause {
            Some(cause) => Some(FailureCause { cause, location }),
            None => None,
        }
    }

    /// The line for standard error, without LF: the cause, and the location in parentheses. Fails without memory.
    pub fn line(&self, alloc: Global) -> Result<Vec<u8>, AllocError>
        ensures { IfOk result (λ line. line.items ≡ located_cause_line self.now) }
    {
        let mut line = Vec::from_slice(alloc, self.cause.line().as_bytes())?;
        line.extend_from_slice(suffix_of(self.location).as_bytes())?;
        Ok(line)
    }
}

#[tactic(auto, unfolding(crate::specs::FailureReports::location_suffix))]
fn suffix_of(location: Option<Location>) -> &'static str
    ensures { result.now ≡ location_suffix location }
{
    match location {
        None => "",
        Some(Location::File) => " (FILE)",
        Some(Location::Socket) => " (SOCKET)",
        Some(Location::Import) => " (--import)",
        Some(Location::Revoke) => " (--revoke)",
        Some(Location::Log) => " (LOG)",
        Some(Location::Control) => " (--control)",
        Some(Location::Port) => " (--port)",
        Some(Location::Published) => " (--published)",
        Some(Location::Embed) => " (--embed)",
        Some(Location::Responder) => " (--responder)",
        Some(Location::LogFile) => " (--log-file)",
        Some(Location::Output) => " (standard output)",
    }
}
