//! A law (a proved theorem) about lines at a control socket. The function does nothing: its contract is the law.

ghost use Rattle.reg_desk_service.specs.OwnReplies.{EachHasItsReply};

use crate::machine::Machine;

/// If [`crate::Desk`] answers several lines together, each line has its own reply: what the line alone gets at that moment. So the premise of
/// `each_line_is_answered_once_in_order` (reg_desk_server), `HasOwnReplies`, holds of each call for records that stand and a clean disk.
pub fn each_line_has_its_own_reply<M: Machine>()
    ensures { EachHasItsReply M.Office.signs M.clock_reached M.Office.is_clean M.Office.stands }
{}
