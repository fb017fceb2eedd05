//! Laws of a connection over any stream `S`, such as a TCP stream, from its accept on. Each law is the contract of a function that does nothing.

ghost use Rattle.std.specs.Prelude.{◌≡◌, []};
ghost use Rattle.reg_desk_server.specs.Connections.{AnyReplies, IsServedOnce, HasAnsweredLines, KeepsServed, ServesOn, AnswersNoMoreLines, AnswersMoreLines};
ghost use Rattle.reg_desk_server.specs.ControlLines.{DefersFirstLine, IsFresh, AnswersFirstLines, AnswersDeferred};
ghost use Rattle.reg_desk_server.specs.Stages.{Answering, Finishing, HasReceived, KeepsReceived};
ghost use Rattle.reg_desk_server.specs.declared.control_connection.ControlConnection.{ControlConnection};
ghost use Rattle.reg_desk_server.specs.declared.http_connection.HttpConnection.{HttpConnection};

use crate::handler::Handler;
use crate::stream::ClientStream;

/// The relation of a line, with its LF, and its reply. No type implements it: the law of lines needs only `answers_line`.
pub trait AnswersLine {
    ghost use Rattle.std.specs.Prelude.{ℕ, List};

    ghost answers_line: { List ℕ → List ℕ → Type 0 };
}

/// On a control connection each line is answered at most once, in order, and each reply is sent at most once, in order. `ControlConnection::advance`
/// answers no line, `answer_lines` none, one or several, and `answer_deferred` (clause `later`) at most one. After any such calls the bytes that came
/// are the answered lines, each with its LF, then the kept bytes, then bytes for which there was no memory (if there are any, the connection has
/// ended). The sent bytes and then the unsent ones are the replies: one for each answered line, in the order of the lines (`HasAnsweredLines`). This
/// presumes of each call of the handler that each line gets its own reply there, as `answers_line` states (`HasOwnReplies`). The relation of `Desk`
/// (reg_desk_service) has that for records that stand and a clean disk: `AnswersLinesAt` gives each line a reply by `AnswersLineAt`. By the clause
/// `any_replies` nothing is presumed if `answers_line` allows any reply. No clause states which bytes a socket carries.
pub fn each_line_is_answered_once_in_order<S: ClientStream, H: Handler, L: AnswersLine>()
    ensures begins { (client : ControlConnection S) → IsFresh client
        → HasAnsweredLines S.Write.contents S.Read.remaining H.answers_lines L.answers_line client.stream client [] [] }
    ensures advances { AnswersNoMoreLines S.Write.contents S.Read.remaining H.answers_lines L.answers_line }
    ensures answers_lines { AnswersMoreLines S.Write.contents S.Read.remaining H.answers_lines L.answers_line
        (AnswersFirstLines H.answers_lines) (λ s t _. t ≡ s) }
    ensures later { AnswersMoreLines S.Write.contents S.Read.remaining H.answers_lines L.answers_line
        (AnswersDeferred H.answers_lines H.defers) (DefersFirstLine H.defers) }
    ensures any_replies { AnyReplies }
{}

/// On an HTTP connection the request is answered at most once. While the connection receives, it keeps the bytes that came, except the last if there
/// was no memory for them. It sends nothing before its answer is finished. From then on the sent bytes and then the unsent ones are the answer to a
/// prefix of the bytes that came. The handler gets that prefix once; the bytes after it are dropped (`IsServedOnce`). This holds after any calls of
/// `HttpConnection::advance`, `answer`, `complete` (clause `finishes`) and `record_fault` (clause `faults`).
pub fn each_request_is_answered_at_most_once<S: ClientStream, H: Handler>()
    ensures begins { (client : HttpConnection S H H.Ticket H.ControlTicket) → HasReceived client.stage []
        → IsServedOnce S.Write.contents S.Read.remaining H.Handler client.stream client }
    ensures advances { ServesOn S.Write.contents S.Read.remaining H.Handler }
    ensures answers { (s t : H)
        → KeepsServed S.Write.contents S.Read.remaining H.Handler (Answering H.answers s t) }
    ensures finishes { (s : H)
        → KeepsServed S.Write.contents S.Read.remaining H.Handler (Finishing (H.finishes s)) }
    ensures faults { KeepsServed S.Write.contents S.Read.remaining H.Handler KeepsReceived }
{}
