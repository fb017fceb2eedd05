//! Laws of the definitions: a function here does nothing, and its contract is the law.

ghost use Rattle.reg_http_head.specs.Laws.{ArePhrases, IsOneRequest, IsOneResponseHead, IsOneText};

/// The reason phrases of the desk's status codes (RFC 9112 4) are those of the crate `http`. The law leaves out 429, which was added later.
pub fn phrases()
    ensures { ArePhrases }
{}

/// The bytes of a request have at most one meaning: a method, a target and a body.
pub fn one_request()
    ensures { IsOneRequest }
{}

/// The bytes of a connection begin with at most one accepted head of a response.
pub fn one_response_head()
    ensures { IsOneResponseHead }
{}

/// At a moment, a response has at most one text (its head and body).
pub fn one_text()
    ensures { IsOneText }
{}
