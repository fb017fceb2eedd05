ghost use Rattle.std.specs.Prelude.{◌≤◌, length, option_map};
ghost use Rattle.reg_http_head.specs.Allow.{allowed};

/// The parts of a response (RFC 9110 15, 8.3, 10.2.1). The limits of 64 bytes keep its head within [`RESPONSE_HEAD_ROOM`](crate::RESPONSE_HEAD_ROOM).
#[derive(Drop)]
pub struct Answer {
    /// The status code, one of [`status`](crate::status).
    pub status: u16,
    /// The media type of the body, at most 64 bytes.
    pub kind: &'static str,
    /// The method that Allow names, if the status code is 405: at most 64 bytes.
    pub allow: Option<&'static str>,
    pub body: Vec<u8>,
    ghost short_kind: { length kind.now ≤ 64 },
    ghost short_allow: { length (allowed (option_map (λ method. method.now) allow)) ≤ 64 },
}
