/// A result that is ready, or the data for a result that must be signed first.
#[derive(Drop)]
pub enum ReadyOrUnsigned<R, U> {
    Ready(R),
    Unsigned(U),
}
