//! The changes feed's answer to a client's positions (how far its copy of the register has got): the text of the page after the positions,
//! or `Diverged` if the positions are not in the history of this register, as after it was restored from a backup.

#[derive(Drop)]
pub enum Changes {
    Page(Vec<u8>),
    Diverged,
}
