use dsr_envelope::Letter;
use dsr_script::Draft;

/// An envelope that was posted and not yet taken, with the draft that recorded it.
#[derive(Drop)]
pub(crate) struct Held<'a> {
    /// The envelope, which the boxes that hold it share.
    pub(crate) envelope: Letter,
    /// The draft that recorded it.
    pub(crate) draft: &'a Draft,
}
