/// The state of a box.
#[derive(Drop)]
pub enum BoxState {
    /// It holds nothing: all that was posted there was taken.
    Empty,
    /// Its poster fills it: all that was posted there was taken.
    BeingFilled,
    /// It holds an envelope: all that was posted there was taken but this one.
    Full,
    /// Its taker empties it: all that was posted there was taken.
    BeingEmptied,
}
