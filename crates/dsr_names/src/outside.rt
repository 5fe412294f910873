/// A reader or a writer outside the proof: nothing is known about it but what it gave or took.
#[derive(Drop)]
pub struct Outside<T>(pub T);
