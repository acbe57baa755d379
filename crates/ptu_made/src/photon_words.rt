// The words of one photon.

/// One photon as it stands in the file.
#[derive(Clone, Copy)]
pub(crate) struct PhotonWords {
    /// A wrap comes before it.
    pub(crate) wraps: bool,
    /// Its own word.
    pub(crate) word: u32,
}
