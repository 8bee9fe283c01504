use hk_types::Time;

/// The range of times at which a replica can be read.
#[derive(Clone, Copy, Debug, PartialEq, Eq)]
pub struct Front {
    /// The horizon: the oldest readable time.
    pub horizon: Time,
    /// The resolved time: the greatest time that can be read.
    pub readable: Time,
}
