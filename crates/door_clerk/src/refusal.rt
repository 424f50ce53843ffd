//! Why a request isn't allowed.

/// Which part of a rule refused a request. Where several parts would refuse it, this is the first
/// of them, in the order of the variants.
#[derive(Clone, Copy, Debug, PartialEq, Eq)]
pub enum DoorRefusal {
    /// Requests of this kind are not allowed.
    Kind,
    /// The touch has a gate number that is in no range of the rule.
    Gate,
    /// The touch came faster than is allowed.
    Rate,
    /// The moment of a new touch is further ahead of the server's clock than is allowed.
    Ahead,
    /// A new touch would take room of the journal that is reserved for others.
    Reserve,
}
