//! The digests by which tables and journals are named.

/// How many bytes a digest has.
pub const DIGEST_SIZE: usize = 32;

/// A SHA-256 digest.
pub type Digest = [u8; DIGEST_SIZE];
