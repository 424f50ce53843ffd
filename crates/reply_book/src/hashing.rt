//! How names are hashed, by numbers that nobody knows who chooses names.

ghost use Rattle.std.specs.Prelude.{◌≡◌};
ghost use Rattle.std.specs.Hash.FoldHasher.{folded_multiply};
ghost use Rattle.reply_book.specs.Hashing.{hashing_of, hasher_of, hasher_after, hash_of};

use std::hash::{BuildHasher, FoldHasher, Hasher};
use std::random::RandomSource;

/// What a fixed hashing begins with: digits of π.
const FIXED_START: u64 = 0x1319_8a2e_0370_7344;
/// What a fixed hashing multiplies by: digits of π.
const FIXED_MULTIPLIER: u64 = 0xa409_3822_299f_31d1;

/// How the names of touches are hashed: their gates and numbers.
///
/// Gates choose these names. Whoever knows how they are hashed can choose 100,000 that make each
/// look-up go through all others. So a program hashes them by random numbers, which no name was
/// chosen by: a fold from a random start, and one more by a random multiplier. Entries stand in
/// the order in which they were made, and no reply depends on the hashing.
#[derive(Clone, Copy)]
pub struct NameHashing {
    /// The fold of the random start alone.
    start: FoldHasher,
    /// The random multiplier, an odd one.
    multiplier: u64,
}

/// The hash of one name under way.
#[derive(Clone, Copy)]
pub struct NameHasher {
    /// The fold of the random start and of what was written.
    folded: FoldHasher,
    /// The random multiplier.
    multiplier: u64,
}

impl NameHashing {
    /// A hashing by random numbers of the system. Where it gives none, it is `fixed`: look-ups are
    /// right by any numbers, and a station that opens slowly is better than one that doesn't.
    pub fn random<R: RandomSource>(rt: &R) -> NameHashing {
        let mut bytes = [0; 16];
        if rt.fill_bytes(&mut bytes).is_err() {
            return NameHashing::fixed();
        }
        let numbers = u128::from_le_bytes(bytes);
        NameHashing::by(
            (numbers & 0xFFFF_FFFF_FFFF_FFFF) as u64,
            (numbers >> 64) as u64,
        )
    }

    /// A hashing by numbers that everybody knows, for names that no stranger chose.
    pub fn fixed() -> NameHashing
        ensures { result ≡ hashing_of 0x1319_8a2e_0370_7344 0xa409_3822_299f_31d1 }
    {
        NameHashing::by(FIXED_START, FIXED_MULTIPLIER)
    }

    /// A hashing by these numbers. The multiplier is made odd: by 0 all names would be alike.
    fn by(start: u64, multiplier: u64) -> NameHashing
        ensures { result ≡ hashing_of start multiplier }
    {
        let mut hasher = FoldHasher::default();
        hasher.write_u64(start);
        NameHashing {
            start: hasher,
            multiplier: multiplier | 1,
        }
    }
}

impl BuildHasher for NameHashing {
    type Hasher = NameHasher;

    ghost build_hasher = { hasher_of };

    #[inline(always)]
    fn build_hasher(&self) -> NameHasher {
        NameHasher {
            folded: self.start,
            multiplier: self.multiplier,
        }
    }
}

impl Hasher for NameHasher {
    ghost write = { hasher_after };

    ghost finish = { hash_of };

    #[inline(always)]
    fn finish(&self) -> u64 {
        folded_multiply(self.folded.finish(), self.multiplier)
    }

    #[inline(always)]
    fn write(&mut self, bytes: &[u8]) {
        self.folded.write(bytes);
    }
}

/// The halves of the product of two numbers, joined by exclusive or: each bit of it depends on
/// all bits of them.
#[inline(always)]
fn folded_multiply(a: u64, b: u64) -> u64
    ensures { result ≡ folded_multiply a b }
{
    let product = a as u128 * b as u128;
    (product & 0xFFFF_FFFF_FFFF_FFFF) as u64 ^ (product >> 64) as u64
}
