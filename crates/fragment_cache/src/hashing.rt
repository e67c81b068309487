//! How URLs are hashed, for the map of a shard's entries and for whoever picks a shard by a URL.

ghost use Rattle.std.specs.Prelude.{◌≡◌, IfOk};
ghost use Rattle.std.specs.Hash.FoldHasher.{initial};
ghost use Rattle.fragment_cache.specs.Hashing.{hash_of, IsSeeded};

use edge_types::PageUrl;
use std::hash::{BuildHasher, FoldHasher, Hasher};
use std::io;
use std::random::RandomSource;

// How many bytes seed a hasher: a block of the hasher.
const SEED: usize = 16;

/// A way to hash URLs: with the hasher's own seed, which whoever chooses the URLs may know, or with a secret of the
/// process.
///
/// The hasher is fast, since a page takes several hashes of each of its stored fragments, and isn't cryptographic. Each
/// step multiplies its state with eight bytes of the URL, xor a constant that isn't ASCII. A URL is, so no factor is 0,
/// and the secret stays in the state.
#[derive(Clone, Copy)]
pub struct UrlHashing {
    // What hashes each URL has had the seed written.
    seeded: FoldHasher,
}

impl UrlHashing {
    /// Hashes with the hasher's fixed seed. Takes no memory.
    ///
    /// Our profile.
    pub fn fixed() -> UrlHashing
        ensures { result.seeded ≡ initial }
    {
        UrlHashing {
            seeded: FoldHasher::default(),
        }
    }

    /// Hashes with a secret, of 16 random bytes. Takes no memory.
    ///
    /// The system's error if it gives none.
    ///
    /// Our profile.
    pub fn secret(rt: &impl RandomSource) -> io::Result<UrlHashing>
        ensures { IfOk result IsSeeded }
    {
        let mut seed = [0; SEED];
        rt.fill_bytes(&mut seed)?;
        let mut hashing = UrlHashing::fixed();
        hashing.seeded.write(&seed);
        Ok(hashing)
    }

    /// The hash of a URL. Takes no memory.
    ///
    /// Our profile.
    pub fn hash(self, url: &PageUrl) -> u64
        ensures { result ≡ hash_of self url.now }
    {
        let mut hasher = self.build_hasher();
        hasher.write(url.as_bytes());
        hasher.finish()
    }
}

impl BuildHasher for UrlHashing {
    type Hasher = FoldHasher;

    ghost build_hasher = { λ hashing. hashing.seeded };

    fn build_hasher(&self) -> FoldHasher {
        self.seeded
    }
}
