//! Numbers of records by which they are looked for.
ghost use Rattle.std.specs.Prelude.{◌≡◌};
ghost use Rattle.continued_files.specs.Hashes.{hash_of, hash_step};

/// After eight bytes more.
fn hash_after(hash: u64, word: &[u8; 8]) -> u64
    ensures { result ≡ hash_step hash word.now }
{
    hash.wrapping_mul(1_099_511_628_211)
        .wrapping_add(u64::from_le_bytes(*word))
}

/// The number of a record. Two records may have one number.
pub fn hash_of(bytes: &[u8; 512]) -> u64
    ensures { result ≡ hash_of bytes.now }
{
    let (words, _) = bytes.as_chunks::<8>();
    let mut hash = 14_695_981_039_346_656_037;
    for word in words {
        hash = hash_after(hash, word);
    }
    hash
}
