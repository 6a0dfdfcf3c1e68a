// The checksum of docs/RECORDED.md.

const PRIME: u64 = 1099511628211;

// Of whole words; bytes past the last one do not count.
pub(crate) fn checksum(bytes: &[u8]) -> u64 {
    let mut h: u64 = 14695981039346656037;
    for word in bytes.chunks_exact(8) {
        h = (h ^ bytes_words::word_at(word, 0)).wrapping_mul(PRIME);
    }
    h
}
