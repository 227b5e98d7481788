//! Digests of names.

ghost use Rattle.std.specs.Prelude.{◌≡◌};
ghost use Rattle.side_file.specs.Digest.{digest_of};

use rr_ids::Name;

// The digest of bytes.
fn digest_of_bytes(bytes: &[u8]) -> u64
    ensures { result ≡ digest_of bytes.now }
{
    let mut digest = 14_695_981_039_346_656_037u64;
    for byte in bytes {
        digest = (digest ^ u64::from(*byte)).wrapping_mul(1_099_511_628_211);
    }
    digest
}

/// A number of a name, the same for equal names, by which most names are told apart at once. Names that share one are
/// told apart by their bytes, so that a set of names behind their digests is quick for any choice of names.
pub(crate) fn digest(name: &Name) -> u64
    ensures { result ≡ digest_of name.now }
{
    digest_of_bytes(name.bytes())
}
