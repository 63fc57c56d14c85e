ghost use Rattle.std.specs.Prelude.{◌≡◌};
ghost use Rattle.nats_text.specs.Hash.{fnv1a};

const OFFSET_BASIS: u32 = 2_166_136_261;

const PRIME: u32 = 16_777_619;

/// The 32-bit FNV-1a hash of bytes (Fowler, Noll and Vo).
pub fn fnv1a(bytes: &[u8]) -> u32
    ensures { result ≡ fnv1a bytes.now }
{
    bytes.iter().fold(
        OFFSET_BASIS,
        |hash, byte| (hash ^ u32::from(*byte)).wrapping_mul(PRIME),
    )
}
