// Bytes of a string as little-endian numbers.
ghost use Rattle.std.specs.Prelude.{◌≡◌, ◌-◌, ◌*◌, ◌^◌, ◌<◌, length, drop};
ghost use Rattle.hash_state.specs.Writes.{le_bytes};

// Eight bytes.
pub(crate) fn word(bytes: &[u8; 8]) -> u64
    ensures { le_bytes 8 result ≡ bytes.now }
{
    u64::from_le_bytes(*bytes)
}

// Four bytes.
fn half(bytes: &[u8; 4]) -> u64
    ensures low { result < 2 ^ 32 }
    ensures same { le_bytes 4 result ≡ bytes.now }
{
    u64::from(u32::from_le_bytes(*bytes))
}

// Fewer than four bytes.
fn few(bytes: &[u8]) -> u64
    requires { length bytes.now < 4 }
    ensures low { result < 2 ^ (8 * length bytes.now) }
    ensures same { le_bytes (length bytes.now) result ≡ bytes.now }
{
    match bytes {
        [a, b, c, ..] => u64::from(*a) + 256 * u64::from(*b) + 65536 * u64::from(*c),
        [a, b] => u64::from(*a) + 256 * u64::from(*b),
        [a] => u64::from(*a),
        [] => 0,
    }
}

// Fewer than eight bytes: where there are four, by two reads of four that may overlap.
#[tactic(auto, using(crate::proofs::Bytes::halved))]
pub(crate) fn short(bytes: &[u8]) -> u64
    requires { length bytes.now < 8 }
    ensures low { result < 2 ^ (8 * length bytes.now) }
    ensures same { le_bytes (length bytes.now) result ≡ bytes.now }
{
    let (Some(first), Some(last)) = (bytes.first_chunk::<4>(), bytes.last_chunk::<4>()) else {
        return few(bytes);
    };
    let high = half(last) >> (8 * (8 - bytes.len()));
    half(first) + (high << 32)
}

// The last bytes of eight, fewer than all.
pub(crate) fn end(bytes: &[u8; 8], count: usize) -> u64
    requires { count < 8 }
    ensures low { result < 2 ^ (8 * count) }
    ensures same { le_bytes count result ≡ drop (8 - count) bytes.now }
{
    // two shifts, since one by 64 is none at all
    (word(bytes) >> (56 - 8 * count)) >> 8
}
