// Keys that are compared by their first bytes first.
ghost use Rattle.std.specs.Prelude.{◌≡◌, ◌<◌, get_or};
ghost use Rattle.std.specs.List.{AllByRecursion};
ghost use Rattle.lww_map.specs.Prefixes.{first_bytes, prefix_of};

// A key with its first 8 bytes as a number, highest first, zeros past its end. The derived order is that of the keys, and mostly
// doesn't read the text.
#[derive(Clone, Copy, PartialEq, Eq, PartialOrd, Ord)]
pub struct PrefixKey<'a> {
    prefix: u64,
    pub text: &'a str,
    ghost is_prefix: { prefix ≡ prefix_of text.now },
    ghost are_bytes: { AllByRecursion (λ b. b < 256) (first_bytes text.now) },
}

impl<'a> PrefixKey<'a> {
    pub fn of(text: &'a str) -> PrefixKey<'a>
        ensures { result.text.now ≡ text.now }
    {
        let bytes = text.as_bytes();
        let prefix = u64::from_be_bytes([
            byte_at(bytes, 0),
            byte_at(bytes, 1),
            byte_at(bytes, 2),
            byte_at(bytes, 3),
            byte_at(bytes, 4),
            byte_at(bytes, 5),
            byte_at(bytes, 6),
            byte_at(bytes, 7),
        ]);
        PrefixKey { prefix, text }
    }
}

// The byte at this place, and 0 past the end.
fn byte_at(bytes: &[u8], place: usize) -> u8
    ensures { result ≡ get_or bytes.now place 0 }
{
    if place < bytes.len() { bytes[place] } else { 0 }
}
