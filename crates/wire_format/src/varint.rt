ghost use Rattle.std.specs.Prelude.{◌≡◌, ◌^◌, ◌<◌, ◌≤◌, ℕ, length, take, drop, get_or, MatchResult};
ghost use Rattle.wire_format.specs.Varints.{GoOn, groups_value, IsVarint, IsVarintFault};

// A varint at the front of some bytes: its number, and how many bytes it has.
#[derive(Debug, Clone, Copy, Drop)]
pub(crate) struct Varint {
    pub(crate) value: u64,
    pub(crate) len: usize,
}

// Why no varint stands at the front of some bytes.
#[derive(Debug, Clone, Copy, PartialEq, Eq, Drop)]
pub(crate) enum VarintFault {
    Cut,
    Long,
}

impl Varint {
    // The varint at the front of some bytes. It looks at ten bytes at most.
    pub(crate) fn read(bytes: &[u8]) -> Result<Varint, VarintFault>
        ensures { MatchResult result
            (λ varint. (varint.len ≤ length bytes.now) × IsVarint (take varint.len bytes.now) varint.value)
            (λ fault. IsVarintFault bytes.now fault) }
    {
        let count = count_continuing(bytes);
        if count == bytes.len() {
            return Err(VarintFault::Cut);
        }
        let last = bytes[count];
        if count == 9 && last > 1 {
            return Err(VarintFault::Long);
        }
        Ok(Varint {
            value: groups_value(&bytes[..count + 1]),
            len: count + 1,
        })
    }
}

// How many of the first nine bytes go on to another one.
fn count_continuing(bytes: &[u8]) -> usize
    ensures within { result ≤ 9 }
    ensures inside { result ≤ length bytes.now }
    ensures go_on { GoOn (take result bytes.now) }
    ensures ends { result < length bytes.now → result < 9 → get_or bytes.now result 0 < 128 }
{
    let mut count = 0;
    while count < 9 && count < bytes.len() && bytes[count] >= 128 {
        count += 1;
    }
    count
}

// The number that groups of seven bits make.
fn groups_value(bytes: &[u8]) -> u64
    requires { groups_value bytes.now < 2 ^ 64 }
    ensures { result ≡ groups_value bytes.now }
{
    let mut value: u64 = 0;
    for place in (0..bytes.len()).rev() {
        value = value * 128 + u64::from(bytes[place] % 128);
    }
    value
}
