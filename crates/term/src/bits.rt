// A field of lent bytes by its first bit and its count of bits, most significant first, read byte by byte.
ghost use Rattle.std.specs.Prelude.{◌≡◌, ◌+◌, ◌-◌, ◌*◌, ◌%◌, ◌<◌, ◌≤◌, ◌^◌, length};
ghost use Rattle.term.specs.Bits.{field, Within};

// The n bits from a place on, all of one byte: a shift up drops those before them, a shift down those behind.
fn piece(bytes: &[u8], place: usize, n: usize) -> u64
    requires { (place < 8 * length bytes.now) × (0 < n) × (place % 8 + n ≤ 8) }
    ensures { result ≡ field bytes.now place n }
{
    let byte = bytes[place / 8];
    let up = place % 8;
    let down = 8 - n;
    u64::from((byte << up) >> down)
}

// The bits read so far, and n more of one byte behind them.
fn more(bytes: &[u8], value: u64, place: usize, n: usize) -> u64
    requires { (place + n ≤ 8 * length bytes.now) × (place % 8 + n ≤ 8) × (value < 2 ^ (64 - n)) }
    ensures { result ≡ value * 2 ^ n + field bytes.now place n }
{
    if n == 0 {
        return value;
    }
    (value << n) + piece(bytes, place, n)
}

// The field of `count` bits from the bit `first` on: what its first byte has, whole bytes, and what is left.
pub fn field(bytes: &[u8], first: usize, count: usize) -> u64
    requires { Within bytes.now first count }
    ensures { result ≡ field bytes.now first count }
{
    let n = (8 - first % 8).min(count);
    let mut value = more(bytes, 0, first, n);
    // Stays: a range with a step of eight would lose the place where the whole bytes end, which the last piece begins at.
    let mut i = n;
    while 8 <= count - i {
        value = more(bytes, value, first + i, 8);
        i += 8;
    }
    more(bytes, value, first + i, count - i)
}
