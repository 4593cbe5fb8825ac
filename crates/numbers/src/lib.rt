// Numbers as bytes: read, written and copied at a place in a slice. Document 01, "Pages, logs, epochs": "All numbers are
// big-endian, offsets in two's complement"; the definitions are in specs/.

#![tactic(auto)]

ghost use Rattle.std.specs.Prelude.{◌≡◌, ◌+◌, ◌*◌, ◌≤◌, length, get_or, replicate};
ghost use Rattle.numbers.specs.Bytes.{at16, at32, at64, signed, unsigned, bytes16, bytes32, put};

// The big-endian number of two bytes. Here and below a function for each size: std's `from_be_bytes` takes an array of its own size, and each has a definition
// of its own in specs/.
pub fn read_u16(s: &[u8], p: usize) -> u16
    requires { p + 2 ≤ length s.now }
    ensures { result ≡ at16 s.now p }
{
    u16::from_be_bytes([s[p], s[p + 1]])
}

// Four bytes as one number, the lowest first: the compiler makes one load of them.
pub fn read_low32(s: &[u8], p: usize) -> u32
    requires { p + 4 ≤ length s.now }
    ensures { result ≡ get_or s.now p 0 + get_or s.now (p + 1) 0 * 256 + get_or s.now (p + 2) 0 * 65536 + get_or s.now (p + 3) 0 * 16777216 }
{
    u32::from_le_bytes([s[p], s[p + 1], s[p + 2], s[p + 3]])
}

// The big-endian number of four bytes.
pub fn read_u32(s: &[u8], p: usize) -> u32
    requires { p + 4 ≤ length s.now }
    ensures { result ≡ at32 s.now p }
{
    u32::from_be_bytes([s[p], s[p + 1], s[p + 2], s[p + 3]])
}

// The big-endian number of eight bytes: position, node and sequence of a tuple at once.
pub fn read_u64(s: &[u8], p: usize) -> u64
    requires { p + 8 ≤ length s.now }
    ensures { result ≡ at64 s.now p }
{
    u64::from_be_bytes([
        s[p],
        s[p + 1],
        s[p + 2],
        s[p + 3],
        s[p + 4],
        s[p + 5],
        s[p + 6],
        s[p + 7],
    ])
}

// "offsets in two's complement"
pub fn to_signed(v: u32) -> i32
    ensures { result ≡ signed v }
{
    v.cast_signed()
}

// "All numbers are big-endian": two bytes from p on.
pub fn write_u16(out: &mut [u8], p: usize, v: u16)
    requires { p + 2 ≤ length out.old }
    ensures { out.new ≡ put out.old p (bytes16 v) }
{
    out[p..p + 2].copy_from_slice(&v.to_be_bytes());
}

// "All numbers are big-endian": four bytes from p on.
pub fn write_u32(out: &mut [u8], p: usize, v: u32)
    requires { p + 4 ≤ length out.old }
    ensures { out.new ≡ put out.old p (bytes32 v) }
{
    out[p..p + 4].copy_from_slice(&v.to_be_bytes());
}

// "offsets in two's complement"
pub fn to_unsigned(z: i32) -> u32
    ensures { result ≡ unsigned z }
{
    z.cast_unsigned()
}

// Zeros for n words of four bytes from p on.
pub fn write_zeros(out: &mut [u8], p: usize, n: usize)
    requires { p + 4 * n ≤ length out.old }
    ensures { out.new ≡ put out.old p (replicate (4 * n) 0) }
{
    out[p..p + 4 * n].fill(0);
}

// Writes src into out from p on. A loop, and not `copy_from_slice`: of a length that is not constant that calls memmove, and the header asks for
// memset and memcpy alone.
pub fn copy(out: &mut [u8], p: usize, src: &[u8])
    requires { p + length src.now ≤ length out.old }
    ensures { out.new ≡ put out.old p src.now }
{
    for i in 0..src.len() {
        out[p + i] = src[i];
    }
}
