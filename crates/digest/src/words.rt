// Words of 32 bits.
ghost use Rattle.std.specs.Prelude.{◌≡◌};
ghost use Rattle.digest.specs.Words as words;

// The bits of y where x has ones, and of z where it has zeros.
pub(crate) fn choose(x: u32, y: u32, z: u32) -> u32
    ensures { result ≡ words.choose x y z }
{
    // Equal to `(x & y) | (!x & z)`, with one operation fewer.
    z ^ (x & (y ^ z))
}

// The bits that two of the three have.
pub(crate) fn majority(x: u32, y: u32, z: u32) -> u32
    ensures { result ≡ words.majority x y z }
{
    (x & y) | (x & z) | (y & z)
}

// The bits that one or three have.
pub(crate) fn parity(x: u32, y: u32, z: u32) -> u32
    ensures { result ≡ words.parity x y z }
{
    x ^ y ^ z
}
