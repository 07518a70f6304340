// Octets of numbers, the padded message and its blocks, in either octet order.
ghost use Rattle.std.specs.Prelude.{◌≡◌, ℕ, ◌+◌, ◌*◌, ◌<◌, ◌≤◌, List, [], ◌∷◌, length, slice_index, MatchResult};
ghost use Rattle.answer.specs.declared.Refusal.TheVariants.{BadArgument};
ghost use Rattle.digest.specs.Blocks.{weight, octet_of, octet_at, word_of, block_count, padded, word_at, block_at, chained};
ghost use Rattle.octets.specs.Lists.{cells};

use answer::Refusal;
use octets::Order;

// ---- octets of numbers

// How many octets of lower weight a number of n octets has beside its octet i.
fn weight_of(order: Order, n: usize, i: usize) -> usize
    requires { i < n }
    ensures { (result ≡ weight order n i) × (result < n) }
{
    match order {
        Order::Little => i,
        Order::Big => n - 1 - i,
    }
}

// Octet i of the number x, of n octets. By its weight: to_le_bytes and to_be_bytes would make four calls of this one, two for each width.
fn octet_of(order: Order, n: usize, x: u64, i: usize) -> u8
    requires { (i < n) × (n ≤ 8) }
    ensures { result ≡ octet_of order n x i }
{
    let k = weight_of(order, n, i);
    ((x >> (8 * k)) % 256) as u8
}

// Octet i of the words ws.
fn octet_at(order: Order, ws: &[u32], i: usize) -> u8
    requires { i < 4 * length ws.now }
    ensures { result ≡ octet_at order ws.now i }
{
    octet_of(order, 4, u64::from(ws[i / 4]), i % 4)
}

// The first N octets of the words ws.
pub(crate) fn octets_of<const N: usize>(order: Order, ws: &[u32]) -> [u8; N]
    requires { N ≤ 4 * length ws.now }
    ensures { result ≡ cells N (octet_at order ws.now) }
{
    std::array::from_fn(|i| octet_at(order, ws, i))
}

// The word of four octets.
fn word_of(order: Order, octets: [u8; 4]) -> u32
    ensures { result ≡ word_of order (slice_index octets 0) (slice_index octets 1) (slice_index octets 2) (slice_index octets 3) }
{
    match order {
        Order::Little => u32::from_le_bytes(octets),
        Order::Big => u32::from_be_bytes(octets),
    }
}

// ---- the message and its blocks

// A digest of N octets, by its buffer.
pub(crate) trait Digest<const N: usize> {
    ghost compressed: { List ℕ → Self → Self };

    ghost output: { Self → List ℕ };

    // The buffer after one block more.
    fn compress(self, block: &[u32; 16]) -> Self
        ensures { result ≡ compressed block.now self };

    // The octets of the buffer.
    fn output(self) -> [u8; N]
        ensures { result ≡ output self };
}

// A message of at most 65,536 octets. It is not copied: an octet of its padding is computed where it is read.
#[derive(Clone, Copy)]
pub(crate) struct Message<'m> {
    order: Order,
    octets: &'m [u8],
    ghost short: { length octets.now ≤ 65536 },
}

impl<'m> Message<'m> {
    pub(crate) fn new(order: Order, octets: &'m [u8]) -> Result<Message<'m>, Refusal>
        ensures { MatchResult result (λ m. (m.order ≡ order) × (m.octets.now ≡ octets.now)) (λ why. (why ≡ BadArgument) × (65536 < length octets.now)) }
    {
        if 65536 < octets.len() {
            return Err(Refusal::BadArgument);
        }
        Ok(Message { order, octets })
    }

    // How many blocks it has with its padding.
    fn block_count(&self) -> usize
        ensures { result ≡ block_count (length self.now.octets.now) }
    {
        (self.octets.len() + 9 + 63) / 64
    }

    // Octet k of the padded message.
    fn padded_at(&self, k: usize) -> u8
        requires { k < block_count (length self.now.octets.now) * 64 }
        ensures { result ≡ slice_index (padded self.now.order self.now.octets.now) k }
    {
        let n = self.octets.len();
        if k < n {
            return self.octets[k];
        }
        if k == n {
            return 128;
        }
        let start = self.block_count() * 64 - 8;
        if k < start {
            return 0;
        }
        octet_of(self.order, 8, (n * 8) as u64, k - start)
    }

    // Four octets of the message.
    fn four(&self, k: usize) -> [u8; 4]
        requires { k + 4 ≤ length self.now.octets.now }
        ensures { result ≡ slice_index self.now.octets.now k ∷ slice_index self.now.octets.now (k + 1) ∷ slice_index self.now.octets.now (k + 2) ∷ slice_index self.now.octets.now (k + 3) ∷ [] }
    {
        let m = self.octets;
        [m[k], m[k + 1], m[k + 2], m[k + 3]]
    }

    // The word at octet k of the padded message, octet by octet.
    fn edge_word(&self, k: usize) -> u32
        requires { k + 4 ≤ block_count (length self.now.octets.now) * 64 }
        ensures { result ≡ word_at self.now.order (padded self.now.order self.now.octets.now) k }
    {
        let a = self.padded_at(k);
        let b = self.padded_at(k + 1);
        let c = self.padded_at(k + 2);
        let d = self.padded_at(k + 3);
        word_of(self.order, [a, b, c, d])
    }

    // The word at octet k of the padded message. Most are all message or all zeros.
    fn padded_word(&self, k: usize) -> u32
        requires { k + 4 ≤ block_count (length self.now.octets.now) * 64 }
        ensures { result ≡ word_at self.now.order (padded self.now.order self.now.octets.now) k }
    {
        let n = self.octets.len();
        if k + 4 <= n {
            return word_of(self.order, self.four(k));
        }
        let start = self.block_count() * 64 - 8;
        if k <= n {
            return self.edge_word(k);
        }
        if k + 4 <= start {
            return 0;
        }
        self.edge_word(k)
    }

    // Puts block i of the padded message in b. By the parameter B each digest has code of its own, in which the order is known.
    fn put_block<B>(&self, i: usize, b: &mut [u32; 16])
        requires { i < block_count (length self.now.octets.now) }
        ensures { b.new ≡ block_at self.now.order self.now.octets.now i }
    {
        if i < self.octets.len() / 64 {
            put_words::<B, _>(b, |j| word_of(self.order, self.four(i * 64 + j * 4)));
            return;
        }
        put_words::<B, _>(b, |j| self.padded_word(i * 64 + j * 4));
    }

    // The digest that begins with a buffer.
    pub(crate) fn digest<const N: usize, B: Digest<N>>(&self, initial: B) -> [u8; N]
        ensures { result ≡ B.output (chained B.compressed self.now.order self.now.octets.now initial) }
    {
        let mut buffer = initial;
        for i in 0..self.block_count() {
            let mut block = [0u32; 16];
            self.put_block::<B>(i, &mut block);
            buffer = buffer.compress(&block);
        }
        buffer.output()
    }
}

// Puts sixteen words in b, in code of B's own.
fn put_words<B, F: Fn(usize) -> u32>(b: &mut [u32; 16], word: F)
    requires { (j : ℕ) → j < 16 → F.pre word j }
    ensures { (length b.new ≡ 16) × ((j : ℕ) → j < 16 → F.post word j (slice_index b.new j)) }
{
    for (j, x) in b.iter_mut().enumerate() {
        *x = word(j);
    }
}
