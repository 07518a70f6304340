// Whether a record's name is the user's, by work that depends on the record alone: every octet of the name is compared, eight at a
// time from its end, with the octet at its place in an array that has the user's octets and zeros after them.
ghost use Rattle.std.specs.Prelude.{◌≡◌, ◌+◌, ◌-◌, ◌<◌, ◌≤◌, length, take, drop, eqb, true, ◌⊎◌};
ghost use Rattle.octets.specs.Choice.{pick};
ghost use Rattle.octets.specs.Lists.{part};
ghost use Rattle.octets.specs.Octets.{same};
ghost use Rattle.accounts.specs.Inner.{sought, name_mask};

// No bit for the eight octets before a name, and every bit for those of the name.
#[tactic(auto, unfolding(crate::specs::Inner::name_mask))]
pub(crate) fn mask() -> [u8; 264]
    ensures { result ≡ name_mask }
{
    let mut mask = [255u8; 264];
    octets::put_at(&mut mask, 0, &[0u8; 8]);
    mask
}

// Eight zeros, the user's octets, and zeros after them.
#[tactic(auto, unfolding(crate::specs::Inner::sought))]
pub(crate) fn laid(user: &[u8]) -> [u8; 264]
    ensures { result ≡ sought user.now }
{
    let mut own = [0u8; 264];
    octets::put_at(&mut own, 8, octets::part(user, 0, 256));
    own
}

// 0 where two octets are equal, or where the mask has no bit.
#[tactic(auto, using(crate::proofs::Compares::masks))]
fn apart(x: u8, y: u8, bits: u8) -> u8
    requires { (bits ≡ 0) ⊎ (bits ≡ 255) }
    ensures { eqb result 0 ≡ pick (eqb bits 0) true (eqb x y) }
{
    (x ^ y) & bits
}

// Of eight octets each: 0 where the last are equal, as many as a name of `end` octets has there, and else 1.
// By index: three slices go in step, and the mask from `end` on. A number and no bool: name_apart joins them by `|`, and branches on none.
#[tactic(auto, using(crate::proofs::Compares::masks))]
fn eight_apart(a: &[u8], b: &[u8], mask: &[u8], end: usize) -> usize
    requires { (length a.now ≡ 8) × (length b.now ≡ 8) × (mask.now ≡ name_mask) × (end ≤ 256) }
    ensures { eqb result 0 ≡ same (drop (8 - end) a.now) (drop (8 - end) b.now) }
{
    let mut d = 0;
    for i in 0..8 {
        d |= apart(a[i], b[i], mask[end + i]);
    }
    if d == 0 {
        return 0;
    }
    1
}

// A user, and what a name is compared with: `laid` of it, and the mask, arrays of fixed size that are lent.
#[derive(Clone, Copy)]
pub(crate) struct Sought<'a> {
    pub(crate) user: &'a [u8],
    pub(crate) own: &'a [u8],
    pub(crate) mask: &'a [u8],
    ghost own_is: { own.now ≡ sought user.now },
    ghost mask_is: { mask.now ≡ name_mask },
}

impl Sought<'_> {
    // Of the first `end` octets of a name, and of those at their places: 0 where the last eight are equal, or all where they are fewer.
    #[tactic(auto, using(crate::proofs::Compares::masks))]
    fn end_apart(&self, item: &[u8], end: usize) -> usize
        requires { (end + 22 ≤ length item.now) × (end ≤ 256) }
        ensures { eqb result 0 ≡ same (drop (end - 8) (take end (drop 22 item.now))) (drop (end - 8) (take end (drop 8 self.now.own.now))) }
    {
        let from = end + 14;
        let to = end + 22;
        let last = end + 8;
        eight_apart(&item[from..to], &self.own[end..last], self.mask, end)
    }

    // 0 where the name's octets are those at their places. From its end, eight at a time: the last eight reach back before the name,
    // which no iterator over the name gives.
    #[tactic(auto, using(crate::proofs::Compares::masks))]
    fn name_apart(&self, item: &[u8]) -> usize
        requires { (22 ≤ length item.now) × (length item.now ≤ 278) }
        ensures { eqb result 0 ≡ same (drop 22 item.now) (part self.now.own.now 8 (length item.now - 22)) }
    {
        let n = item.len() - 22;
        let mut d = 0;
        for behind in (0..n).step_by(8) {
            d |= self.end_apart(item, n - behind);
        }
        d
    }

    // Whether the name of a record, from its octet 22 on, is the user's.
    #[tactic(auto, using(crate::proofs::Compares::masks))]
    pub(crate) fn is_name(&self, item: &[u8]) -> bool
        requires { (22 ≤ length item.now) × (length item.now ≤ 278) }
        ensures { result ≡ same (drop 22 item.now) self.now.user.now }
    {
        let n = item.len() - 22;
        let d = self.name_apart(item);
        (d | (n ^ self.user.len())) == 0
    }
}
