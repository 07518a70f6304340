// RC4 with a key of sixteen octets.
#![tactic(auto)]

ghost use Rattle.std.specs.Prelude.{◌≡◌};
ghost use Rattle.octets.specs.Lists.{cells};
ghost use Rattle.rc4.specs.Rc4.{mixed, scheduled, output, enciphered};

// The octets S[0] to S[255], and the place j.
#[derive(Drop)]
struct Mixed {
    s: [u8; 256],
    j: u8,
}

impl Mixed {
    // j = j + S[i] + x; then S[i] and S[j] change places: by two writes, since `swap` asks which place is the lower, and j depends on the key.
    #[tactic(auto, unfolding(crate::specs::Rc4::mixed, crate::specs::Rc4::swapped))]
    fn mix(&mut self, i: u8, x: u8)
        ensures { self.new ≡ mixed i x self.old }
    {
        let a = self.s[usize::from(i)];
        self.j = self.j.wrapping_add(a).wrapping_add(x);
        self.s[usize::from(i)] = self.s[usize::from(self.j)];
        self.s[usize::from(self.j)] = a;
    }

    // S[S[i] + S[j]].
    #[tactic(auto, unfolding(crate::specs::Rc4::output))]
    fn output(&self, i: u8) -> u8
        ensures { result ≡ output i self.now }
    {
        let a = self.s[usize::from(i)];
        let b = self.s[usize::from(self.j)];
        self.s[usize::from(a.wrapping_add(b))]
    }
}

// S[i] = i.
fn identity() -> [u8; 256]
    ensures { result ≡ cells 256 (λ k. k) }
{
    std::array::from_fn(|i| i as u8)
}

// The key schedule.
fn schedule(key: [u8; 16]) -> [u8; 256]
    ensures { result ≡ scheduled key }
{
    let mut state = Mixed {
        s: identity(),
        j: 0,
    };
    for i in 0..256 {
        state.mix(i as u8, key[i % 16]);
    }
    state.s
}

// Enciphers m, or deciphers it.
pub fn encipher(key: [u8; 16], m: &mut [u8])
    ensures { m.new ≡ enciphered key m.old }
{
    let mut state = Mixed {
        s: schedule(key),
        j: 0,
    };
    // RC4's own counter, which wraps
    let mut i: u8 = 0;
    for x in m.iter_mut() {
        i = i.wrapping_add(1);
        state.mix(i, 0);
        *x ^= state.output(i);
    }
}
