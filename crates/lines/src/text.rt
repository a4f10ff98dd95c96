// A short text that is built from its parts. What does not fit is left out: no line of a listing is that long.
ghost use Rattle.std.specs.Prelude.{◌≡◌, [], ◌∷◌, ◌≤◌, length};
ghost use Rattle.lines.specs.Texts.{most_text, Adds, decimal, hexadecimal};

use std::marker::Model;

// The first `used` bytes are the text, and zeros stand after them.
#[derive(Clone, Copy)]
pub struct Text {
    bytes: [u8; 96],
    used: usize,
}

impl Model for Text {
    ghost use Rattle.std.specs.Prelude.{◌≡◌, ◌≤◌, ◌-◌, ◌++◌, ℕ, List, length, take, drop, replicate};
    ghost use Rattle.std.proofs.Common.{◌∙◌, ap, sym, subst, take-append-drop, length-take-le};

    ghost Value = { List ℕ };

    ghost view = { λ t. take t.used t.bytes };

    ghost invariant = { λ t. (t.used ≤ 96) × (length t.bytes ≡ 96) × (drop t.used t.bytes ≡ replicate (96 - t.used) 0) };

    ghost inverse = { λ l. record { bytes = l ++ replicate (96 - length l) 0; used = length l } };

    ghost inverse_ok = { λ t h i.
        let long : length (take t.used t.bytes) ≡ t.used = length-take-le t.used t.bytes (subst (λ (n : ℕ). t.used ≤ n) (sym h.1) h.0) in
        record {
          bytes = (ap (λ (n : ℕ). take t.used t.bytes ++ replicate (96 - n) 0) long
              ∙ ap (λ (l : List ℕ). take t.used t.bytes ++ l) (sym h.2)
              ∙ take-append-drop t.used t.bytes) i;
          used = long i;
        } };
}

impl Text {
    pub(crate) fn new() -> Text
        ensures { result ≡ [] }
    {
        Text {
            bytes: [0; 96],
            used: 0,
        }
    }

    pub fn as_bytes(&self) -> &[u8]
        ensures value { result.now ≡ self.now }
        ensures fits { length result.now ≤ most_text }
    {
        &self.bytes[..self.used]
    }

    // One byte more.
    pub(crate) fn push(&mut self, b: u8)
        ensures { Adds self.old (b ∷ []) self.new }
    {
        self.push_all(&[b]);
    }

    pub(crate) fn push_all(&mut self, more: &[u8])
        ensures { Adds self.old more.now self.new }
    {
        let n = (96 - self.used).min(more.len());
        self.bytes[self.used..self.used + n].copy_from_slice(&more[..n]);
        self.used += n;
    }

    pub(crate) fn push_decimal(&mut self, n: u64)
        ensures { Adds self.old (decimal n) self.new }
    {
        let mut digits = [0u8; 20];
        let k = io::decimal(n, &mut digits);
        self.push_all(&digits[..k]);
    }

    pub(crate) fn push_hexadecimal(&mut self, n: u64)
        ensures { Adds self.old (hexadecimal n) self.new }
    {
        let mut digits = [0u8; 16];
        let k = io::hex(n, 16, &mut digits);
        self.push_all(&digits[..k]);
    }
}
