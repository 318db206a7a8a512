//! All fields of a word at once.
ghost use Rattle.std.specs.Prelude.{◌≡◌, ℕ, ◌/◌, ◌%◌, ◌^◌, ◌<◌, if◌then◌else◌};
ghost use Rattle.base.specs.Words.{bits, field, word, named, masked};

use crate::field::Field;
use crate::width::Width;

// A trait: with a closure in its place, `zip_fields` would need a precondition, and no public function has one.
/// What is worked out of the fields at one place of two words.
pub trait FieldFunction {
    ghost meaning: { Self → ℕ → ℕ → ℕ };

    /// Of a field of the first word and of the second.
    fn apply(&self, p: u64, q: u64) -> u64
        ensures { result ≡ meaning self.now p q };
}

/// The bytes that a mask names, all ones: a bit of the mask alone in each byte, carried to the byte's top bit, spread over it.
fn byte_mask(mask: u8) -> u64
    ensures { result ≡ word 8 (λ i. (if named mask i then 255 else 0)) }
{
    let bits = u64::from(mask) * 0x0101_0101_0101_0101 & 0x8040_2010_0804_0201;
    let tops = bits + 0x7f7f_7f7f_7f7f_7f7f & 0x8080_8080_8080_8080;
    (tops >> 7) * 0xff
}

/// The new word in the bytes that the mask names, the old one in the others.
pub fn merge(mask: u8, new: u64, old: u64) -> u64
    ensures value { result ≡ masked mask new old }
    ensures bytes { (i : ℕ) → i < 8 → field 8 i result ≡ (if named mask i then field 8 i new else field 8 i old) }
{
    let bytes = byte_mask(mask);
    new & bytes | old & !bytes
}

/// The word whose fields are the function of the two words' fields, each cut to its width.
pub fn zip_fields<F: FieldFunction>(width: Width, f: &F, a: u64, b: u64) -> u64
    ensures value { result ≡ word (bits width) (λ i. F.meaning f.now (field (bits width) i a) (field (bits width) i b)) }
    ensures fields { (i : ℕ) → i < 64 / bits width → field (bits width) i result ≡ F.meaning f.now (field (bits width) i a) (field (bits width) i b) % 2 ^ bits width }
{
    let size = width.bits();
    let ones = width.ones();
    let mut r = 0;
    // A loop: the closure of a fold would need its contract written out.
    for index in 0..width.fields() {
        let field = Field { width, index };
        let value = f.apply(field.get(a), field.get(b));
        // in two steps, since no shift goes by 64
        r = (r << (size - 1) << 1) + (value & ones);
    }
    r
}
