// A text's digits, and the bytes that they spell.
ghost use Rattle.std.specs.Iterator.{YieldsFirst, item_count};
ghost use Rattle.hexkey.specs.Key.{digits, key_bytes};

use crate::symbol::Symbol;

// The values of the digits of what is left of a text, in order.
#[derive(Drop)]
pub struct Digits<'a>(pub &'a [u8]);

impl Iterator for Digits<'_> {
    type Item = u8;

    ghost next_gives = { YieldsFirst (λ s. digits s.0.now) };

    ghost remaining = { item_count (λ s. digits s.0.now) };

    #[tactic(auto, unfolding(crate::specs::Key::digits, crate::specs::Symbols::symbol))]
    fn next(&mut self) -> Option<u8> {
        while let Some((first, rest)) = self.0.split_first() {
            self.0 = rest;
            if let Symbol::Digit(digit) = Symbol::from(*first) {
                return Some(digit);
            }
        }
        None
    }
}

// The bytes that those digits spell, two digits each. A last digit that has no second spells none.
#[derive(Drop)]
pub struct Bytes<'a>(pub Digits<'a>);

impl Iterator for Bytes<'_> {
    type Item = u8;

    ghost next_gives = { YieldsFirst (λ s. key_bytes s.0.0.now) };

    ghost remaining = { item_count (λ s. key_bytes s.0.0.now) };

    #[tactic(auto, using(crate::proofs::Spelling::small, crate::proofs::Spelling::whole, crate::proofs::Spelling::few))]
    fn next(&mut self) -> Option<u8> {
        let high = self.0.next()?;
        let low = self.0.next()?;
        Some(16 * high + low)
    }
}
