// What a byte of a key's text stands for.
ghost use Rattle.std.specs.Prelude.{◌≡◌};
ghost use Rattle.hexkey.specs.Symbols.{symbol};

#[derive(Clone, Copy, Debug, PartialEq, Eq)]
pub enum Symbol {
    Digit(u8),
    Blank,
    Other,
}

#[tactic(auto, unfolding(crate::specs::Symbols::symbol, crate::specs::Key::value))]
impl From<u8> for Symbol {
    ghost from_gives = { λ byte s. s ≡ symbol byte };

    fn from(byte: u8) -> Symbol {
        match byte {
            b'0'..=b'9' => Symbol::Digit(byte - b'0'),
            b'A'..=b'F' => Symbol::Digit(byte - b'A' + 10),
            b'a'..=b'f' => Symbol::Digit(byte - b'a' + 10),
            9..=13 | b' ' => Symbol::Blank,
            _ => Symbol::Other,
        }
    }
}
