// What a buffer holds before a call, to see what became of it.
ghost use Rattle.std.specs.Prelude.{◌≡◌, true, ℕ, ◌≤◌, ◌<◌, length, get_or};
ghost use Rattle.check_text.specs.Pattern.{Answer};

// The byte that a buffer is filled with.
pub const FILL: u8 = 165;

// Whether each byte from `from` on is still the fill.
pub fn is_kept(out: &[u8], from: usize) -> bool
    ensures kept { result ≡ true → (k : ℕ) → from ≤ k → k < length out.now → get_or out.now k 0 ≡ 165 }
    ensures all { ((k : ℕ) → from ≤ k → k < length out.now → get_or out.now k 0 ≡ 165) → result ≡ true }
{
    out.iter().skip(from).all(|byte| *byte == FILL)
}

// Whether the first bytes are the wanted ones, and all that follow the fill.
pub fn is_answer(out: &[u8], wanted: &[u8]) -> bool
    ensures { (result ≡ true → Answer out.now wanted.now) × (Answer out.now wanted.now → result ≡ true) }
{
    out.starts_with(wanted) && is_kept(out, wanted.len())
}
