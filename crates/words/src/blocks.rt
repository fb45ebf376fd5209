// Blocks of sixteen bytes, in and out of slices.
ghost use Rattle.std.specs.Prelude.{◌≡◌};
ghost use Rattle.words.specs.Blocks.{block_at, put_at};

// The sixteen bytes from a place, or zeros where the slice has no sixteen bytes there.
#[tactic(auto, using(std::proofs::lemmas::Slice::overwrites), unfolding(crate::specs::Blocks::block_at))]
pub fn block_at(s: &[u8], at: usize) -> [u8; 16]
    ensures { result ≡ block_at s.now at }
{
    let mut block = [0; 16];
    if s.len().checked_sub(16).is_some_and(|last| at <= last) {
        block.copy_from_slice(&s[at..at + 16]);
    }
    block
}

// Puts a block over the sixteen bytes from a place. Where the slice has no sixteen bytes there, nothing changes.
#[tactic(auto, using(std::proofs::lemmas::Slice::overwrites), unfolding(crate::specs::Blocks::put_at))]
pub fn put_block(block: [u8; 16], out: &mut [u8], at: usize)
    ensures { out.new ≡ put_at out.old at block }
{
    if out.len().checked_sub(16).is_some_and(|last| at <= last) {
        out[at..at + 16].copy_from_slice(&block);
    }
}
