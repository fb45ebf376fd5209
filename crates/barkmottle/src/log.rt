// The chain, and frames with their windows.
ghost use Rattle.std.specs.Prelude.{◌≡◌, length};
ghost use Rattle.chain.specs.Slices.{chain_number, encrypted_chain, decrypted_chain};
ghost use Rattle.frame.specs.Frame.{frame_number};
ghost use Rattle.frame.specs.Parts.{start_number, start_out, frame_place, frame_length};
ghost use Rattle.frame.specs.Window.{window_number, window_out};

use answers::number_of;

// A chain enciphered, as many bytes as the text: 1 2 3 4 5.
pub fn barkmottle_encrypt_chain(key: &[u8], text: &[u8], start: &[u8], out: &mut [u8]) -> u32
    ensures number { result ≡ chain_number (length key.now) (length text.now) (length start.now) (length out.old) }
    ensures written { out.new ≡ encrypted_chain key.now text.now start.now out.old }
{
    number_of(&chain::encrypt_chain(key, text, start, out))
}

// A chain deciphered, as many bytes as the cipher: 1 2 3 4 5.
pub fn barkmottle_decrypt_chain(key: &[u8], cipher: &[u8], start: &[u8], out: &mut [u8]) -> u32
    ensures number { result ≡ chain_number (length key.now) (length cipher.now) (length start.now) (length out.old) }
    ensures written { out.new ≡ decrypted_chain key.now cipher.now start.now out.old }
{
    number_of(&chain::decrypt_chain(key, cipher, start, out))
}

// Whether a frame opens: 6 7 2 4.
pub fn barkmottle_open_frame(frame: &[u8]) -> u32
    ensures { result ≡ frame_number frame.now }
{
    number_of(&frame::check_frame(frame))
}

// The start block of a frame, 16 bytes: 6 7 2 4 5.
pub fn barkmottle_frame_start(frame: &[u8], out: &mut [u8]) -> u32
    ensures number { result ≡ start_number frame.now (length out.old) }
    ensures written { out.new ≡ start_out frame.now out.old }
{
    number_of(&frame::parts::frame_start(frame, out))
}

// The place of the first cipher block; 0 where opening refuses.
pub fn barkmottle_frame_place(frame: &[u8]) -> usize
    ensures { result ≡ frame_place frame.now }
{
    frame::parts::frame_place(frame)
}

// The bytes of the cipher blocks; 0 where opening refuses.
pub fn barkmottle_frame_length(frame: &[u8]) -> usize
    ensures { result ≡ frame_length frame.now }
{
    frame::parts::frame_length(frame)
}

// A window of a frame, 16 bytes for each block: 1 6 7 2 4 9 5.
pub fn barkmottle_read_window(
    key: &[u8],
    frame: &[u8],
    place: usize,
    count: usize,
    out: &mut [u8],
) -> u32
    ensures number { result ≡ window_number (length key.now) frame.now place count (length out.old) }
    ensures written { out.new ≡ window_out key.now frame.now place count out.old }
{
    number_of(&frame::window::read_window(key, frame, place, count, out))
}
