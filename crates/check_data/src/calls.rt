// The operations that a line can name. A new one is a variant, a row in `OPERATIONS`, and an arm in `Call::make`.
use crate::values::{event_numbers, put_numbers};
use Field::*;
use Operation::*;
use answers::{Refusal, put_answer};
use event::{no_event, read_event};
use frame::parts::{frame_start, start_block};
use frame::window::read_window;
use frame::{check_frame, frame_blocks, open_frame};
use search::{Found, search};
use slices::parts;

#[derive(Clone, Copy, Debug, PartialEq, Eq)]
pub enum Operation {
    EncryptBlock,
    DecryptBlock,
    ExpandKey,
    NewFromSlice,
    ApplyS,
    ApplySInv,
    LinearTransform,
    LinearTransformInv,
    Ecb,
    EncryptChain,
    DecryptChain,
    EncryptBlocks,
    DecryptBlocks,
    FrameStart,
    ReadWindow,
    OpenFrame,
    ReadEvent,
    Search,
}

// A field that not every operation takes.
#[derive(Clone, Copy, Debug, PartialEq, Eq)]
pub enum Field {
    Key,
    Bytes,
    Start,
    Place,
    Count,
    Room,
}

// A row for each operation: the name that a line has for it, the fields that it takes, and what it is.
static OPERATIONS: [(&str, &[Field], Operation); 18] = [
    ("encrypt_block", &[Key, Bytes, Room], EncryptBlock),
    ("decrypt_block", &[Key, Bytes, Room], DecryptBlock),
    ("expand_key", &[Key, Room], ExpandKey),
    ("new_from_slice", &[Key, Room], NewFromSlice),
    ("apply_s", &[Bytes, Place, Room], ApplyS),
    ("apply_s_inv", &[Bytes, Place, Room], ApplySInv),
    ("linear_transform", &[Bytes, Room], LinearTransform),
    ("linear_transform_inv", &[Bytes, Room], LinearTransformInv),
    ("ecb", &[Key, Bytes], Ecb),
    ("encrypt_chain", &[Key, Bytes, Start, Room], EncryptChain),
    ("decrypt_chain", &[Key, Bytes, Start, Room], DecryptChain),
    ("encrypt_blocks", &[Bytes, Start, Room], EncryptBlocks),
    ("decrypt_blocks", &[Bytes, Start, Room], DecryptBlocks),
    ("frame_start", &[Bytes, Room], FrameStart),
    ("read_window", &[Key, Bytes, Place, Count, Room], ReadWindow),
    ("open_frame", &[Bytes], OpenFrame),
    ("read_event", &[Bytes], ReadEvent),
    ("search", &[Key, Bytes, Place], Search),
];

// The operation of a name, and the fields that it takes.
pub fn operation_of(name: &str) -> Option<(Operation, &'static [Field])> {
    let (_, takes, operation) = OPERATIONS.iter().find(|row| row.0 == name)?;
    Some((*operation, *takes))
}

// Why a call does not do its work.
#[derive(Clone, Copy, Debug, PartialEq, Eq)]
pub enum Failure {
    // The operation refuses.
    Refused(Refusal),
    // The way back does not lead to what it began with.
    NotBack,
    // Two operations do not agree on what they answer.
    TwoAnswers,
}

impl From<Refusal> for Failure {
    fn from(refusal: Refusal) -> Failure {
        Failure::Refused(refusal)
    }
}

// A call. What its operation does not take is empty, or 0.
#[derive(Clone, Copy, Debug, PartialEq, Eq)]
pub struct Call<'a> {
    pub operation: Operation,
    pub key: &'a [u8],
    pub bytes: &'a [u8],
    pub start: &'a [u8],
    pub place: usize,
    pub count: usize,
}

impl Call<'_> {
    // Makes the call.
    pub fn make(&self, out: &mut [u8]) -> Result<(), Failure> {
        let answer = match self.operation {
            EncryptBlock => slices::encrypt_block(self.key, self.bytes, out),
            DecryptBlock => slices::decrypt_block(self.key, self.bytes, out),
            ExpandKey => parts::expand_key(self.key, out),
            NewFromSlice => parts::new_from_slice(self.key, out),
            ApplyS => parts::apply_s(self.place, self.bytes, out),
            ApplySInv => parts::apply_s_inv(self.place, self.bytes, out),
            LinearTransform => parts::linear_transform(self.bytes, out),
            LinearTransformInv => parts::linear_transform_inv(self.bytes, out),
            Ecb => return ecb(self.key, self.bytes, out),
            EncryptChain => chain::encrypt_chain(self.key, self.bytes, self.start, out),
            DecryptChain => chain::decrypt_chain(self.key, self.bytes, self.start, out),
            EncryptBlocks => chain::encrypt_blocks(&ZEROS, self.bytes, block_of(self.start), out),
            DecryptBlocks => chain::decrypt_blocks(&ZEROS, self.bytes, block_of(self.start), out),
            FrameStart => frame_start(self.bytes, out),
            ReadWindow => read_window(self.key, self.bytes, self.place, self.count, out),
            OpenFrame => return opening(self.bytes, out),
            ReadEvent => reading(self.bytes, out),
            Search => searching(self.key, self.bytes, self.place, out),
        };
        Ok(answer?)
    }
}

// The round keys of encrypt_blocks and decrypt_blocks.
const ZEROS: [u32; 132] = [0; 132];

// The first sixteen bytes, or zeros where there are fewer.
fn block_of(bytes: &[u8]) -> [u8; 16] {
    *bytes.first_chunk().unwrap_or(&[0; 16])
}

// Each block of a text by itself, both ways.
fn ecb(key: &[u8], text: &[u8], out: &mut [u8]) -> Result<(), Failure> {
    let mut back = [0u8; 16];
    for (block, cipher) in text.chunks_exact(16).zip(out.chunks_exact_mut(16)) {
        slices::encrypt_block(key, block, cipher)?;
        slices::decrypt_block(key, cipher, &mut back)?;
        if back.as_slice() != block {
            return Err(Failure::NotBack);
        }
    }
    if text.len() % 16 != 0 {
        return Err(Failure::Refused(Refusal::TextLength));
    }
    Ok(())
}

// The start block and behind it the cipher blocks that opening gives: zeros and none of a frame that it refuses.
fn opening(frame: &[u8], out: &mut [u8]) -> Result<(), Failure> {
    let opened = open_frame(frame);
    let Some((start, blocks)) = out.split_first_chunk_mut::<16>() else {
        return Err(Failure::Refused(Refusal::OutShort));
    };
    *start = start_block(frame);
    put_answer(frame_blocks(frame), blocks)?;
    let answer = opened.map(|_| ());
    if answer != check_frame(frame) {
        return Err(Failure::TwoAnswers);
    }
    Ok(answer?)
}

// An event's fields: zeros of one that is refused.
fn reading(bytes: &[u8], out: &mut [u8]) -> Result<(), Refusal> {
    let answer = read_event(bytes);
    put_numbers(&event_numbers(&answer.unwrap_or(no_event())), out, 0);
    answer.map(|_| ())
}

// The place, the tries, and the fields of the event: zeros, but for the tries, where there is none.
fn searching(key: &[u8], frame: &[u8], place: usize, out: &mut [u8]) -> Result<(), Refusal> {
    let (found, answer) = match search(key, frame, place) {
        Ok(found) => (found, Ok(())),
        Err(missed) => (
            Found {
                place: 0,
                tries: missed.tries(),
                event: no_event(),
            },
            Err(missed.refusal()),
        ),
    };
    put_numbers(&[found.place as u64, found.tries as u64], out, 0);
    put_numbers(&event_numbers(&found.event), out, 2);
    answer
}
