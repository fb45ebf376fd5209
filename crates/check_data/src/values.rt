// Numbers that an operation answers, as bytes: eight for each, the highest first, in two's complement.
use event::{Event, class_number};

// Puts numbers into `out`, behind as many others: as many as there is room for.
pub fn put_numbers(numbers: &[u64], out: &mut [u8], before: usize) {
    for (bytes, number) in out.chunks_exact_mut(8).skip(before).zip(numbers) {
        bytes.copy_from_slice(&number.to_be_bytes());
    }
}

// Every field of an event.
pub fn event_numbers(event: &Event) -> [u64; 8] {
    [
        event.wall.0.cast_unsigned(),
        event.utc.0.cast_unsigned(),
        i64::from(event.offset).cast_unsigned(),
        u64::from(event.kind),
        u64::from(class_number(event.class)),
        u64::from(event.inverter),
        i64::from(event.value).cast_unsigned(),
        u64::from(event.sequence),
    ]
}
