// The search for the next readable event, a number or a field in each call. Without an event, every field but the tries is 0.
ghost use Rattle.std.specs.Prelude.{◌≡◌};
ghost use Rattle.event.specs.Event.{class_number};
ghost use Rattle.search.specs.Search.{search_answer};

use event::{Event, class_number, no_event};
use search::search;

// The event that a search finds, or that of a refusal.
fn find(key: &[u8], frame: &[u8], place: usize) -> Event
    ensures { result ≡ (search_answer key.now frame.now place).event }
{
    match search(key, frame, place) {
        Ok(found) => found.event,
        Err(_) => no_event(),
    }
}

// Whether there is a readable event at or after a place: 1 6 7 2 4 9 11.
pub fn barkmottle_search(key: &[u8], frame: &[u8], place: usize) -> u32
    ensures { result ≡ (search_answer key.now frame.now place).number }
{
    match search(key, frame, place) {
        Ok(_) => 0,
        Err(missed) => missed.refusal() as u32,
    }
}

// The place of the found event; 0 where there is none.
pub fn barkmottle_search_place(key: &[u8], frame: &[u8], place: usize) -> usize
    ensures { result ≡ (search_answer key.now frame.now place).place }
{
    match search(key, frame, place) {
        Ok(found) => found.place,
        Err(_) => 0,
    }
}

// The blocks tried, also where there is no readable event; 0 with any other refusal.
pub fn barkmottle_search_tries(key: &[u8], frame: &[u8], place: usize) -> usize
    ensures { result ≡ (search_answer key.now frame.now place).tries }
{
    match search(key, frame, place) {
        Ok(found) => found.tries,
        Err(missed) => missed.tries(),
    }
}

// Wall-clock seconds since 2000-01-01 00:00 of the found event.
pub fn barkmottle_search_wall(key: &[u8], frame: &[u8], place: usize) -> i64
    ensures { result ≡ (search_answer key.now frame.now place).event.wall.0 }
{
    find(key, frame, place).wall.0
}

// UTC seconds since 2000-01-01 00:00 of the found event.
pub fn barkmottle_search_utc(key: &[u8], frame: &[u8], place: usize) -> i64
    ensures { result ≡ (search_answer key.now frame.now place).event.utc.0 }
{
    find(key, frame, place).utc.0
}

// The offset from UTC in quarter hours of the found event.
pub fn barkmottle_search_offset(key: &[u8], frame: &[u8], place: usize) -> i32
    ensures { result ≡ (search_answer key.now frame.now place).event.offset }
{
    find(key, frame, place).offset
}

// The value of the found event.
pub fn barkmottle_search_value(key: &[u8], frame: &[u8], place: usize) -> i32
    ensures { result ≡ (search_answer key.now frame.now place).event.value }
{
    find(key, frame, place).value
}

// The kind byte of the found event.
pub fn barkmottle_search_kind(key: &[u8], frame: &[u8], place: usize) -> u32
    ensures { result ≡ (search_answer key.now frame.now place).event.kind }
{
    u32::from(find(key, frame, place).kind)
}

// The number of the class of the found event.
pub fn barkmottle_search_class(key: &[u8], frame: &[u8], place: usize) -> u32
    ensures { result ≡ class_number (search_answer key.now frame.now place).event.class }
{
    class_number(find(key, frame, place).class)
}

// The inverter of the found event.
pub fn barkmottle_search_inverter(key: &[u8], frame: &[u8], place: usize) -> u32
    ensures { result ≡ (search_answer key.now frame.now place).event.inverter }
{
    u32::from(find(key, frame, place).inverter)
}

// The sequence of the found event.
pub fn barkmottle_search_sequence(key: &[u8], frame: &[u8], place: usize) -> u32
    ensures { result ≡ (search_answer key.now frame.now place).event.sequence }
{
    find(key, frame, place).sequence
}
