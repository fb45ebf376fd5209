// The search for the next readable event, a number or a field in each call. Without an event, every field but the tries is 0.
ghost use Rattle.std.specs.Prelude.{◌≡◌};
ghost use Rattle.event.specs.Event.{class_number};
ghost use Rattle.search.specs.Search.{search_answer};

// Whether there is a readable event at or after a place: 1 6 7 2 4 9 11.
#[unsafe(no_mangle)]
pub extern "C" fn barkmottle_search(key: &[u8], frame: &[u8], place: usize) -> u32
    ensures { result ≡ (search_answer key.now frame.now place).number }
{
    barkmottle::searches::barkmottle_search(key, frame, place)
}

// The place of the found event; 0 where there is none.
#[unsafe(no_mangle)]
pub extern "C" fn barkmottle_search_place(key: &[u8], frame: &[u8], place: usize) -> usize
    ensures { result ≡ (search_answer key.now frame.now place).place }
{
    barkmottle::searches::barkmottle_search_place(key, frame, place)
}

// The blocks tried, also where there is no readable event; 0 with any other refusal.
#[unsafe(no_mangle)]
pub extern "C" fn barkmottle_search_tries(key: &[u8], frame: &[u8], place: usize) -> usize
    ensures { result ≡ (search_answer key.now frame.now place).tries }
{
    barkmottle::searches::barkmottle_search_tries(key, frame, place)
}

// Wall-clock seconds since 2000-01-01 00:00 of the found event.
#[unsafe(no_mangle)]
pub extern "C" fn barkmottle_search_wall(key: &[u8], frame: &[u8], place: usize) -> i64
    ensures { result ≡ (search_answer key.now frame.now place).event.wall.0 }
{
    barkmottle::searches::barkmottle_search_wall(key, frame, place)
}

// UTC seconds since 2000-01-01 00:00 of the found event.
#[unsafe(no_mangle)]
pub extern "C" fn barkmottle_search_utc(key: &[u8], frame: &[u8], place: usize) -> i64
    ensures { result ≡ (search_answer key.now frame.now place).event.utc.0 }
{
    barkmottle::searches::barkmottle_search_utc(key, frame, place)
}

// The offset from UTC in quarter hours of the found event.
#[unsafe(no_mangle)]
pub extern "C" fn barkmottle_search_offset(key: &[u8], frame: &[u8], place: usize) -> i32
    ensures { result ≡ (search_answer key.now frame.now place).event.offset }
{
    barkmottle::searches::barkmottle_search_offset(key, frame, place)
}

// The value of the found event.
#[unsafe(no_mangle)]
pub extern "C" fn barkmottle_search_value(key: &[u8], frame: &[u8], place: usize) -> i32
    ensures { result ≡ (search_answer key.now frame.now place).event.value }
{
    barkmottle::searches::barkmottle_search_value(key, frame, place)
}

// The kind byte of the found event.
#[unsafe(no_mangle)]
pub extern "C" fn barkmottle_search_kind(key: &[u8], frame: &[u8], place: usize) -> u32
    ensures { result ≡ (search_answer key.now frame.now place).event.kind }
{
    barkmottle::searches::barkmottle_search_kind(key, frame, place)
}

// The number of the class of the found event.
#[unsafe(no_mangle)]
pub extern "C" fn barkmottle_search_class(key: &[u8], frame: &[u8], place: usize) -> u32
    ensures { result ≡ class_number (search_answer key.now frame.now place).event.class }
{
    barkmottle::searches::barkmottle_search_class(key, frame, place)
}

// The inverter of the found event.
#[unsafe(no_mangle)]
pub extern "C" fn barkmottle_search_inverter(key: &[u8], frame: &[u8], place: usize) -> u32
    ensures { result ≡ (search_answer key.now frame.now place).event.inverter }
{
    barkmottle::searches::barkmottle_search_inverter(key, frame, place)
}

// The sequence of the found event.
#[unsafe(no_mangle)]
pub extern "C" fn barkmottle_search_sequence(key: &[u8], frame: &[u8], place: usize) -> u32
    ensures { result ≡ (search_answer key.now frame.now place).event.sequence }
{
    barkmottle::searches::barkmottle_search_sequence(key, frame, place)
}
