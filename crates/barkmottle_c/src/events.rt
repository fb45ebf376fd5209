// Events, a number or a field in each call. Where reading refuses, every field is 0.
ghost use Rattle.std.specs.Prelude.{◌≡◌};
ghost use Rattle.event.specs.Event.{class_number};
ghost use Rattle.event.specs.Read.{reading};

// Whether an event is readable: 2 10.
#[unsafe(no_mangle)]
pub extern "C" fn barkmottle_read_event(event: &[u8]) -> u32
    ensures { result ≡ (reading event.now).number }
{
    barkmottle::events::barkmottle_read_event(event)
}

// Wall-clock seconds since 2000-01-01 00:00; 0 where reading refuses.
#[unsafe(no_mangle)]
pub extern "C" fn barkmottle_event_wall(event: &[u8]) -> i64
    ensures { result ≡ (reading event.now).event.wall.0 }
{
    barkmottle::events::barkmottle_event_wall(event)
}

// UTC seconds since 2000-01-01 00:00; 0 where reading refuses.
#[unsafe(no_mangle)]
pub extern "C" fn barkmottle_event_utc(event: &[u8]) -> i64
    ensures { result ≡ (reading event.now).event.utc.0 }
{
    barkmottle::events::barkmottle_event_utc(event)
}

// The offset from UTC in quarter hours; 0 where reading refuses.
#[unsafe(no_mangle)]
pub extern "C" fn barkmottle_event_offset(event: &[u8]) -> i32
    ensures { result ≡ (reading event.now).event.offset }
{
    barkmottle::events::barkmottle_event_offset(event)
}

// The value; 0 where reading refuses.
#[unsafe(no_mangle)]
pub extern "C" fn barkmottle_event_value(event: &[u8]) -> i32
    ensures { result ≡ (reading event.now).event.value }
{
    barkmottle::events::barkmottle_event_value(event)
}

// The kind byte; 0 where reading refuses.
#[unsafe(no_mangle)]
pub extern "C" fn barkmottle_event_kind(event: &[u8]) -> u32
    ensures { result ≡ (reading event.now).event.kind }
{
    barkmottle::events::barkmottle_event_kind(event)
}

// The number of the class; 0 where reading refuses.
#[unsafe(no_mangle)]
pub extern "C" fn barkmottle_event_class(event: &[u8]) -> u32
    ensures { result ≡ class_number (reading event.now).event.class }
{
    barkmottle::events::barkmottle_event_class(event)
}

// The inverter; 0 where reading refuses.
#[unsafe(no_mangle)]
pub extern "C" fn barkmottle_event_inverter(event: &[u8]) -> u32
    ensures { result ≡ (reading event.now).event.inverter }
{
    barkmottle::events::barkmottle_event_inverter(event)
}

// The sequence; 0 where reading refuses.
#[unsafe(no_mangle)]
pub extern "C" fn barkmottle_event_sequence(event: &[u8]) -> u32
    ensures { result ≡ (reading event.now).event.sequence }
{
    barkmottle::events::barkmottle_event_sequence(event)
}
