// Events, a number or a field in each call. Where reading refuses, every field is 0.
ghost use Rattle.std.specs.Prelude.{◌≡◌};
ghost use Rattle.event.specs.Event.{class_number};
ghost use Rattle.event.specs.Read.{reading};

use answers::number_of;
use event::{Event, class_number, no_event, read_event};

// The event in any bytes, or that of a refusal.
fn read(event: &[u8]) -> Event
    ensures { result ≡ (reading event.now).event }
{
    match read_event(event) {
        Ok(event) => event,
        Err(_) => no_event(),
    }
}

// Whether an event is readable: 2 10.
pub fn barkmottle_read_event(event: &[u8]) -> u32
    ensures { result ≡ (reading event.now).number }
{
    number_of(&read_event(event))
}

// Wall-clock seconds since 2000-01-01 00:00; 0 where reading refuses.
pub fn barkmottle_event_wall(event: &[u8]) -> i64
    ensures { result ≡ (reading event.now).event.wall.0 }
{
    read(event).wall.0
}

// UTC seconds since 2000-01-01 00:00; 0 where reading refuses.
pub fn barkmottle_event_utc(event: &[u8]) -> i64
    ensures { result ≡ (reading event.now).event.utc.0 }
{
    read(event).utc.0
}

// The offset from UTC in quarter hours; 0 where reading refuses.
pub fn barkmottle_event_offset(event: &[u8]) -> i32
    ensures { result ≡ (reading event.now).event.offset }
{
    read(event).offset
}

// The value; 0 where reading refuses.
pub fn barkmottle_event_value(event: &[u8]) -> i32
    ensures { result ≡ (reading event.now).event.value }
{
    read(event).value
}

// The kind byte; 0 where reading refuses.
pub fn barkmottle_event_kind(event: &[u8]) -> u32
    ensures { result ≡ (reading event.now).event.kind }
{
    u32::from(read(event).kind)
}

// The number of the class; 0 where reading refuses.
pub fn barkmottle_event_class(event: &[u8]) -> u32
    ensures { result ≡ class_number (reading event.now).event.class }
{
    class_number(read(event).class)
}

// The inverter; 0 where reading refuses.
pub fn barkmottle_event_inverter(event: &[u8]) -> u32
    ensures { result ≡ (reading event.now).event.inverter }
{
    u32::from(read(event).inverter)
}

// The sequence; 0 where reading refuses.
pub fn barkmottle_event_sequence(event: &[u8]) -> u32
    ensures { result ≡ (reading event.now).event.sequence }
{
    read(event).sequence
}
