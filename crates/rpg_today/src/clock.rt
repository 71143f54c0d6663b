//! The day of the system's clock, in the system's time zone.

ghost use Rattle.std.specs.Prelude.{◌<◌, IfSome};

use jiff::Timestamp;
use jiff::civil::Date;
use jiff::tz::{SystemTimeZone, TimeZone, TimeZoneDatabase};
use rpg_cli_values::Day;
use std::io::Read;
use std::rt::{Clock, Env, Files};
use std::{env, fs};

/// The folder of the zones' files.
const ZONES: &str = "/usr/share/zoneinfo/";

/// The most bytes of a zone's file.
const MOST_BYTES: u64 = 1_048_576;

/// Opens the file of a zone, if there is one with this name.
fn zone_file<R: Files + AllocGlobal>(rt: &R, name: &str) -> Option<R::File> {
    let path = format!(in rt.alloc(); "{ZONES}{name}").ok()?;
    fs::open(rt, path.as_str()).ok()
}

/// Reads the file of a zone, if there is one with this name.
fn zone_bytes<R: Files + AllocGlobal>(rt: &R, name: &str) -> Option<Vec<u8>> {
    let file = zone_file(rt, name)?;
    let mut bytes = Vec::new(rt.alloc());
    file.take(MOST_BYTES).read_to_end(&mut bytes).ok()?;
    Some(bytes)
}

/// Returns a database with the zone that the variable TZ names, if it names one.
fn zones<R: Env + Files + AllocGlobal>(rt: &R) -> TimeZoneDatabase {
    let mut zones = TimeZoneDatabase::new(rt.alloc());
    if let Ok(name) = env::var(rt, "TZ") {
        let name = name.as_str();
        let name = name.strip_prefix(':').unwrap_or(name);
        if let Some(bytes) = zone_bytes(rt, name) {
            let _inserted = zones.insert(name, &bytes);
        }
    }
    zones
}

/// Returns the last two digits of a part of a date.
fn below_hundred(part: i16) -> u8
    ensures { result < 100 }
{
    (part.unsigned_abs() % 100) as u8
}

fn day_of(date: Date) -> Day
    ensures year { result.year < 100 }
    ensures month { result.month < 100 }
    ensures day { result.day < 100 }
{
    Day {
        year: below_hundred(date.year()),
        month: below_hundred(i16::from(date.month())),
        day: below_hundred(i16::from(date.day())),
    }
}

/// Returns the date of the clock in a zone.
fn date_in(instant: Timestamp, zone: TimeZone<'_>) -> Date {
    zone.to_datetime(instant).date()
}

/// Returns the date of the clock in the system's zone, if the database has it.
fn date_by(system: &SystemTimeZone, zones: &TimeZoneDatabase, instant: Timestamp) -> Option<Date> {
    let zone = system.time_zone(zones).ok()?;
    Some(date_in(instant, zone))
}

/// Returns the date of the clock in the system's zone, or in UTC if the system has no zone.
fn system_date<R: Env + Files + AllocGlobal>(rt: &R, instant: Timestamp) -> Date {
    let zones = zones(rt);
    let known = match SystemTimeZone::read(rt) {
        Ok(system) => date_by(&system, &zones, instant),
        Err(_) => None,
    };
    known.unwrap_or(date_in(instant, TimeZone::UTC))
}

/// Returns the day of the system's clock in the system's zone, or in UTC if the system has no zone. None if the clock
/// can't be read.
pub fn today<R: Clock + Env + Files + AllocGlobal>(rt: &R) -> Option<Day>
    ensures year { IfSome result (λ day. day.year < 100) }
    ensures month { IfSome result (λ day. day.month < 100) }
    ensures day { IfSome result (λ day. day.day < 100) }
{
    let instant = Timestamp::now(rt).ok()?;
    Some(day_of(system_date(rt, instant)))
}
