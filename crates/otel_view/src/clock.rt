//! Moments in the local time.

use anyhow::Result;
use jiff::Timestamp;
use jiff::tz::{SystemTimeZone, TimeZone, TimeZoneDatabase};
use std::alloc::Global;

/// The time zone of the system, as far as it is known.
#[derive(Drop)]
pub struct Clock {
    database: TimeZoneDatabase,
    system: Option<SystemTimeZone>,
}

impl Clock {
    /// Returns the clock of the system. If its time zone isn't known, it is UTC's.
    pub fn new(rt: HostRuntime) -> Clock {
        Clock {
            database: TimeZoneDatabase::new(rt.alloc()),
            system: SystemTimeZone::read(&rt).ok(),
        }
    }

    /// Returns the time zone, or `None` if it isn't known.
    fn zone(&self) -> Option<TimeZone<'_>> {
        match &self.system {
            Some(system) => system.time_zone(&self.database).ok(),
            None => None,
        }
    }

    /// Returns whether the time zone is known.
    pub fn is_local(&self) -> bool {
        self.zone().is_some()
    }

    /// Returns the date and the time of day of a moment, in nanoseconds since
    /// 1970-01-01T00:00:00Z, in 19 characters.
    pub fn text(&self, alloc: Global, moment: u64) -> Result<String> {
        let moment = Timestamp::from_nanosecond(i128::from(moment))?;
        let zone = self.zone().unwrap_or(TimeZone::UTC);
        Ok(moment.to_zoned(zone).strftime(alloc, "%Y-%m-%d %H:%M:%S")?)
    }
}
