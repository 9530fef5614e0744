// The lines of what stations gave.
ghost use Rattle.std.specs.Prelude.{◌≡◌, ◌≤◌, ◌++◌, length, flat_map, IfOk, OnOk};
ghost use Rattle.lgx_stations.specs.declared.stations.TheConstants.{MAX_STATIONS};
ghost use Rattle.cmd_stations.specs.StationsText.{spaced_number, station_line, station_lines, lines_from};

use lgx_hmi::Snapshot;
use lgx_num::Memory;
use lgx_stations::Readings;
use lgx_watch::{push_count, push_word};
use std::alloc::Global;

/// Adds a space and a value.
fn push_value(text: &mut Vec<u8>, value: i32) -> Result<(), Memory>
    ensures { OnOk result (text.new.items ≡ text.old.items ++ spaced_number value) }
{
    let alloc = *text.allocator();
    let digits = value.to_string(alloc)?;
    push_word(text, digits.as_bytes())
}

/// Adds each value after a space.
fn push_values(text: &mut Vec<u8>, values: &[i32]) -> Result<(), Memory>
    ensures { OnOk result (text.new.items ≡ text.old.items ++ flat_map spaced_number values.now) }
{
    for value in values {
        push_value(text, *value)?;
    }
    Ok(())
}

/// Adds the line of a snapshot that a station gave.
fn push_line(text: &mut Vec<u8>, station: u32, snapshot: &Snapshot) -> Result<(), Memory>
    ensures { OnOk result (text.new.items ≡ text.old.items ++ station_line station snapshot.now) }
{
    text.extend_from_slice(b"station")?;
    push_count(text, u64::from(station))?;
    push_count(text, u64::from(snapshot.tick))?;
    push_values(text, snapshot.values.as_slice())?;
    text.push(b'\n')?;
    Ok(())
}

/// Adds the two lines of a station.
fn push_lines(text: &mut Vec<u8>, station: u32, readings: &Readings) -> Result<(), Memory>
    ensures { OnOk result (text.new.items ≡ text.old.items ++ station_lines station readings.now) }
{
    push_line(text, station, readings.first())?;
    push_line(text, station, readings.last())
}

/// The lines of all stations.
pub(crate) fn stations_text(alloc: Global, readings: &[Readings]) -> Result<Vec<u8>, Memory>
    requires { length readings.now ≤ MAX_STATIONS }
    ensures { IfOk result (λ text. text.items ≡ lines_from 0 readings.now) }
{
    let mut text = Vec::new(alloc);
    for (station, readings) in readings.iter().enumerate() {
        push_lines(&mut text, station as u32, readings)?;
    }
    Ok(text)
}
