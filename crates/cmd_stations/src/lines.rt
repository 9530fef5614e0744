// The text, line by line.
ghost use Rattle.std.specs.Prelude.{◌≡◌, length};
ghost use Rattle.cmd_stations.specs.Rest.{rest_of, left_of};

use lgx_answer::{Lines, line_length};
use lgx_judge::{End, report_line};
use lgx_num::Memory;
use lgx_stations::Reported;

/// Which line comes next.
#[derive(Clone, Copy)]
pub(crate) enum NextLine {
    /// The report's line with this number; after the last come those of the stations.
    Report(u32),
    /// The line of a station that begins at this byte of theirs.
    Stations(usize),
}

/// The lines of the report of a run, and then those of the stations.
#[derive(Drop)]
pub(crate) struct StationsLines {
    pub(crate) reported: Reported,
    pub(crate) end: End,
    /// The lines of the stations.
    pub(crate) stations: Vec<u8>,
    pub(crate) place: NextLine,
}

impl Lines for StationsLines {
    ghost use Rattle.cmd_stations.specs.Rest.{rest_of, left_of};

    ghost rest = { λ l. rest_of l.reported l.end l.stations.items l.place };

    ghost left = { λ l. left_of l.reported l.stations.items l.place };

    fn line(&mut self, line: &mut Vec<u8>) -> Result<bool, Memory> {
        match self.place {
            NextLine::Report(next) => {
                let (log, names) = (&self.reported.log, self.reported.run.names());
                if report_line(line, log, names, self.end, next)? {
                    self.place = NextLine::Report(next + 1);
                    return Ok(true);
                }
                self.place = NextLine::Stations(0);
                self.station_line(line, 0)
            }
            NextLine::Stations(at) => self.station_line(line, at),
        }
    }
}

impl StationsLines {
    ghost use Rattle.std.specs.Prelude.{◌≡◌, ◌<◌, ◌++◌, ◌-◌, [], Ok, true, false, drop, length};
    ghost use Rattle.std.specs.Io.BufRead.{take_through};
    ghost use Rattle.cmd_stations.specs.declared.lines.NextLine.TheVariants.{Stations};

    /// Makes the line of a station that begins at a byte of theirs, and no more than that, in place of what is in `line`; `false`
    /// if none does.
    fn station_line(&mut self, line: &mut Vec<u8>, at: usize) -> Result<bool, Memory>
        requires { self.old.place ≡ Stations at }
        ensures one { result ≡ Ok true → line.new.items ≡ take_through 10 (drop at self.old.stations.items) }
        ensures more { result ≡ Ok true → drop at self.old.stations.items ≡ line.new.items ++ rest_of self.new.reported self.new.end self.new.stations.items self.new.place }
        ensures fewer { result ≡ Ok true → left_of self.new.reported self.new.stations.items self.new.place < length self.old.stations.items - at }
        ensures none { result ≡ Ok false → drop at self.old.stations.items ≡ [] }
    {
        if at >= self.stations.len() {
            return Ok(false);
        }
        let lines = &self.stations[at..];
        let count = line_length(lines);
        line.clear();
        line.extend_from_slice(&lines[..count])?;
        self.place = NextLine::Stations(at + count);
        Ok(true)
    }
}
