// What the words of the command line ask for.
ghost use Rattle.std.specs.Prelude.{◌≡◌, ◌<◌, ◌≤◌, map, string_bytes, IfSome};
ghost use Rattle.lgx_stations.specs.declared.stations.TheConstants.{MAX_STATIONS};
ghost use Rattle.spec_text.specs.TextLines.{unsigned_of};
ghost use Rattle.logix_run.specs.Words.{command_of, of_one, of_two, of_three, station_count};
ghost use Rattle.logix_run.specs.Commands.{said, HasStations};

/// A command, with the names of its files.
#[derive(Clone, Copy)]
pub(crate) enum Command<'a> {
    Check(&'a str),
    Text(&'a str),
    Migrate(&'a str),
    Xref(&'a str),
    Gen(u32),
    Replay(&'a str, &'a str),
    Trace(&'a str, &'a str),
    Audit(&'a str, &'a str),
    Run(&'a str, &'a str),
    Link(&'a str, &'a str, &'a str),
    /// And how many stations watch: 1 to 8.
    Stations(&'a str, &'a str, u32),
    /// No command has these words.
    Usage,
}

/// The number that 1 to 10 decimal digits are, up to 4,294,967,295. Zeros in front do no harm, and a sign does.
#[tactic(auto, using(crate::proofs::Numbers::long_number, crate::proofs::Numbers::signed_number, crate::proofs::Numbers::parsed_number))]
fn number_of(digits: &str) -> Option<u32>
    ensures { result ≡ unsigned_of digits.now }
{
    if digits.len() > 10 {
        return None;
    }
    match digits.as_bytes() {
        [b'+', ..] => None,
        _ => digits.parse::<u32>().ok(),
    }
}

/// The number that one digit from 1 to 8 is.
fn station_count(digit: &str) -> Option<u32>
    ensures count { result ≡ station_count digit.now }
    ensures few { IfSome result (λ count. (0 < count) × (count ≤ MAX_STATIONS)) }
{
    let [digit] = digit.as_bytes() else {
        return None;
    };
    if *digit > b'0' && *digit < b'9' {
        return Some(u32::from(*digit - b'0'));
    }
    None
}

/// The command of a word and one more.
fn command_of_one<'a>(word: &str, name: &'a str) -> Command<'a>
    ensures said { said result ≡ of_one word.now name.now }
    ensures few { HasStations result }
{
    match word {
        "check" => Command::Check(name),
        "text" => Command::Text(name),
        "migrate" => Command::Migrate(name),
        "xref" => Command::Xref(name),
        "gen" => match number_of(name) {
            Some(number) => Command::Gen(number),
            None => Command::Usage,
        },
        _ => Command::Usage,
    }
}

/// The command of a word and two more.
fn command_of_two<'a>(word: &str, first: &'a str, second: &'a str) -> Command<'a>
    ensures said { said result ≡ of_two word.now first.now second.now }
    ensures few { HasStations result }
{
    match word {
        "replay" => Command::Replay(first, second),
        "trace" => Command::Trace(first, second),
        "audit" => Command::Audit(first, second),
        "run" => Command::Run(first, second),
        _ => Command::Usage,
    }
}

/// The command of a word and three more.
fn command_of_three<'a>(word: &str, first: &'a str, second: &'a str, third: &'a str) -> Command<'a>
    ensures said { said result ≡ of_three word.now first.now second.now third.now }
    ensures few { HasStations result }
{
    match word {
        "link" => Command::Link(first, second, third),
        "stations" => match station_count(third) {
            Some(count) => Command::Stations(first, second, count),
            None => Command::Usage,
        },
        _ => Command::Usage,
    }
}

/// What these words ask for.
#[tactic(auto, unfolding(crate::specs::Words::command_of))]
pub(crate) fn command_of(words: &[String]) -> Command<'_>
    ensures said { said result ≡ command_of (map string_bytes words.now) }
    ensures few { HasStations result }
{
    match words {
        [word, name] => command_of_one(word.as_str(), name.as_str()),
        [word, first, second] => command_of_two(word.as_str(), first.as_str(), second.as_str()),
        [word, first, second, third] => command_of_three(
            word.as_str(),
            first.as_str(),
            second.as_str(),
            third.as_str(),
        ),
        _ => Command::Usage,
    }
}
