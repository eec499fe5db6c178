//! A station's coordinates, and their text `east=70 north=-4 up=12`.

ghost use Rattle.std.specs.Prelude.{◌≡◌, Some, MatchOption, ◌≢◌};
ghost use Rattle.survey.specs.Station.{Fitting, station_text, written};
ghost use Rattle.survey.specs.declared.station.Station.{Station};

use std::fmt;
use text::field::{after_label, field};
use text::number::read_number;

/// Where a station lies, in centimetres from the datum.
#[derive(Clone, Copy, PartialEq, Eq, Debug)]
pub struct Station {
    pub east: i32,
    pub north: i32,
    pub up: i32,
}

impl fmt::Display for Station {
    ghost output = { λ s. Some (written s) };

    fn fmt<W: fmt::Write>(&self, f: &mut fmt::Formatter<W>) -> fmt::Result {
        let Station { east, north, up } = *self;
        write!(f, "east={east} north={north} up={up}")
    }
}

/// The coordinates that `text` writes: no text but a station's own is read, and each of these is.
#[tactic(auto, using(crate::proofs::Stations::station_exact))]
pub fn read_station(text: &str) -> Option<Station>
    ensures value { result ≡ station_text text.now }
    ensures exact { MatchOption result ((s : Station) → Fitting s → text.now ≢ written s) (λ s. text.now ≡ written s) }
{
    let (east, rest) = field(text, "east=")?;
    let (north, rest) = field(rest, "north=")?;
    let up = after_label(rest, "up=")?;
    let east = read_number(east)?;
    let north = read_number(north)?;
    let up = read_number(up)?;
    Some(Station { east, north, up })
}
