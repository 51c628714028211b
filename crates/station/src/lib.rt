// Where a survey is made from: a station in units or in metres, and its eye.
#![tactic(auto)]

ghost use Rattle.std.specs.Prelude.{◌≡◌, ◌^◌, ◌≤◌, ◌<◌};
ghost use Rattle.model.specs.Station.{metres, nearest_whole, whole_units};
ghost use Rattle.station.specs.Bits.{SizeIs};
ghost use Rattle.station.specs.Machine.{station_of, WholeIs, LocatedAt};

use format::records::vector;
use geometry::Vector;

// "Three doubles travel together as one station"
#[derive(Clone, Copy)]
pub struct Metres {
    pub x: f64,
    pub y: f64,
    pub z: f64,
}

// "A station arrives either as units or as three doubles in metres"
#[derive(Clone, Copy)]
pub enum Station {
    Units(i16, i16, i16),
    Metres(Metres),
}

// the bit of a double's sign
const SIGN: u64 = 9223372036854775808;

// the bit of its digits that is not among its bits
const LEADING: u64 = 4503599627370496;

// units that are in range
const MOST: u64 = 10000;

// p / 2 ^ shift to the nearest whole number, halfway to the even one
fn rounded(p: u64, shift: u64) -> u64
    requires { (p < 2 ^ 61) × (1 ≤ shift) × (shift ≤ 61) }
    ensures { result ≡ nearest_whole p (2 ^ shift) }
{
    let whole = p >> shift;
    let rest = p - (whole << shift);
    let half = 1 << (shift - 1);
    if rest < half {
        return whole;
    }
    if half < rest {
        return whole + 1;
    }
    whole + whole % 2
}

// The size in units of a double with these bits, the sign left out. From 64 metres on, and of what is not finite, 10,001 stands for it: no size there is in range. Below
// 1/512 of a metre it is 0. Between them the shift is by less than a word.
fn size_of(bits: u64) -> u64
    requires { bits < 2 ^ 63 }
    ensures { SizeIs bits result }
{
    let exponent = bits / LEADING;
    if 1029 <= exponent {
        return 10001;
    }
    if exponent < 1014 {
        return 0;
    }
    let digits = bits % LEADING + LEADING;
    rounded(200 * digits, 1075 - exponent)
}

// A double's whole number of units, where it has one in range. By the bits alone, since a product of doubles would be rounded before it is rounded. A NaN has no bits that
// can be told, so it is asked for first.
fn whole_units(x: f64) -> Option<i64>
    ensures { WholeIs (whole_units x) result }
{
    if x.is_nan() {
        return None;
    }
    let bits = x.to_bits();
    let size = size_of(bits % SIGN);
    if MOST < size {
        return None;
    }
    let n = size as i64;
    if SIGN <= bits { Some(-n) } else { Some(n) }
}

fn located_in_metres(m: Metres) -> Option<Vector>
    ensures { LocatedAt (metres m.x m.y m.z) result }
{
    Some(Vector {
        x: whole_units(m.x)?,
        y: whole_units(m.y)?,
        z: whole_units(m.z)?,
    })
}

// Question 15, and the eye: none where a double of the station is not finite or out of range.
pub fn locate(station: Station) -> Option<Vector>
    ensures { LocatedAt (station_of station) result }
{
    match station {
        Station::Units(x, y, z) => Some(vector(x, y, z)),
        Station::Metres(m) => located_in_metres(m),
    }
}
