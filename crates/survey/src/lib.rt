// The calls for a console: the survey and its gate, from a station in units and from one in metres, and two answers on a row of the lit map. `survey_c` offers them to C.
// The C interface asks for a call for each form of the station, and for plain numbers, so that the calls of one kind are written out twice.
#![tactic(auto)]

pub mod map;
pub mod metres;
pub mod units;
