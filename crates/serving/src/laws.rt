//! What follows of a run.
ghost use Rattle.serving.specs.Claims.{TakesAlike, TakesAllButOverruns, TakesAllThatIsHeld, TakesAsWithoutHidden};
ghost use Rattle.serving.specs.Counting.{AsksAsDue};
ghost use Rattle.serving.specs.Keeping.{KeepsAhead, KeepsExactly};
ghost use Rattle.serving.specs.Looking.{AsksByTime};
ghost use Rattle.serving.specs.Paces.{ComesOnTime};
ghost use Rattle.serving.specs.Restarts.{RestartsTellNothing};

use crate::between::Between;

/// In a run of all its turns, the configuration is asked for as often as the timetable says.
pub fn asks_as_due<B: Between>()
    ensures { AsksAsDue B.Fault }
{}

/// At each moment of a run, between its turns and during them, the numbers that were kept last are ahead of those that
/// are given, unless the last keep failed.
pub fn keeps_ahead<B: Between>()
    ensures { KeepsAhead B.Fault }
{}

/// At each stop of a run the number that was kept last of a station depends on the station's own records alone, unless
/// the last keep failed.
pub fn keeps_exactly<B: Between>()
    ensures { KeepsExactly B.Fault }
{}

/// In a run of all its turns, the configuration is asked for after exactly those turns at which it was said to be due
/// by time, if it goes by time alone.
pub fn asks_by_time<B: Between>()
    ensures { AsksByTime B.Fault }
{}

/// What is done every so many seconds comes at the first look at a clock at which so many have passed since it came
/// last, over any times that don't fall, and not at a look that fails.
pub fn comes_on_time()
    ensures { ComesOnTime }
{}

/// A client of two servers, each of which runs any number of times over its own file of numbers, is handed the same in
/// each run by both, if its own events and the arrivals at its stations are alike in each of them: whatever arrives at
/// other stations, and whatever other clients do, in whatever run.
pub fn restarts_tell_nothing()
    ensures { RestartsTellNothing }
{}

/// Two clients with the same view at their Open, the same events of their own and the same arrivals at stations that
/// they see take the same bytes at their ports, at whatever running servers and beside whatever other clients.
pub fn serves_alike<B: Between>()
    ensures { TakesAlike B.Fault }
{}

/// What a client's port takes in a run is what is handed to that client by a server without the stations that are
/// hidden from its address under every configuration in force, by the same events, if the same new configurations are
/// accepted.
pub fn hidden_stations_tell_nothing<B: Between>()
    ensures { TakesAsWithoutHidden B.Fault }
{}

/// A client's port takes what is handed to the client, and a transfer of it misses a wanted record only if that was
/// overrun: if as many later records of its station as are held had come when an offer passed over it.
pub fn misses_only_overruns<B: Between>()
    ensures { TakesAllButOverruns B.Fault }
{}

/// A client's port takes what is handed to the client, and a transfer of it misses nothing if at each of its offers all
/// that may still be chosen and is wanted is held.
pub fn misses_nothing_that_is_held<B: Between>()
    ensures { TakesAllThatIsHeld B.Fault }
{}
