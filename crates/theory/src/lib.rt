// The order of events along a path: laws of projections, cuts and queues. A function's contract is the law that it answers.
// F is what a letter carries besides its header.
#![tactic(auto)]

pub mod law;

ghost use Rattle.std.specs.Prelude.{◌≡◌};
ghost use Rattle.theory.specs.Theorems.{LongerProjection, LongerTurns, LongerWaiting, LongerPlays, SentIsTaken, OwnLetter, CountWaiting, CountOuts, StepWaiting, StepCut, FreightDone, IdleRule};
ghost use Rattle.theory.specs.Theorems.{Progress, PlayedOut, NothingWaits, Completion, Played, BegunFront, FirstIsLeaders, LeaderAhead, LeaderBegins, EndWithin};

use crate::law::Law;

// A path one place longer: projections, turns, and what waits.
pub fn longer_path<F>() -> Law
    ensures law { result ≡ Law.LongerPath }
    ensures projection { LongerProjection }
    ensures turns { LongerTurns }
    ensures waiting { LongerWaiting F }
    ensures plays { LongerPlays }
{
    Law::LongerPath
}

// What waits is what its receiver takes next, each in its own letter.
pub fn own_letters<F>() -> Law
    ensures law { result ≡ Law.OwnLetters }
    ensures taken { SentIsTaken F }
    ensures own { OwnLetter F }
{
    Law::OwnLetters
}

// As many letters wait as have gone out and not come in.
pub fn how_many_wait<F>() -> Law
    ensures law { result ≡ Law.HowManyWait }
    ensures waiting { CountWaiting F }
    ensures outs { CountOuts }
{
    Law::HowManyWait
}

// One step changes what waits by its own letter.
pub fn one_step<F>() -> Law
    ensures law { result ≡ Law.OneStep }
    ensures waiting { StepWaiting F }
    ensures cut { StepCut }
    ensures freight { FreightDone F }
{
    Law::OneStep
}

// By turn and first event an idle instance recognises the letter of its next event.
pub fn idle_rule<F>() -> Law
    ensures law { result ≡ Law.IdleRule }
    ensures rule { IdleRule F }
{
    Law::IdleRule
}

// Something can be played while an event is lacking, so everything can be played in the end; then nothing waits.
pub fn never_stuck<F>() -> Law
    ensures law { result ≡ Law.NeverStuck }
    ensures progress { Progress }
    ensures out { PlayedOut }
    ensures nothing { NothingWaits F }
{
    Law::NeverStuck
}

// What is in order begins a linearisation.
pub fn in_order() -> Law
    ensures law { result ≡ Law.InOrder }
    ensures completion { Completion }
{
    Law::InOrder
}

// Playing event by event lists a beginning of a linearisation.
pub fn event_by_event() -> Law
    ensures law { result ≡ Law.EventByEvent }
    ensures played { Played }
{
    Law::EventByEvent
}

// Places begin in order, each by its leader, who takes part in the place ahead.
pub fn place_by_place() -> Law
    ensures law { result ≡ Law.PlaceByPlace }
    ensures front { BegunFront }
    ensures first { FirstIsLeaders }
    ensures ahead { LeaderAhead }
    ensures leader { LeaderBegins }
{
    Law::PlaceByPlace
}

// How many places an end label is away at most.
pub fn places_to_end() -> u8
    ensures near { EndWithin result }
{
    64
}
