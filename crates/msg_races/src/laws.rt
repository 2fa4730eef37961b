//! A law of message races. Its body is empty; a caller's clause follows from its own.
ghost use Rattle.msg_races.specs.Races.{RunsHaveOneList};

/// A run has one list of races: each of its wildcard receives was completed once.
pub fn one_list()
    ensures { RunsHaveOneList }
{}
