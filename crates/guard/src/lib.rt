// A guarded run, tick by tick: start, ask, report.
#![tactic(auto)]

pub mod asks;
pub mod reports;
pub mod runs;
