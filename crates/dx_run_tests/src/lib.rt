//! Tests of whole lines and sessions, by public calls alone.
#![tactic(auto)]

#[cfg(test)]
mod device_tests;
#[cfg(test)]
mod frame_tests;
#[cfg(test)]
mod kept_tests;
#[cfg(test)]
mod limit_tests;
#[cfg(test)]
mod macro_tests;
#[cfg(test)]
mod outcome;
#[cfg(test)]
mod print_tests;
#[cfg(test)]
mod session_tests;
