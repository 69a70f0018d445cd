//! Tests of macros, definitions, static faults and expansions over whole scripts, as the parser reads them.
#![tactic(auto)]

#[cfg(test)]
mod effect_tests;
#[cfg(test)]
mod effects;
#[cfg(test)]
mod fault_tests;
#[cfg(test)]
mod faults;
#[cfg(test)]
mod meaning_tests;
#[cfg(test)]
mod session;
#[cfg(test)]
mod shown;
#[cfg(test)]
mod texts;
