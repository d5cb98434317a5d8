//! Tests of omi_script, omi_line and omi_usage: texts of programs and command lines, at each rule and limit.
#![tactic(auto)]

#[cfg(test)]
mod line_tests;
#[cfg(test)]
mod row_tests;
#[cfg(test)]
mod tests;
#[cfg(test)]
mod usage_tests;
