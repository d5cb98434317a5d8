//! Tests of omi_elf and omi_read: ELF core files written by hand, each fault at each of its turns, a file in odd orders, and files of which
//! pieces are read.
#![tactic(auto)]

#[cfg(test)]
mod encoding_tests;
#[cfg(test)]
mod fault_tests;
#[cfg(test)]
mod file_tests;
#[cfg(test)]
mod reading_tests;
