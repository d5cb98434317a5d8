//! Tests of `show`, `recode`, `elf` and `audit` through the top call: reports of cores in many layouts and sizes, in either order and as ELF files,
//! verdicts, how much of a core is read, and the refusals.
#![tactic(auto)]

#[cfg(test)]
mod audit_tests;
#[cfg(test)]
mod counted;
#[cfg(test)]
mod elf_files;
#[cfg(test)]
mod elf_tests;
#[cfg(test)]
mod layout_tests;
#[cfg(test)]
mod paged_tests;
#[cfg(test)]
mod recode_tests;
#[cfg(test)]
mod show_tests;
#[cfg(test)]
mod size_tests;
