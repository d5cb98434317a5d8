//! Tests of omi_corefile, omi_calls and omi_page: the bytes of cores, callbacks over a core, and cores read page by page.
#![tactic(auto)]

#[cfg(test)]
mod call_tests;
#[cfg(test)]
mod corefile_tests;
#[cfg(test)]
mod cores;
#[cfg(test)]
mod elf_page_tests;
#[cfg(test)]
mod headers;
#[cfg(test)]
mod page_fault_tests;
#[cfg(test)]
mod page_tests;
#[cfg(test)]
mod sparing;
