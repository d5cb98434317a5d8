//! Laws of the definitions. Each is a function that does nothing.

ghost use Rattle.omi_process.specs.ProcessCore.{AcceptsElfCores, EachIsOneProcess};

/// Each ELF core file that has a number of program headers is the core of a process, with the same words and contexts.
pub fn elf_cores_are_process_cores()
    ensures { AcceptsElfCores }
{}

/// Each file in which no row of the table tells a fault is the core of one process: there are words of it, and no others.
pub fn each_file_is_one_process()
    ensures { EachIsOneProcess }
{}
