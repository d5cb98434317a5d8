//! Laws of the definitions. Each is a function that does nothing, and says its law in `specs/`.

ghost use Rattle.omi_top.specs.Recoded.{AlikeShowAlike, ElfCopyShowsAlike, ElfShowsAlike, RecodedShowsAlike, ShowsOnce};
ghost use Rattle.omi_top.specs.Determined.{MakesAreDetermined, RunsAreDetermined, StopsAreDetermined};

/// There is at most one run of a program by a plan. So the core and the text of `stop`, and those of the run within `run`, follow from
/// the plan and the script, and the line of `make` from its number.
pub fn runs_are_determined()
    ensures runs { RunsAreDetermined }
    ensures stops { StopsAreDetermined }
    ensures makes { MakesAreDetermined }
{}

/// `show` puts the same of a core and of its copy in the other order: a report depends on the words and the contexts alone.
pub fn recoded_shows_alike()
    ensures alike { RecodedShowsAlike }
    ensures once { ShowsOnce }
{}

/// `show` puts the same of two files that stand for cores with the same words and contexts, as of an ELF file and of the core file with its
/// words, and of a core and of the ELF file that `elf` writes of it.
pub fn files_show_alike()
    ensures alike { AlikeShowAlike }
    ensures elf { ElfShowsAlike }
    ensures copies { ElfCopyShowsAlike }
{}
