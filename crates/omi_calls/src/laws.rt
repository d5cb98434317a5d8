//! The law of words in memory: a function that does nothing, whose clauses hold of every memory.

ghost use Rattle.std.specs.Prelude.{◌≡◌, ℕ, List, Some, None};
ghost use Rattle.omi_word.specs.Memory.{IsWordOf};
ghost use Rattle.omi_word.specs.Memory.{word_at as memory_word};
ghost use Rattle.omi_corefile.specs.Spelling.{segments_of};
ghost use Rattle.omi_calls.specs.Told.{aligned_word_at};
ghost use Rattle.omi_calls.specs.CoreWords.{words_of_segments};

/// The core of a memory tells the memory's words, and no others.
pub fn core_tells_memory()
    ensures words { (memory : List ℕ) (addr : ℕ) → IsWordOf memory addr
        → aligned_word_at (words_of_segments (segments_of memory)) addr
        ≡ Some (memory_word memory addr) }
    ensures others { (memory : List ℕ) (addr : ℕ) → ¬ IsWordOf memory addr
        → aligned_word_at (words_of_segments (segments_of memory)) addr ≡ None }
{}
