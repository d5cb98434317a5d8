//! Laws of the format. Each is a function that does nothing, whose clauses hold of all files and cores.

ghost use Rattle.std.specs.Prelude.{◌≡◌, ◌≢◌, ℕ, ◌+◌, ◌*◌, ◌^◌, ◌<◌, ◌≤◌, List, [], ◌∷◌, ◌++◌, length, take, ◌⊎◌, codes};
ghost use Rattle.std.specs.Int.{w16, w32, to_le_bytes};
ghost use Rattle.omi_corefile.specs.declared.core_image.CoreImage.{CoreImage};
ghost use Rattle.omi_corefile.specs.declared.fault.CoreFault.{CoreFault};
ghost use Rattle.omi_corefile.specs.Spelling.{Core, spelling, eight_bytes};
ghost use Rattle.omi_corefile.specs.Refusals.{AreBytes, CoreRefused, reading};
ghost use Rattle.omi_corefile.specs.Outcomes.{IsCore, IsRefused};
ghost use Rattle.omi_corefile.specs.Limits.{total_words};
ghost use Rattle.omi_corefile.specs.declared.limits.TheConstants.{MOST_BYTES, MOST_CONTEXTS, MOST_SEGMENTS, MOST_SEGMENT_WORDS};
ghost use Rattle.omi_corefile.specs.BadFields.{IsFaultAt, id_place, start_place, count_place, NeverStarts};
ghost use Rattle.omi_corefile.specs.declared.segment.Segment.{Segment};

/// Each file is a core or has a fault, never both, and no two faults.
pub fn one_answer()
    ensures either { (bytes : List ℕ) → AreBytes bytes → IsCore bytes ⊎ IsRefused bytes }
    ensures not_both { (bytes : List ℕ) → IsCore bytes → ¬ IsRefused bytes }
    ensures one_fault { (bytes : List ℕ) (at other_at : ℕ) (why other : CoreFault)
        → CoreRefused bytes at why → CoreRefused bytes other_at other
        → (at ≡ other_at) × (why ≡ other) }
{}

/// Each core has one spelling, and each file spells at most one core.
pub fn one_spelling()
    ensures spelled { (c : CoreImage) → Core (spelling c) c }
    ensures one_file { (c : CoreImage) (bytes other : List ℕ) → Core bytes c → Core other c
        → bytes ≡ other }
    ensures one_core { (bytes : List ℕ) (c other : CoreImage) → Core bytes c → Core bytes other
        → c ≡ other }
{}

/// A file that ends inside a core is short, and bytes after a core are too many.
pub fn fronts_and_tails()
    ensures short { (c : CoreImage) (n : ℕ) → n < length (spelling c)
        → CoreRefused (take n (spelling c)) n (CoreFault.Short n) }
    ensures trailing { (c : CoreImage) (more : List ℕ) → 0 < length more
        → CoreRefused (spelling c ++ more) (length (spelling c))
        (CoreFault.Trailing (length (spelling c))) }
{}

/// A core has at most `MOST_BYTES`, so that one byte more of a longer file tells what the file is: so many bytes are read
/// as the whole file is, with the same fault at the same place.
pub fn front_enough()
    ensures { (bytes : List ℕ) → reading (take (MOST_BYTES + 1) bytes) ≡ reading bytes }
{}

/// Each field of a core is judged, and judged once it is whole: where a file spells a core up to a field and holds a bad
/// value there, it is refused with that field's fault, at the field's place, whatever follows. What stands in front of a
/// field has one fault at most, so the first bad field is the one that is told.
pub fn bad_fields()
    // The header.
    ensures magic { (c : CoreImage) (name : List ℕ) → length name ≡ 8 → name ≢ codes "OMPDCOR1"
        → IsFaultAt c 0 name CoreFault.BadMagic }
    ensures version { (c : CoreImage) (v : ℕ) → v ≢ 1
        → IsFaultAt c 8 (v ∷ []) (CoreFault.Version v) }
    ensures order { (c : CoreImage) (b : ℕ) → 1 < b → IsFaultAt c 9 (b ∷ []) (CoreFault.Order b) }
    ensures context_count { (c : CoreImage) (n : ℕ) → MOST_CONTEXTS < n → n < 2 ^ 16
        → IsFaultAt c 10 (to_le_bytes w16 n) (CoreFault.BadContext 10) }
    ensures segment_count { (c : CoreImage) (n : ℕ) → MOST_SEGMENTS < n → n < 2 ^ 32
        → IsFaultAt c 12 (to_le_bytes w32 n) (CoreFault.SegmentOrder 12) }

    // A native id that isn't above the one before.
    ensures id { (c : CoreImage) (before after : List ℕ) (last id n : ℕ)
        → c.contexts ≡ before ++ last ∷ id ∷ after → n ≤ last
        → let at = id_place (length before + 1)
        in IsFaultAt c at (eight_bytes n) (CoreFault.BadContext at) }

    // A start address that no segment has, or that isn't above the end of the segment before.
    ensures start { (c : CoreImage) (before after : List Segment) (s : Segment) (n : ℕ)
        → c.segments ≡ before ++ s ∷ after → n < 2 ^ 64 → NeverStarts n
        → let at = start_place c before
        in IsFaultAt c at (eight_bytes n) (CoreFault.SegmentOrder at) }
    ensures touching { (c : CoreImage) (before after : List Segment) (last s : Segment) (n : ℕ)
        → c.segments ≡ before ++ last ∷ s ∷ after → n ≤ last.start + 8 * length last.words
        → let at = start_place c (before ++ last ∷ []) in
        IsFaultAt c at (eight_bytes n) (CoreFault.SegmentOrder at) }

    // A segment of no words, and one of more words than the limit of all segments leaves.
    ensures no_words { (c : CoreImage) (before after : List Segment) (s : Segment)
        → c.segments ≡ before ++ s ∷ after
        → let at = count_place c before
        in IsFaultAt c at (eight_bytes 0) (CoreFault.SegmentOrder at) }
    ensures too_large { (c : CoreImage) (before after : List Segment) (s : Segment) (n : ℕ)
        → c.segments ≡ before ++ s ∷ after → n < 2 ^ 64
        → MOST_SEGMENT_WORDS < total_words before + n
        → IsFaultAt c (count_place c before) (eight_bytes n) (CoreFault.TooLarge n) }
{}
