//! Laws of the definitions. Each is a function that does nothing, and says its law in `specs/`.

ghost use Rattle.omi_step_words.specs.PlanLaws.{RegionStoresGoUp, TaskStoresGoUp};
ghost use Rattle.omi_step_words.specs.WordLaws.{FunctionsAreReadBack, GenerationsAreReadBack, LifeGoesUpByOne, PlacesAreReadBack};

/// What a word names is read back from it, and a record is taken by the life word that is one more than the one found.
pub fn words_are_read_back()
    ensures places { PlacesAreReadBack }
    ensures functions { FunctionsAreReadBack }
    ensures generations { GenerationsAreReadBack }
    ensures taken { LifeGoesUpByOne }
{}

/// The stores that fill a record go up through its fields, so no word is stored twice.
pub fn fills_go_up()
    ensures regions { RegionStoresGoUp }
    ensures tasks { TaskStoresGoUp }
{}
