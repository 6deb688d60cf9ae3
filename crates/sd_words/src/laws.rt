//! Laws of the definitions, each on a function that does nothing.

ghost use Rattle.std.specs.Prelude.{◌≡◌, ◌↔◌, ℕ, List, Ok, Err};
ghost use Rattle.sd_words.specs.declared.request.Request.{Request};
ghost use Rattle.sd_words.specs.declared.request.UsageCause.{UsageCause};
ghost use Rattle.sd_words.specs.declared.table.TheConstants.{LEAST_ACTORS, SEED, USUAL_ACTORS};
ghost use Rattle.sd_words.specs.Spelling.{IsSpelling, Setting};
ghost use Rattle.sd_words.specs.Reading.{settings_of};
ghost use Rattle.sd_words.specs.Rules.{AreMisspelled, Asks, AskNothing};
ghost use Rattle.sd_words.specs.Asked.{IsWithinLimits, request_of};

/// Reading from the left gives the settings that the words split into, where the words are well spelled.
/// So they have one spelling.
pub fn words_are_read_as_spelled()
    ensures { (words : List (List ℕ)) (settings : List Setting) → (settings_of words ≡ Ok settings) ↔ IsSpelling words settings }
{}

/// Each answer comes exactly where its rule says, said without a reading.
pub fn answers_follow_the_rules()
    ensures request { (words : List (List ℕ)) (request : Request) → (request_of words ≡ Ok request) ↔ Asks words request }
    ensures within { (words : List (List ℕ)) (request : Request) → request_of words ≡ Ok request → IsWithinLimits request }
    ensures cause { (words : List (List ℕ)) (cause : UsageCause) → (request_of words ≡ Err cause) ↔ AskNothing words cause }
    ensures words { (words : List (List ℕ)) → (request_of words ≡ Err UsageCause.Words) ↔ AreMisspelled words }
{}

/// The numbers of words that no limit names, so that a digit that is wrong where one is written is wrong here too.
pub fn numbers_of_words()
    ensures seed { SEED ≡ 18446744073709551615 }
    ensures least_actors { LEAST_ACTORS ≡ 2 }
    ensures usual_actors { USUAL_ACTORS ≡ 8 }
{}
