//! Laws about ropes as text, each the contract of a function with an empty body. `list` and `weave`
//! are proved equal to the definitions that these laws are about.
ghost use Rattle.std.specs.Prelude.{◌≡◌, ℕ, List, Ok, None};
ghost use Rattle.agc_word.specs.Number.{Number};
ghost use Rattle.agc_store.specs.RopeFile.{rope_words};
ghost use Rattle.agc_store.specs.declared.rope_file.RopeForm.{RopeForm};
ghost use Rattle.agc_listing.specs.Laws.{AreRopeWords, IsRopeOf, words_listed};
ghost use Rattle.agc_listing.specs.List.{rope_text};
ghost use Rattle.agc_listing.specs.Weave.{parsed_in, woven_file};

/// The words that a file holds in a form are those of a rope: 36 banks of narrow words.
pub fn files_say_rope_words()
    ensures { (form : RopeForm) (file : List ℕ) → AreRopeWords (rope_words form file) }
{}

/// The text of a whole rope has no faulty line. Its lines name the words that are not +0, each with
/// its place, in the order of the places.
#[tactic(auto, using(crate::proofs::Listings::listing_says))]
pub fn listings_say_their_words()
    ensures { (words : List Number) → AreRopeWords words
        → parsed_in (rope_text None words) ≡ Ok (words_listed words) }
{}

/// Those words alone build the file of a rope with all of its words, in each form.
pub fn words_listed_make_the_rope()
    ensures { (form : RopeForm) (words : List Number) → AreRopeWords words
        → IsRopeOf form words (woven_file form (words_listed words)) }
{}
