//! Laws of sources, each the contract of a function with an empty body. `assemble`, and `list` of agc_listing, are
//! proved equal to the definitions that these laws are about.
ghost use Rattle.std.specs.Prelude.{◌≡◌, ℕ, true, false, All, List, Err, map};
ghost use Rattle.agc_word.specs.Text.{lines_of};
ghost use Rattle.agc_store.specs.RopeFile.{rope_words};
ghost use Rattle.agc_store.specs.declared.rope_file.RopeForm.{RopeForm};
ghost use Rattle.agc_vocabulary.specs.Name.{own_names};
ghost use Rattle.agc_vocabulary.specs.declared.source_fault.SourceFault.{SourceFault};
ghost use Rattle.agc_asm.specs.FirstFault.{IsFirstFault, IsFirstOn, words_pass};
ghost use Rattle.agc_asm.specs.OrderLines.{
  HasOrder,
  IsListed,
  IsReadAlong,
  OrderLine,
  mnemonics_in,
  orders_in,
};
ghost use Rattle.agc_asm.specs.Source.{IsSourceWoven, is_listing, source_in};
ghost use Rattle.agc_asm.specs.declared.fault.AssemblyFault.TheVariants.{Line};

/// If a source assembles, the rope and its listing have the order of each line that writes one. At the place of the
/// line the rope has the only word that names this order with this operand, and the listing shows this mnemonic and
/// operand there, except that it has no line for +0. This holds if the listing reads the place as the source does, as
/// an extracode or not. It does if it reads no extracode at the place to which the last SETLOC or BANK before the line
/// went, or that follows the last data before it, or at which the text began. So only lines that are placed right behind
/// an EXTEND of other lines, or behind data with the word of EXTEND, can be listed as other orders.
pub fn a_listing_shows_the_orders_of_a_source()
    // Every line that writes an order is covered.
    ensures all { (form : RopeForm) (text file : List ℕ) → IsSourceWoven form text file
        → map (λ (line : OrderLine). line.written) (orders_in text) ≡ mnemonics_in text }
    ensures words { (form : RopeForm) (text file : List ℕ) → IsSourceWoven form text file
        → All (HasOrder (rope_words form file)) (orders_in text) }
    ensures listed { (form : RopeForm) (text file : List ℕ) → IsSourceWoven form text file
        → All (IsListed (rope_words form file)) (orders_in text) }
    ensures read { (form : RopeForm) (text file : List ℕ) → IsSourceWoven form text file
        → All (IsReadAlong (rope_words form file)) (orders_in text) }
{}

/// The fault reported for a source is the first of its pass, and the first is reported: the lines before its line have
/// no fault, and with that line they have this one. The second pass, for the words, runs only if the first pass, for
/// the names, has no fault. The first pass begins with the names that earlier readings found for references to later
/// lines. If no line has a fault, an operand of the interpretive language that is missing at the end is one of the last
/// line. A text with only places and words has no names, and only the pass for its words.
pub fn the_fault_reported_is_the_first()
    ensures source { (text : List ℕ) (n : ℕ) (why : SourceFault) → is_listing text ≡ false
        → source_in text ≡ Err (Line n why) → IsFirstFault text n why }
    ensures only { (text : List ℕ) (n : ℕ) (why : SourceFault) → is_listing text ≡ false
        → IsFirstFault text n why → source_in text ≡ Err (Line n why) }
    ensures listing { (text : List ℕ) (n : ℕ) (why : SourceFault) → is_listing text ≡ true
        → source_in text ≡ Err (Line n why) → IsFirstOn (words_pass own_names) (lines_of text) n why }
{}
