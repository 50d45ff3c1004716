//! Laws of the words of a line, each the contract of a function with an empty body. `encode_word` and `encode_pair` are
//! proved equal to the definitions that these laws are about.
ghost use Rattle.std.specs.Prelude.{◌≡◌, ℕ, Bool, true, false, List, [], ◌∷◌, None, Some, Ok, codes};
ghost use Rattle.agc_word.specs.Number.{Number, number_from_pattern};
ghost use Rattle.agc_listing.specs.Number.{begins_with_minus};
ghost use Rattle.agc_vocabulary.specs.Alias.{alias_word, is_extracode_alias};
ghost use Rattle.agc_vocabulary.specs.Body.{alias_name, alias_named, writes_nothing};
ghost use Rattle.agc_vocabulary.specs.Mnemonic.{directive_named};
ghost use Rattle.agc_vocabulary.specs.Name.{Naming};
ghost use Rattle.agc_encode.specs.Encode.{complemented, offset_below_zero, lowered, encode_order, encode_pair, encode_word};
ghost use Rattle.agc_vocabulary.specs.declared.alias.Alias.{Alias};
ghost use Rattle.agc_encode.specs.declared.encode.Banks.{Banks};
ghost use Rattle.agc_encode.specs.declared.encode.Pair.{Pair};

/// Another name of an order that has its operand is the word of its table: the address of a register, or the next place
/// for NOOP.
pub fn aliases_are_the_words_of_their_table()
    ensures registers { (a : Alias) (bits : ℕ) → alias_word a ≡ Some bits
        → (naming : Naming) (here : ℕ) (banks : Banks)
        → encode_word naming here (is_extracode_alias a) banks (alias_name a ∷ [])
        ≡ Ok (number_from_pattern 15 bits) }
{}

/// A minus before an order or a constant complements its word, or both words of a pair. Before a directive that writes
/// no word it means nothing, and such a line is refused.
pub fn a_minus_complements_the_words()
    ensures word { (naming : Naming) (here : ℕ) (leads : Bool) (banks : Banks) (name : List ℕ) (rest : List (List ℕ)) (word : Number)
        → begins_with_minus name ≡ false → writes_nothing (directive_named name) ≡ false
        → encode_word naming here leads banks (name ∷ rest) ≡ Ok word
        → encode_word naming here leads banks ((0x2D ∷ name) ∷ rest) ≡ Ok (complemented true word) }
    ensures pair { (naming : Naming) (here : ℕ) (banks : Banks) (name : List ℕ) (rest : List (List ℕ)) (pair : Pair)
        → begins_with_minus name ≡ false → writes_nothing (directive_named name) ≡ false
        → encode_pair naming here banks (name ∷ rest) ≡ Ok pair
        → encode_pair naming here banks ((0x2D ∷ name) ∷ rest)
        ≡ Ok (record { upper = complemented true pair.upper; lower = complemented true pair.lower }) }
{}

/// An offset that takes the number of an order's operand below zero is added to the word that the order has with the
/// operand 0: `LXCH 0 -1` is one less than `LXCH 0`.
pub fn an_offset_is_added_to_the_word()
    ensures { (naming : Naming) (here : ℕ) (leads : Bool) (banks : Banks) (name : List ℕ) (rest : List (List ℕ)) (less : ℕ)
        → begins_with_minus name ≡ false → alias_named name ≡ None → directive_named name ≡ None
        → offset_below_zero rest ≡ Some less
        → encode_word naming here leads banks (name ∷ rest)
        ≡ lowered less (encode_order naming here leads name (codes "0" ∷ [])) }
{}
