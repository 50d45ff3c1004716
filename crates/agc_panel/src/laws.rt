//! Laws of the panel, each the contract of a function that does nothing. `Panel::take` is proved
//! equal to the definitions that these laws are about.
ghost use Rattle.std.specs.Prelude.{◌≡◌, ◌≢◌, false, List, [], ◌∷◌};
ghost use Rattle.agc_word.specs.declared.channel_write.ChannelWrite.{ChannelWrite};
ghost use Rattle.agc_panel.specs.Face.{blank_pair, blank_register, face_after, panel_of};
ghost use Rattle.agc_panel.specs.Lamp.{is_lit};
ghost use Rattle.agc_panel.specs.Laws.{AreUnnamed, OfDsalmout, OfRow, ShowSame, fields_named};
ghost use Rattle.agc_panel.specs.Laws.{fields_with};
ghost use Rattle.agc_panel.specs.Text.{panel_text};
ghost use Rattle.agc_panel.specs.declared.face.Face.{Face};
ghost use Rattle.agc_panel.specs.declared.lamp.Lamp.{Lamp};

/// Two writes that name different fields can be swapped: the panel after both is the same.
#[tactic(auto, using(crate::proofs::LawLemmas::changed_places))]
pub fn writes_change_places()
    ensures { (face : Face) (a b : ChannelWrite) → fields_named a ≢ fields_named b
        → face_after face (a ∷ b ∷ []) ≡ face_after face (b ∷ a ∷ []) }
{}

/// A field that no write names is blank, and a lamp that no write names is dark.
#[tactic(auto, using(crate::proofs::LawLemmas::blank_fields))]
pub fn unnamed_fields_are_blank()
    ensures program { (writes : List ChannelWrite) → AreUnnamed (OfRow 11) writes
        → (panel_of writes).program ≡ blank_pair }
    ensures verb { (writes : List ChannelWrite) → AreUnnamed (OfRow 10) writes
        → (panel_of writes).verb ≡ blank_pair }
    ensures noun { (writes : List ChannelWrite) → AreUnnamed (OfRow 9) writes
        → (panel_of writes).noun ≡ blank_pair }
    ensures r1 { (writes : List ChannelWrite) → AreUnnamed (OfRow 8) writes
        → AreUnnamed (OfRow 7) writes → AreUnnamed (OfRow 6) writes
        → (panel_of writes).r1 ≡ blank_register }
    ensures r2 { (writes : List ChannelWrite) → AreUnnamed (OfRow 5) writes
        → AreUnnamed (OfRow 4) writes → AreUnnamed (OfRow 3) writes
        → (panel_of writes).r2 ≡ blank_register }
    ensures r3 { (writes : List ChannelWrite) → AreUnnamed (OfRow 3) writes
        → AreUnnamed (OfRow 2) writes → AreUnnamed (OfRow 1) writes
        → (panel_of writes).r3 ≡ blank_register }
    ensures flash { (writes : List ChannelWrite) → AreUnnamed OfDsalmout writes
        → (panel_of writes).flash ≡ false }
    ensures lamp { (lamp : Lamp) (writes : List ChannelWrite) → AreUnnamed (fields_with lamp) writes
        → is_lit (panel_of writes).lamps lamp ≡ false }
{}

/// Panels with the same text show the same digits, signs, flash and lamps.
pub fn texts_tell_what_is_shown()
    ensures { (a b : Face) → panel_text a ≡ panel_text b → ShowSame a b }
{}
