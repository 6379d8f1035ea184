ghost use Rattle.std.specs.Prelude.{◌≡◌, ℕ, List, ◌∷◌, ◌++◌};
ghost use Rattle.spec_tables.specs.declared.edit_word.EditWord.{EditWord};
ghost use Rattle.spec_flow_text.specs.Characters.{number_sign};
ghost use Rattle.spec_flow_text.specs.Matches.{read_match};
ghost use Rattle.spec_flow_text.specs.Actions.{read_actions};
ghost use Rattle.spec_flow_text.specs.Lines.{edit_in};

/// A comment changes nothing: a number sign and whatever stands after it leave the edit of a line, or its fault, as it is.
/// So they leave its match and its list of actions, from whatever place on these are read.
pub fn comments_change_nothing()
    ensures edit { (line comment : List ℕ)
        → edit_in (line ++ number_sign ∷ comment) ≡ edit_in line }
    ensures matching { (word : EditWord) (at : ℕ) (line comment : List ℕ)
        → read_match word at (line ++ number_sign ∷ comment) ≡ read_match word at line }
    ensures actions { (at : ℕ) (line comment : List ℕ)
        → read_actions at (line ++ number_sign ∷ comment) ≡ read_actions at line }
{}
