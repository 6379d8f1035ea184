ghost use Rattle.std.specs.Prelude.{◌≡◌, ℕ, ◌+◌, Bool, List, [], ◌∷◌, ◌++◌, get_or, Ok, IsTrue};
ghost use Rattle.spec_actions.specs.declared.action.OfAction.{OfAction};
ghost use Rattle.spec_tables.specs.declared.edit_word.EditWord.{EditWord};
ghost use Rattle.spec_tables.specs.Edits.{Edit};
ghost use Rattle.spec_flow_text.specs.Items.{is_separator, is_white, words};
ghost use Rattle.spec_flow_text.specs.Matches.{MatchText, uncommented, read_match};
ghost use Rattle.spec_flow_text.specs.Actions.{read_actions};
ghost use Rattle.spec_flow_text.specs.Lines.{edit_in};
ghost use Rattle.text_laws.specs.ReadTexts.{HaveSameWords};

/// A separator at the end of a line changes nothing of what was read of it: its match, or its list of actions. White
/// space there changes no edit. A comma can: `delete` deletes all flows, and `delete,` is no edit, as white space alone
/// ends the word of an edit.
pub fn separators_at_the_end_change_nothing()
    ensures matching { (word : EditWord) (at : ℕ) (line : List ℕ) (end : ℕ) (m : MatchText)
        → IsTrue (is_separator end)
        → read_match word at line ≡ Ok m → read_match word at (line ++ end ∷ []) ≡ Ok m }
    ensures actions { (at : ℕ) (line : List ℕ) (end : ℕ) (actions : List OfAction)
        → IsTrue (is_separator end)
        → read_actions at line ≡ Ok actions → read_actions at (line ++ end ∷ []) ≡ Ok actions }
    ensures edit { (line : List ℕ) (white : ℕ) (edit : Edit)
        → IsTrue (is_white white) → edit_in line ≡ Ok edit
        → edit_in (line ++ white ∷ []) ≡ Ok edit }
{}

/// A separator in front of a match or of a list of actions changes nothing: it is read alike from the place of the
/// separator and from the place behind it.
pub fn separators_in_front_change_nothing()
    ensures matching { (word : EditWord) (at : ℕ) (line : List ℕ)
        → IsTrue (is_separator (get_or (uncommented line) at 0))
        → read_match word at line ≡ read_match word (at + 1) line }
    ensures actions { (at : ℕ) (line : List ℕ)
        → IsTrue (is_separator (get_or (uncommented line) at 0))
        → read_actions at line ≡ read_actions (at + 1) line }
{}

/// Two separators between words are as good as one, and one at the end is as good as none, whatever splits.
pub fn words_have_separators_between_them()
    ensures between { (splits : ℕ → Bool) (front back : List ℕ) (one other : ℕ)
        → IsTrue (splits one) → IsTrue (splits other)
        → HaveSameWords splits (front ++ one ∷ other ∷ back) (front ++ one ∷ back) }
    ensures at_the_end { (splits : ℕ → Bool) (fresh : Bool) (at : ℕ) (text : List ℕ) (end : ℕ)
        → IsTrue (splits end)
        → words splits fresh at (text ++ end ∷ []) ≡ words splits fresh at text }
{}
