//! What keys come to, as contracts of functions that do nothing.
ghost use Rattle.key_methods.specs.Laws.{KeysAreOneToOne, KeysHaveTheBytes};

/// One key stands for one tuple, and its bytes are those of the tuple.
pub fn law_keys()
    ensures one_to_one { KeysAreOneToOne }
    ensures bytes { KeysHaveTheBytes }
{}
