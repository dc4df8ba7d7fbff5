//! The laws of trees and their texts.
ghost use Rattle.state_texts.specs.Laws.{LegalIsSpelled, TextsAreOfTrees, TreesHaveTexts};

/// What has a text is a state tree, and each state tree has one, in every version, for every chain.
pub fn law_trees_have_texts()
    ensures trees { TextsAreOfTrees }
    ensures texts { TreesHaveTexts }
{}

/// A legal chain over legal types of the program has what texts need.
pub fn law_legal_is_spelled()
    ensures { LegalIsSpelled }
{}
