//! The laws of state texts and of their reading.
ghost use Rattle.state_codec.specs.Laws.{BadTagsAreFirst, BehindTextIsLong, FaultsPoint, FaultsStay, FrontsAreShort, LongIsBehindText, NoneBeginsAnother, ReadsEachText, ReadsOnlyTexts, WritesBackTheSame};

/// What holds of state texts and of their reading, for every chain.
pub fn law_state_texts()
    ensures only { ReadsOnlyTexts }
    ensures each { ReadsEachText }
    ensures apart { NoneBeginsAnother }
    ensures back { WritesBackTheSame }
    ensures fronts { FrontsAreShort }
    ensures long { LongIsBehindText }
    ensures behind { BehindTextIsLong }
    ensures stay { FaultsStay }
    ensures point { FaultsPoint }
    ensures tags { BadTagsAreFirst }
{}
