//! The laws as contracts: each clause is a statement of specs/ that is proved here.

ghost use Rattle.agg_meaning.specs.EventLaws.{LevelIsGreatest, LevelIsReached, MatchHasPlaces, PlacesAreMatch};
ghost use Rattle.agg_meaning.specs.Laws.{FedIsKept, MeaningIsKept, MergesAre, NoneIsBlank, NormalsAreTrees, OnlyLiveFeed, OnlyLiveMean, OnlyLiveStay, SameStatesAreFed, SameStatesMean, StatesJoin, TreesAreNormal, TreesUnfold};
ghost use Rattle.agg_meaning.specs.Orders.{HighestIsBest, LowestIsBest, RowsAreOrdered, TimesAreOrdered, ValuesAreOrdered};
ghost use Rattle.agg_meaning.specs.StateLaws.{LeafRowsAreAdded, LeafUnfoldingIsFed, LeafUnfoldingIsMeant, LeafUnfoldingsAreJoined, RowsAreAdded, UnfoldingIsFed, UnfoldingIsMeant, UnfoldingTakesFeeds, UnfoldingsAreJoined};
ghost use Rattle.agg_meaning.specs.ViewLaws.{AbsentIsBlank, GroupsAreJoined, GroupsAscend, SameTablesAnswer, TablesAreMerged, TablesJoin, TablesReload};

/// Funnels and patterns in the words of places: a funnel's level is the greatest number of increasing places among the
/// events that are a funnel chain, and a pattern matches exactly where some increasing places match it.
pub fn law_events()
    ensures level_is_reached { LevelIsReached }
    ensures level_is_greatest { LevelIsGreatest }
    ensures match_has_places { MatchHasPlaces }
    ensures places_are_match { PlacesAreMatch }
{}

/// The orders that the definitions use: of values, of rows and keys, of events by their times, and which of two values or
/// pairs is better. What `law_lists` of agg_terms says of lists that are in order holds at each of them.
pub fn law_orders()
    ensures values { ValuesAreOrdered }
    ensures rows { RowsAreOrdered }
    ensures times { TimesAreOrdered }
    ensures lowest { LowestIsBest }
    ensures highest { HighestIsBest }
{}

/// The laws of normal forms, for every legal chain, all lists of feeds and every state tree: merging, storing and
/// reloading states lose nothing, and only live feeds count.
pub fn law_states()
    ensures meaning_is_kept { MeaningIsKept }
    ensures fed_is_kept { FedIsKept }
    ensures merges_are { MergesAre }
    ensures trees_are_normal { TreesAreNormal }
    ensures normals_are_trees { NormalsAreTrees }
    ensures trees_unfold { TreesUnfold }

    ensures states_join { StatesJoin }
    ensures same_states_mean { SameStatesMean }
    ensures same_states_are_fed { SameStatesAreFed }

    ensures only_live_mean { OnlyLiveMean }
    ensures only_live_feed { OnlyLiveFeed }
    ensures only_live_stay { OnlyLiveStay }
    ensures none_is_blank { NoneIsBlank }
{}

/// What a state stands for decides its tree: fed, merged and finished over all the lists that it stands for, a state's
/// tree is the normal form of what it unfolds to, and its value the meaning of that.
pub fn law_stands()
    ensures rows_are_added { RowsAreAdded }
    ensures unfoldings_are_joined { UnfoldingsAreJoined }
    ensures unfolding_is_meant { UnfoldingIsMeant }
    ensures unfolding_is_fed { UnfoldingIsFed }
    ensures unfolding_takes_feeds { UnfoldingTakesFeeds }

    ensures leaf_rows_are_added { LeafRowsAreAdded }
    ensures leaf_unfoldings_are_joined { LeafUnfoldingsAreJoined }
    ensures leaf_unfolding_is_meant { LeafUnfoldingIsMeant }
    ensures leaf_unfolding_is_fed { LeafUnfoldingIsFed }
{}

/// The tables of a view: each group stands once, ascending; the tables of two lists of contributions joined are theirs
/// merged group by group; equal tables give equal answers; and tables stored and loaded again are the same.
pub fn law_views()
    ensures groups_ascend { GroupsAscend }
    ensures groups_are_joined { GroupsAreJoined }
    ensures tables_are_merged { TablesAreMerged }
    ensures absent_is_blank { AbsentIsBlank }

    ensures tables_join { TablesJoin }
    ensures same_tables_answer { SameTablesAnswer }
    ensures tables_reload { TablesReload }
{}
