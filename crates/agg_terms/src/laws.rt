//! What the order of values and the words on ordered lists come to, as laws.
ghost use Rattle.std.specs.Cmp.{IsTotalOrder};
ghost use Rattle.agg_terms.specs.Order.{compare};
ghost use Rattle.agg_terms.specs.Laws.{EqualIsSame, NumbersByValue, StringsByBytes, ListsByElements, MapsByEntries, NullBeforeAll, AscendingRises, AscendingKeepsAll, AscendingIsStable, DifferentRises, DifferentKeepsAll, FirstsAreApart, FirstsKeepAll, FirstsLeaveOut, FirstsAddLast, BestIsFirst, PlainTestIsExact, TreeTestIsExact, ValueTestIsExact};

/// The order of values: total, equal only at equal values, numbers by value, strings by bytes,
/// lists lexicographically, maps as lists of their entries, NULL before all else.
pub fn law_order()
    ensures total { IsTotalOrder compare }
    ensures equal_is_same { EqualIsSame }
    ensures numbers { NumbersByValue }
    ensures strings { StringsByBytes }
    ensures lists { ListsByElements }
    ensures maps { MapsByEntries }
    ensures null { NullBeforeAll }
{}

/// What a list put in order, a set, the first occurrences and the best of a list are, for elements of any type.
pub fn law_lists<T>()
    ensures ascending_rises { AscendingRises T }
    ensures ascending_keeps_all { AscendingKeepsAll T }
    ensures ascending_is_stable { AscendingIsStable T }
    ensures different_rises { DifferentRises T }
    ensures different_keeps_all { DifferentKeepsAll T }
    ensures firsts_are_apart { FirstsAreApart T }
    ensures firsts_keep_all { FirstsKeepAll T }
    ensures firsts_leave_out { FirstsLeaveOut T }
    ensures firsts_add_last { FirstsAddLast T }
    ensures best_is_first { BestIsFirst T }
{}

/// What decides whether a value is one of a type, and a tree one of a chain, decides it exactly.
pub fn law_trees()
    ensures plain { PlainTestIsExact }
    ensures trees { TreeTestIsExact }
    ensures values { ValueTestIsExact }
{}
