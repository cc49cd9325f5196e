//! Laws over monitors that are taken apart, written, read back and resumed. Each law is the contract of a function that
//! does nothing; the body calls the laws from which it follows.
ghost use Rattle.mon_engine.specs.SavedLaws.{TheCountsAreNotRead, EachEntryIsCounted, GoingOnTwiceIsOnce, GoingOnMeansTheSame, GoingOnTellsTheSame, PartsMeanTheSame, PartsTellTheSame};
ghost use Rattle.mon_engine.specs.SavedLaws.{JournalsAreWellFormed, AnInitialWorldIsSaved, AWorldThatGoesOnIsSaved, AWorldOfEntriesIsSaved, AResumedWorldIsSaved, AWorldOfAJournalIsSaved};

/// A monitor that resumes from its parts does the same as one that never stopped. No entry depends on the number of
/// entries before it, and each is counted once. A journal in parts, with the monitor written and read back between them
/// after it printed all, leads to the same world and prints the same lines, however many parts there are (profile).
pub fn going_on_changes_nothing()
    ensures unread { TheCountsAreNotRead }
    ensures counted { EachEntryIsCounted }
    ensures twice { GoingOnTwiceIsOnce }
    ensures means { GoingOnMeansTheSame }
    ensures tells { GoingOnTellsTheSame }
    ensures parts { PartsMeanTheSame }
    ensures told { PartsTellTheSame }
{}

/// The world to which entries lead can be written and read back, once its rejections and notices are printed (profile).
/// Such are the world before the first entry, the world of a monitor that resumed, and the world after the entries of
/// any journal, at most [`GREATEST_BEFORE`](crate::GREATEST_BEFORE) together with the entries before.
pub fn a_world_of_entries_is_saved()
    ensures first { AnInitialWorldIsSaved }
    ensures entries { AWorldOfEntriesIsSaved }
    ensures goes_on { AWorldThatGoesOnIsSaved }
    ensures resumed { AResumedWorldIsSaved }
    ensures formed { JournalsAreWellFormed }
    ensures journal { AWorldOfAJournalIsSaved }
{
    mon_notes::comments_stay_in_order();
    mon_downtime::records_stay_records();
    mon_downtime::law_of_the_clock();
}
