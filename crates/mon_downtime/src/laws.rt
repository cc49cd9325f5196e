//! Laws over the definitions of downtimes: the order of events, the time of each start, and the records that the calls
//! lead to. Each law is the contract of a function that does nothing.
ghost use Rattle.mon_downtime.specs.Cancel.{DependantsAreLeast};
ghost use Rattle.mon_downtime.specs.Clock.{LawOfTheClock, NothingIsLeft, WhatIsDueHappens};
ghost use Rattle.mon_downtime.specs.Due.{DueIsFirst};
ghost use Rattle.mon_downtime.specs.Times.{StartsAreInTime, WhatIsNotDueIsToCome};
ghost use Rattle.mon_downtime.specs.Problem.{AllThatWaitStart, OneStartsAfterAnother};
ghost use Rattle.mon_downtime.specs.RecordLaws.{RecordsStayRecords};

/// The event that is due at a moment is the first of all events, by moment, then Ends, Expires, Starts, then id, where
/// its moment is at or before that moment. Where no event is due, every event is later (profile).
pub fn due_is_first()
    ensures { DueIsFirst }
{}

/// A start that is due is of a pending downtime, inside its time: after it was entered and before its window ends
/// (Scheduled Downtime; profile). A triggered downtime starts with its trigger, any other inside its window, a fixed
/// one as soon as the window begins. Where no event is due by a moment, every event of each downtime is after that
/// moment.
pub fn downtimes_are_in_time()
    ensures starts { StartsAreInTime }
    ensures to_come { WhatIsNotDueIsToCome }
{}

/// The event that is due happens, and then the events that follow (profile). Advancing to one moment and then to a
/// later one leads to the same records as advancing to the later moment at once, event by event. Then no event is due,
/// whatever the records.
pub fn law_of_the_clock()
    ensures each { WhatIsDueHappens }
    ensures twice { LawOfTheClock }
    ensures done { NothingIsLeft }
{}

/// The dependants of a downtime are the least set that has the downtime itself, and each downtime whose trigger is in
/// the set (Scheduled Downtime, triggered downtime; profile).
pub fn dependants_are_least()
    ensures { DependantsAreLeast }
{}

/// Problems of one object, one after another at one clock until no downtime waits, start all its flexible downtimes
/// that wait then, in order of id. Each problem starts the first that waits, and leaves the others unchanged. The law
/// is for records with the ids 1, 2, .. in order (profile).
pub fn all_that_wait_start()
    ensures all { AllThatWaitStart }
    ensures each { OneStartsAfterAnother }
{}

/// The records keep the ids 1, 2, .. in order and numbers that commands can have: when records are added, when events
/// that are due happen, when downtimes that wait for a problem start, and when a downtime is cancelled (profile).
pub fn records_stay_records()
    ensures { RecordsStayRecords }
{}
