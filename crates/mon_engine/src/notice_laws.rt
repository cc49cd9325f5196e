//! Laws over notices, for every world or after any journal: which contacts are notified, when nobody is, and which
//! notice must go out. Each law is the contract of a function that does nothing; the body calls the laws from which it
//! follows. *What an entry does* is all but the notices that are sent after it of what stands: the RECOVERY notices of the
//! option `recover_the_told`, and the PROBLEM notices of the option `tell_by_clock`.
ghost use Rattle.mon_engine.specs.ByClockLaws.{NobodyIsForgotten, NothingIsToldByTheClock, TheClockTellsWhatIsReady};
ghost use Rattle.mon_engine.specs.EndLaws.{ARecoveryGoesToWhoIsOwedIt, EndsChangeNothingElse, NobodyIsOwedWhoCouldBeTold, OneRecoveryAnObject, OnlyItsContactsAreOwed, TheEndGoesToWhoHeardTheBeginning, TheEndHasTheNumberOfTheProblem};
ghost use Rattle.mon_engine.specs.WithheldLaws.{EachWordIsTrue};
ghost use Rattle.mon_engine.specs.NoticeLaws.{AProblemIsTold, AProblemIsToldAfterAnyJournal, AProblemIsToldUnlessWithheld, ARecoveryIsTold, NoProblemIsToldTwice, OneProblemAnEntry, OneProblemAnObject, OnlyWhoMayBeToldIsTold, SilenceIsKept, TheClockTellsWhoMayBeTold};

/// A contact is notified only where it may be (Notifications; Notification Escalations). Each contact of each notice of what
/// an entry does is one of the object's own or of one of its escalations. Its switch for that kind of object is on, as the entry found
/// it, unless the notice is a forced custom one. Its options have the notice's letter, unless the notice is a custom
/// one. The same holds of each notice that the clock sends, with the switches as what the entry does left them.
pub fn only_who_may_be_told_is_told()
    ensures entry { OnlyWhoMayBeToldIsTold }
    ensures clock { TheClockTellsWhoMayBeTold }
{
    mon_downtime::law_of_the_clock();
}

/// Where notifications are off for the program or for an object before an entry, what the entry does sends only forced
/// custom notices of the object. Where a downtime of an object, or of the host of a service, is active, it sends no
/// PROBLEM or RECOVERY notice of that object or service (Notifications; Scheduled Downtime).
pub fn silence_is_kept()
    ensures { SilenceIsKept }
{
    mon_downtime::law_of_the_clock();
}

/// A problem is notified. Suppose that a check result leaves an object in a hard problem, a notice of the problem is
/// due, and no switch, acknowledgement, delay, letter or service's host holds the notice back. Then a PROBLEM notice
/// goes out at that moment to the contacts that it reaches. A notice is due if the notification number is 0, the last
/// notice was of another code, the interval in force is over, which is not 0, or the object is a volatile service. A
/// host holds back the first notice of its services also for the seconds of `settle` after it came back. The law is for
/// any world in which,
/// after the events due by then, no downtime of the object or of its host is active and none waits for the problem. The
/// law is also for the world after any journal, where no such downtime is active after the entry (Notifications;
/// Notification Escalations; State Types; Scheduled Downtime).
///
/// With any applied result of a code other than 0 the notice goes out exactly if none of its tests fails; else what the
/// entry does sends no PROBLEM. The tests are made in the world in which the result was taken and the downtimes that it starts
/// have started. `withheld` of `specs/Withheld.antt` is the first test that fails; a bad result of a volatile service
/// never fails the test of number, code and interval.
pub fn a_problem_is_told()
    ensures told { AProblemIsTold }
    ensures afterwards { AProblemIsToldAfterAnyJournal }
    ensures unless { AProblemIsToldUnlessWithheld }
{
    mon_downtime::law_of_the_clock();
    mon_downtime::due_is_first();
    mon_downtime::downtimes_are_in_time();
}

/// A recovery is notified, without the option `recover_the_told`. Suppose that a check result ends a hard problem with a
/// notification number above 0, and no switch, letter or downtime of the object or of its host holds the notice back. Then a RECOVERY notice goes out at
/// that moment, with the number of the problem, to the contacts that the number and the letter `r` reach. The law is
/// for any world; the downtimes are those after the events due by then (Notifications; Scheduled Downtime).
pub fn a_recovery_is_told()
    ensures { ARecoveryIsTold }
{}

/// No problem is notified twice (Notifications; Notification Escalations). Two PROBLEM notices of an object with the
/// same code, of two entries, are at least the interval in force apart, which is not 0. The exceptions are a result of
/// another code after the first entry, up to the second and with it, a command that set the object's notification
/// number, and a second entry that is a result of a volatile service. What one entry does sends one PROBLEM notice at most, and with what the clock tells one of each object.
pub fn no_problem_is_told_twice()
    ensures apart { NoProblemIsToldTwice }
    ensures one { OneProblemAnEntry }
    ensures each { OneProblemAnObject }
{
    mon_downtime::law_of_the_clock();
}

/// Nobody is forgotten (profile). With the option `tell_by_clock` no problem stands untold after any entry, unless a
/// test holds its next notice back: `withheld` of `specs/Withheld.antt` is such a test for each object whose code is not
/// 0, and what the word of a test says of the object is true (`Says` of `specs/WithheldLaws.antt`). Each object whose notice nothing holds back is notified, in order of the inventory, and nothing else changes.
/// Without this option and `recover_the_told` nothing is notified but by what an entry does.
pub fn nobody_is_forgotten()
    ensures forgotten { NobodyIsForgotten }
    ensures words { EachWordIsTrue }
    ensures ready { TheClockTellsWhatIsReady }
    ensures without { NothingIsToldByTheClock }
{}

/// The end of a problem goes to who heard its beginning (profile). With the option `recover_the_told`, after any journal a
/// contact is owed the end of an object's problem exactly if a PROBLEM notice of the object reached it, its options and the
/// object's have the letter r, no RECOVERY notice of the object went to it since, and the object has not stood at code 0 for
/// a week since. The number of the end is that of the last PROBLEM notice that reached such a contact. Those who are owed an
/// end are contacts of the object or of one of its escalations, in order of the inventory and each once.
///
/// With an entry a RECOVERY notice goes out only of an object that has stood at code 0 for less than a week and is in no
/// downtime, while notifications are on; and only to contacts that were owed the end and whose switch is on. It has the
/// number of the end. Of each object there is one at most. After an entry no contact is owed the end of an object of code 0
/// that could be told of it: its switch is off, or the switch of the program or of the object is, or a downtime is active.
/// Nothing else changes with the ends that are told.
pub fn the_end_goes_to_who_heard_the_beginning()
    ensures heard { TheEndGoesToWhoHeardTheBeginning }
    ensures contacts { OnlyItsContactsAreOwed }
    ensures number { TheEndHasTheNumberOfTheProblem }
    ensures owed { ARecoveryGoesToWhoIsOwedIt }
    ensures one { OneRecoveryAnObject }
    ensures told { NobodyIsOwedWhoCouldBeTold }
    ensures else_same { EndsChangeNothingElse }
{
    mon_downtime::law_of_the_clock();
}
