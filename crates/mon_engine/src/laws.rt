//! Laws over one step of the monitor and over journals, for every world: which parts of the state an entry may change,
//! and which remain. Each law is the contract of a function that does nothing; the body calls the laws from which it
//! follows. *What an entry does* is all but the PROBLEM notices that the option `tell_by_clock` sends after it.
ghost use Rattle.mon_engine.specs.Clock.{LawOfTheClock, NothingIsLeft, TheClockIsNotRead};
ghost use Rattle.mon_engine.specs.Figures.{NothingIsCountedAtFirst};
ghost use Rattle.mon_engine.specs.DowntimeLaws.{DowntimesKeepTheirTime, DowntimesStand};
ghost use Rattle.mon_engine.specs.Laws.{AcknowledgementsStand, CommentsStand, DoubledCommentsShow, NothingIsDue, RejectedEntriesChangeNothing, SuppressedProblemsAreNotTold};
ghost use Rattle.mon_engine.specs.TouchLaws.{NewDowntimesAreAsked, OtherDowntimesStay, OtherObjectsStay};

/// Advancing the clock to one moment and then to a later one leads to the same world as advancing it to the later
/// moment at once; then no event is due, nor is one after an entry. The events that are due and their effects do not
/// depend on the clock (profile).
pub fn law_of_the_clock()
    ensures twice { LawOfTheClock }
    ensures done { NothingIsLeft }
    ensures after { NothingIsDue }
    ensures unread { TheClockIsNotRead }
{
    mon_downtime::law_of_the_clock();
}

/// Before the first entry the figures are all 0 (profile).
pub fn nothing_is_counted_at_first()
    ensures { NothingIsCountedAtFirst }
{}

/// A rejected entry does no act. The clock moves on to the entry's time, unless the clock is later already. The events
/// due at the new clock happen, with their notices. The rejection is listed, and the entry is counted. What the entry
/// does changes nothing else (profile).
pub fn rejected_entries_change_nothing()
    ensures { RejectedEntriesChangeNothing }
{
    mon_downtime::law_of_the_clock();
}

/// An acknowledgement remains until a command for its object replaces or removes it, a check result recovers the
/// object, or, for a normal one, a check result changes the object's code (External Commands; profile).
pub fn acknowledgements_stand()
    ensures { AcknowledgementsStand }
{}

/// A command that adds a comment and comes twice adds two comments. Where the command is applied, an acknowledgement
/// included, and the next entry has the same command, that entry is applied too; then there are two comments, under the
/// next two ids (External Commands; profile).
pub fn doubled_comments_show()
    ensures { DoubledCommentsShow }
{}

/// No entry sends a PROBLEM notice of an object that is suppressed after the entry (Notifications). An object is
/// suppressed if it is acknowledged, in a downtime or in a soft state, has notifications off (its own or the
/// program's), lacks the state's letter, has a delay to come, or came into its hard problem less than its first
/// notification delay ago. So is a service whose host is in a downtime or not UP. So is the first notice of a service
/// whose host came back less than the seconds of `settle` ago (profile).
pub fn suppressed_problems_are_not_told()
    ensures { SuppressedProblemsAreNotTold }
{
    mon_downtime::law_of_the_clock();
}

/// A comment remains until it is removed (External Commands; profile): by a command with its id, by a command for all
/// comments of its object, or by a restart where it is not persistent. A comment of an acknowledgement that is not
/// persistent is also removed together with its object's acknowledgement.
pub fn comments_stand()
    ensures { CommentsStand }
{}

/// After any journal a downtime is active only inside its time, at the journal's clock (Scheduled Downtime; profile).
/// Each active downtime started once it was entered and before its window ended: a triggered one with its trigger, any
/// other inside its window, a fixed one as soon as the window began. None has ended yet: a fixed one ends with its
/// window, a flexible one when its duration is over. A pending downtime has its time to come.
pub fn downtimes_keep_their_time()
    ensures { DowntimesKeepTheirTime }
{
    mon_downtime::downtimes_are_in_time();
    mon_downtime::law_of_the_clock();
}

/// A downtime that is pending or active after any journal remains until its time is over, or until it or a downtime on
/// which it depends is cancelled (Scheduled Downtime; profile). Until then it is unchanged, but for its start inside
/// its time.
pub fn downtimes_stand()
    ensures { DowntimesStand }
{
    mon_downtime::due_is_first();
    mon_downtime::downtimes_are_in_time();
    mon_downtime::law_of_the_clock();
}

/// What an entry does changes only the objects that it names and, where the command is for them, the services of a
/// host. Of the downtimes it changes only those with an event that is due, those that it cancels, and those that wait
/// for a problem of an object in which a result leaves a hard problem. Each new downtime is of an object that the entry
/// names, or of a service of the host that it names (External Commands; profile).
pub fn entries_touch_nobody_else()
    ensures objects { OtherObjectsStay }
    ensures downtimes { OtherDowntimesStay }
    ensures new { NewDowntimesAreAsked }
{}
