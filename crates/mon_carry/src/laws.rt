//! Laws over a change of the inventory, for every world: what remains, what begins and what is over after `carry`. Each
//! law is the contract of a function that does nothing.
ghost use Rattle.mon_carry.specs.CarryLaws.{ObjectsStand, StatusesStand, CommentsStand, DowntimesStand, DepthsStand, ContactsStand, OwedStands, EndsKeepTheirNumbers, TheSameInventoryChangesNothingElse, TheSameInventoryChangesNothing};
ghost use Rattle.mon_carry.specs.CarryLaws.{NewObjectsBegin, NewObjectsHaveNoComments, NewObjectsHaveNoDowntimes, NewContactsBegin, NewObjectsOweNobody, WhoIsPresumedWhereTheOptionComes, NumbersWhereTheOptionComes};
ghost use Rattle.mon_carry.specs.CarryLaws.{CommentsAreOfObjectsThatStand, DowntimesOfGoneObjectsAreOver, WhatWaitsForThemDoesNotStart, NobodyIsOwedWithoutTheOption};
ghost use Rattle.mon_carry.specs.CarryLaws.{AllElseGoesOn, ACarriedWorldIsSaved};

/// An object whose names are in both inventories keeps its state, its comments and its downtimes, whatever its index.
/// Its status and the beginning of its hard problem change only where its attempt reaches the new greatest attempt. A
/// contact whose name is in both keeps its switches. Where both inventories have the option `recover_the_told`, exactly
/// those contacts are owed the end of the object's problem who were owed it, are still there, hear of its ends, and are
/// its contacts or those of its escalations; the end keeps its number. Under the same inventory nothing changes,
/// provided that only such contacts are owed an end, in order of the inventory (profile).
pub fn what_is_the_same_stands()
    ensures objects { ObjectsStand }
    ensures statuses { StatusesStand }
    ensures comments { CommentsStand }
    ensures downtimes { DowntimesStand }
    ensures depths { DepthsStand }
    ensures contacts { ContactsStand }
    ensures owed { OwedStands }
    ensures ends { EndsKeepTheirNumbers }
    ensures same_but_owed { TheSameInventoryChangesNothingElse }
    ensures same { TheSameInventoryChangesNothing }
{}

/// An object or a contact with a new name is as before the first entry. A new object has no comments, its downtimes, if
/// any, are over, and nobody is owed the end of a problem of it. Where the option `recover_the_told` is new, those
/// contacts are owed the end of an object's problem who are presumed to be, under the object's notification number
/// (profile).
pub fn what_is_new_begins()
    ensures objects { NewObjectsBegin }
    ensures comments { NewObjectsHaveNoComments }
    ensures downtimes { NewObjectsHaveNoDowntimes }
    ensures contacts { NewContactsBegin }
    ensures owed { NewObjectsOweNobody }
    ensures presumed { WhoIsPresumedWhereTheOptionComes }
    ensures numbers { NumbersWhereTheOptionComes }
{}

/// Each comment that remains is on an object in both inventories. The downtimes of an object that is gone are over, at
/// object 0. A downtime that has one of these as its trigger and has not started can no longer start. Where the option
/// `recover_the_told` is gone, nobody is owed the end of a problem (profile).
pub fn what_is_gone_is_over()
    ensures comments { CommentsAreOfObjectsThatStand }
    ensures downtimes { DowntimesOfGoneObjectsAreOver }
    ensures triggers { WhatWaitsForThemDoesNotStart }
    ensures owed { NobodyIsOwedWithoutTheOption }
{}

/// A change of the inventory does not change the clock, the program's switches, the last comment id, the ids of the
/// downtimes, the rejections, the notices and the counts of entries (profile).
pub fn ids_go_on_and_nothing_is_told()
    ensures { AllElseGoesOn }
{}

/// A monitor of the new inventory can resume from the parts that are carried to it: they fit that inventory (profile).
/// The law requires parts that can be saved under the old inventory and, where there is a downtime, an object in the
/// new one.
pub fn a_carried_world_is_saved()
    ensures { ACarriedWorldIsSaved }
{}
