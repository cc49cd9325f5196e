//! The number of records of each kind in an inventory, as the mode `check` prints it.
ghost use Rattle.std.specs.Prelude.{◌≡◌, IfOk, string_bytes};
ghost use Rattle.cmd_answer.specs.Counts.{AreCountsOf, counts_line};

use cmd_types::Memory;
use mon_inventory::Inventory;
use std::alloc::Global;

/// The numbers of contacts, hosts, services and escalations of an inventory (profile).
///
/// ```
/// let Ok(inventory) = Inventory::parse(alloc, b"host;web;1;0;;\n") else {
///     return Err(Fail::new("the inventory has no fault"));
/// };
/// let counts = InventoryCounts::of(&inventory);
/// assert_eq!(rt; (counts.hosts, counts.services), (1, 0));
/// let Ok(text) = counts.text(alloc) else {
///     return Err(Fail::new("there is memory"));
/// };
/// assert_eq!(rt;
///     text.as_str(),
///     "inventory: 0 contacts, 1 hosts, 0 services, 0 escalations\n"
/// );
/// ```
#[derive(Clone, Copy, Debug, PartialEq, Eq)]
pub struct InventoryCounts {
    pub contacts: u64,
    pub hosts: u64,
    pub services: u64,
    pub escalations: u64,
}

impl InventoryCounts {
    /// The counts of this inventory. An object with the name of a service is a service, any other one a host.
    pub fn of(inventory: &Inventory) -> InventoryCounts
        ensures { AreCountsOf inventory.now result }
    {
        let objects = inventory.objects();
        let mut services = 0;
        for object in objects {
            if object.service.is_some() {
                services += 1;
            }
        }
        InventoryCounts {
            contacts: inventory.contacts().len() as u64,
            hosts: objects.len() as u64 - services,
            services,
            escalations: inventory.escalations().len() as u64,
        }
    }

    /// The line `inventory: N contacts, N hosts, N services, N escalations`, with its line feed.
    ///
    /// # Errors
    /// Out of memory.
    pub fn text(self, alloc: Global) -> Result<String, Memory>
        ensures { IfOk result (λ text. string_bytes text ≡ counts_line self) }
    {
        let InventoryCounts {
            contacts,
            hosts,
            services,
            escalations,
        } = self;
        format!(in alloc;
            "inventory: {contacts} contacts, {hosts} hosts, {services} services, {escalations} escalations\n"
        )
    }
}
