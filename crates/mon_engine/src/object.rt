//! The state of a host or a service, the kind of an object (host or service), and the result of a look-up. Nothing in
//! this file changes a state or takes memory.
ghost use Rattle.std.specs.Prelude.{◌≡◌, Some};
ghost use Rattle.mon_engine.specs.Objects.{is_kind, kind_of};

use cmd_types::Text;
use mon_checks::Status;
use mon_inventory::ObjectSpec;

/// Whether an object, a comment, a downtime or a switch is of hosts or of services.
#[derive(Clone, Copy)]
pub enum Kind {
    Host,
    Service,
}

impl Kind {
    /// The kind of the object that this line of the inventory defines: a line without a service name is a host's.
    pub fn of(spec: &ObjectSpec) -> Kind
        ensures { result ≡ kind_of spec.now }
    {
        match spec.service {
            None => Kind::Host,
            Some(_) => Kind::Service,
        }
    }

    /// Whether the object that this line of the inventory defines is of this kind.
    pub fn is_of(self, spec: &ObjectSpec) -> bool
        ensures { result ≡ is_kind self (Some spec.now) }
    {
        match self {
            Kind::Host => spec.service.is_none(),
            Kind::Service => spec.service.is_some(),
        }
    }
}

/// Whether a problem is acknowledged, and how (External Commands). A check result that changes the code removes a
/// normal acknowledgement; only a recovery removes a sticky one.
///
/// ```
/// // INVENTORY: the text of an inventory with the host web
/// let inventory = Inventory::parse(alloc, INVENTORY)?;
/// let monitor = Monitor::new(alloc, inventory)?;
/// let Some(web) = monitor.objects().first() else {
///     return Err(Fail::new("the inventory has a host"));
/// };
/// assert!(rt; matches!(web.acknowledgement, Acknowledgement::Unacknowledged));
/// ```
#[derive(Clone, Copy)]
pub enum Acknowledgement {
    Unacknowledged,
    Normal,
    Sticky,
}

/// When an object was checked last, and since when it is as it is (profile). Each moment is a monitor's clock, in seconds.
///
/// See the example of [`Object`].
#[derive(Clone, Copy, Debug, PartialEq, Eq)]
pub struct Moments {
    /// The moment of the last accepted check result; `None` before the first.
    pub checked: Option<u64>,
    /// The moment of the last change of the code; 0 before the first.
    pub changed: u64,
    /// The moment at which the object came into the hard problem that it is in; `None` where it is in none.
    pub since: Option<u64>,
}

/// The state of a host or a service, as check results and commands have made it.
///
/// ```
/// // INVENTORY: the text of an inventory with the host web
/// let inventory = Inventory::parse(alloc, INVENTORY)?;
/// let monitor = Monitor::new(alloc, inventory)?;
/// let Some(web) = monitor.objects().first() else {
///     return Err(Fail::new("the inventory has a host"));
/// };
/// assert!(rt; matches!(web.acknowledgement, Acknowledgement::Unacknowledged));
/// assert_eq!(rt; (web.number, web.last), (0, None));
/// assert_eq!(rt; web.moments.since, None);
/// ```
#[derive(Drop)]
pub struct Object {
    pub status: Status,
    pub moments: Moments,
    /// The output of the last check result; empty before the first.
    pub output: Text,
    pub acknowledgement: Acknowledgement,
    /// The notification number: the number of PROBLEM notices that went out for this problem, unless a command set or
    /// raised it.
    pub number: u64,
    /// The second of the object's last PROBLEM notice; `None` before the first and after a recovery.
    pub last: Option<u64>,
    /// The code of the object at that notice; `None` where `last` is `None`.
    pub notified: Option<u8>,
    /// The second before which PROBLEM notices are held back; `None` where no delay is set.
    pub not_before: Option<u64>,
    /// Whether notices of the object go out.
    pub notify: bool,
    /// Whether passive check results of the object are accepted.
    pub passive: bool,
}

/// An object that was looked up: its index in the inventory, its line there, and its state.
#[derive(Clone, Copy)]
pub struct Found<'a> {
    pub index: u16,
    pub spec: &'a ObjectSpec,
    pub state: &'a Object,
}
