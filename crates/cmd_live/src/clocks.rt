//! Decides whether the time of the system's clock can be used, by a comparison with the monotonic clock from tick to
//! tick. Without this check, a clock that is wrong for an hour would end downtimes for good.
ghost use Rattle.std.specs.Prelude.{◌≡◌, ◌-◌};

/// The most seconds by which the system's clock may gain on the monotonic clock between two ticks: a choice.
const MOST_AHEAD: u64 = 60;

/// The number of ticks in a row that have to agree after a jump, before the time is used again: a choice.
const AGREEING: u32 = 5;

/// The readings of both clocks at one moment, in seconds.
#[derive(Clone, Copy)]
pub struct Clocks {
    /// The system's clock, since 1970.
    pub system: u64,
    /// The monotonic clock, since an arbitrary moment.
    pub monotonic: u64,
}

impl Clocks {
    /// The seconds by which the system's clock has gained on the monotonic clock since `before`; 0 where it has not
    /// gained.
    fn ahead_of(self, before: Clocks) -> u64
        ensures { result ≡ (self.system - before.system) - (self.monotonic - before.monotonic) }
    {
        let passed = self.monotonic.saturating_sub(before.monotonic);
        let moved = self.system.saturating_sub(before.system);
        moved.saturating_sub(passed)
    }
}

/// The result of comparing the clocks at a tick.
#[derive(Clone, Copy, PartialEq, Eq)]
pub enum Agreement {
    /// The time of the system's clock can be used.
    Agrees,
    /// The system's clock has jumped ahead, by this number of seconds.
    Jumped(u64),
    /// The system's clock has jumped ahead, and fewer than five ticks have agreed since.
    Doubtful,
}

/// The comparison of the clocks from tick to tick. A jump back counts as agreement: the monitor's time does not go
/// back.
#[derive(Clone, Copy)]
pub struct Comparison {
    /// The readings of the clocks at the last tick.
    pub last: Clocks,
    /// The number of ticks that still have to agree; 0 while the time can be used.
    pub wanted: u32,
}

impl Comparison {
    /// A comparison that begins with the readings `now`.
    pub fn new(now: Clocks) -> Comparison
        ensures last { result.last ≡ now }
        ensures wanted { result.wanted ≡ 0 }
    {
        Comparison {
            last: now,
            wanted: 0,
        }
    }

    /// Compares the readings `now` with those of the last tick, and keeps them for the next comparison.
    pub fn note(&mut self, now: Clocks) -> Agreement
        ensures last { self.new.last ≡ now }
    {
        let ahead = now.ahead_of(self.last);
        self.last = now;
        if ahead > MOST_AHEAD {
            self.wanted = AGREEING;
            return Agreement::Jumped(ahead);
        }
        self.wanted = self.wanted.saturating_sub(1);
        if self.wanted == 0 {
            Agreement::Agrees
        } else {
            Agreement::Doubtful
        }
    }
}
