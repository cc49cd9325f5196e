//! Packs figures into one word, which a board holds, and unpacks them.
ghost use Rattle.std.specs.Prelude.{◌≡◌};
ghost use Rattle.cmd_dispatch.specs.Word.{IsSmall, word};

use mon_engine::Figures;

/// The word of the figures: the count of entries, and three counts of objects. Requires that each figure fits into its
/// bits.
pub(crate) fn word_of(figures: Figures) -> u64
    requires { IsSmall figures }
    ensures { result ≡ word figures }
{
    // 12 bits for each count up to MOST_OBJECTS, the rest for GREATEST_LIMIT: `IsSmall`, which `store_figures` proves.
    u64::from(figures.entries) << 36
        | (u64::from(figures.problems) << 24
            | (u64::from(figures.acknowledged) << 12 | u64::from(figures.in_downtime)))
}

/// The figures of a word. Each word of 64 bits is that of some figures.
pub(crate) fn figures_of(found: u64) -> Figures
    ensures { (word result ≡ found) × IsSmall result }
{
    // The bits are those of `word_of`; 0xfff has room for MOST_OBJECTS: `IsSmall`, which is ensured of the result.
    Figures {
        entries: (found >> 36) as u32,
        problems: (found >> 24 & 0xfff) as u16,
        acknowledged: (found >> 12 & 0xfff) as u16,
        in_downtime: (found & 0xfff) as u16,
    }
}
