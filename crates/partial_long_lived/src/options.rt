//! How much an arena of a long-lived memory holds.

ghost use Rattle.std.specs.Prelude.{◌≡◌, ◌≤◌, IfOk, IfErr};
ghost use Rattle.partial_words.specs.Layout.{most_ports};
ghost use Rattle.partial_long_lived.specs.Options.{IsShapeFor, IsShapeError, MayOpen, announces_for, claim_room, claimed_pool};

use crate::open_error::OpenError;
use crate::shape::Shape;
use partial_words::{MOST_AHEAD, MOST_PORTS, Sizes, full_record_size, plain_record_size};

/// The most slots.
const MOST_SLOTS: u32 = 65_536;

/// The most pool words.
const MOST_POOL: u64 = 4_194_304;

/// How many pool words an arena has for each port where the options leave that open.
const POOL_OF_PORT: u64 = 16_384;

/// The fewest pool words that an arena has then.
const FEWEST_POOL: u64 = 8_192;

/// How many pool words half the arenas have together then, at most, unless each has the fewest. There are as many as
/// ports.
const POOL_OF_ALL: u64 = 131_072;

/// How many pool words an arena has for each component then, at least.
const POOL_OF_COMPONENT: u64 = 16;

/// How many pool words half the arenas have together for their components, at most.
const POOL_OF_COMPONENTS: u64 = 33_554_432;

/// The most components times ports of a memory whose scans announce themselves where the options leave that open.
const MOST_HELPED: u64 = 65_536;

/// How much an arena holds. A greater pool makes changes of epoch rarer, and takes more memory: there are two arenas
/// for each port.
#[derive(Clone, Copy, Debug, PartialEq, Eq)]
pub struct Options {
    /// How many list words an arena has: at most 65,536. Scans that announce themselves use them to list the slots that
    /// are no longer in use.
    pub lists: u32,
    /// How many pool words of an arena are claimed before its ports change the epoch. An update takes 3 of them, or
    /// 4 and 2 more for each component of a view that it stores; a scan that announces itself claims 1, and 1 more for
    /// each position. A port claims the words of up to 31 records at once, and keeps them for later updates. The pool has,
    /// beside these, the initial records and room for the greatest claim of each port.
    ///
    /// `None` is 16,384 for each port, but no more than 131,072 divided by the number of ports; or 16 for each component,
    /// but no more than 33,554,432 divided by the number of ports, if that is more; no more than an arena has room for, and
    /// always 8,192 at least.
    pub pool: Option<u32>,
    /// Whether a scan whose double collect fails announces itself, so that updates help it. If not, it makes double
    /// collects again, at most 64, and then changes the epoch, and has the values with which the next epoch begins. Then an
    /// arena needs no room for views, and no slots but one for each port; but such a scan may take as long as a change of
    /// epoch.
    ///
    /// `None` is yes where the number of ports times that of components is 65,536 at most.
    pub announce: Option<bool>,
}

impl Default for Options {
    ghost use Rattle.partial_long_lived.specs.Options.{IsUsual};

    ghost is_default = { IsUsual };

    /// 1,024 list words, and as many pool words as suit the number of ports and of components.
    fn default() -> Options {
        Options {
            lists: 1_024,
            pool: None,
            announce: None,
        }
    }
}

/// The sizes of a memory of `count` components.
///
/// # Errors
/// [`OpenError::Ports`] exactly when there are not 1 to 255 ports; otherwise [`OpenError::Components`] exactly when there
/// are not 1 to 65,536 components; otherwise [`OpenError::Lists`] exactly when the options ask for more than 65,536 list
/// words; otherwise [`OpenError::Pool`] exactly when the pool would have more than 4,194,304 words.
pub fn shape(count: usize, ports: u32, options: Options) -> Result<Shape, OpenError>
    ensures ok { IfOk result (IsShapeFor count ports options) }
    ensures fits { IfOk result (λ _. MayOpen count ports options) }
    ensures err { IfErr result (IsShapeError count ports options) }
{
    if ports < 1 || ports > MOST_PORTS {
        return Err(OpenError::Ports);
    }
    if count < 1 || count > 65_536 {
        return Err(OpenError::Components);
    }
    if options.lists > 65_536 {
        return Err(OpenError::Lists);
    }
    let m = count as u32;
    let announces = announces_for(options, u64::from(m), u64::from(ports));
    let room = claim_room(announces, u64::from(m), u64::from(ports));
    let claimed = pool_of(options, u64::from(m), u64::from(ports));
    let pool_words = plain_record_size() * u64::from(m) + claimed + room;
    if pool_words > MOST_POOL {
        return Err(OpenError::Pool);
    }
    let pool_words = pool_words as u32;
    let slots = if announces { claimed as u32 / 8 } else { 0 } + ports;
    let spare = 15 - (2 * m + 3 + slots + options.lists + pool_words) % 16;
    let slots = MOST_SLOTS.min(slots + spare);
    let Ok(sizes) = Sizes::new(m, slots, options.lists, pool_words) else {
        unreachable!()
    };
    let own = u64::from(sizes.first_free());
    Ok(Shape {
        sizes,
        ports,
        arenas: 2 * ports,
        limit: own + claimed,
        announces,
        own,
        carried: u64::from(sizes.total()),
    })
}

// Whether scans of a memory of `m` components announce themselves.
fn announces_for(options: Options, m: u64, ports: u64) -> bool
    requires components { m ≤ 65536 }
    requires ports { ports ≤ most_ports }
    ensures { result ≡ announces_for m ports options }
{
    match options.announce {
        Some(announces) => announces,
        None => ports * m <= MOST_HELPED,
    }
}

// How many pool words of an arena of `m` components are room for the greatest claim of each port.
fn claim_room(announces: bool, m: u64, ports: u64) -> u64
    requires components { m ≤ 65536 }
    requires ports { ports ≤ most_ports }
    ensures { result ≡ claim_room announces m ports }
{
    let record = if announces {
        full_record_size(m)
    } else {
        plain_record_size()
    };
    (record + MOST_AHEAD) * ports
}

// How many pool words of an arena of `m` components are claimed in an epoch.
fn pool_of(options: Options, m: u64, ports: u64) -> u64
    requires components { m ≤ 65536 }
    requires ports { (1 ≤ ports) × (ports ≤ most_ports) }
    ensures { result ≡ claimed_pool m ports options }
{
    match options.pool {
        Some(words) => u64::from(words),
        None => {
            let room = claim_room(announces_for(options, m, ports), m, ports);
            let others = plain_record_size() * m + room;
            let components = (POOL_OF_COMPONENT * m).min(POOL_OF_COMPONENTS / ports);
            let words = (POOL_OF_PORT * ports)
                .min(POOL_OF_ALL / ports)
                .max(components);
            words.min(MOST_POOL.saturating_sub(others)).max(FEWEST_POOL)
        }
    }
}
